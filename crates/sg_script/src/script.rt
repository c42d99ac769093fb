//! What a script says.
use sg_base::{Label, Name, NodeId, Seq, Value, Var};
use std::marker::Model;

/// A session that the principal starts.
#[derive(Drop)]
pub struct ScriptStart {
    /// The name of its graph.
    pub graph: Name,
    /// The version of its frames: 1 or 2.
    pub version: u8,
    /// The principal of each role in order, 2 to 16.
    pub cast: Seq<Name>,
}

impl Model for ScriptStart {
    ghost use Rattle.sg_script.specs.Script.{Start};

    ghost Value = { Start };

    ghost view = { λ s. record { graph = s.graph; version = s.version; cast = s.cast } };
}

/// The step that the principal takes at a node, as often as it may.
#[derive(Drop)]
pub struct ScriptChoice {
    /// The name of the graph.
    pub graph: Name,
    /// The node, one of the graph's.
    pub node: NodeId,
    /// The label, one of the graph's.
    pub label: Label,
    /// What is written, by variables that rise.
    pub values: Seq<(Var, Value)>,
    /// How often it may be taken: from 1 to 1,000,000 times.
    pub times: u32,
}

impl Model for ScriptChoice {
    ghost use Rattle.sg_script.specs.Script.{Choice};
    ghost use Rattle.sg_walk.specs.Model.{values_of};

    ghost Value = { Choice };

    ghost view = { λ c. record { graph = c.graph; node = c.node; label = c.label; values = values_of c.values; times = c.times } };
}

/// A script: what is started and what is chosen, each in the order of the file.
#[derive(Drop)]
pub struct Script {
    /// The sessions to start.
    pub starts: Seq<ScriptStart>,
    /// The choices.
    pub choices: Seq<ScriptChoice>,
}

impl Model for Script {
    ghost use Rattle.sg_script.specs.Script.{Script};

    ghost Value = { Script };

    ghost view = { λ s. record { starts = s.starts; choices = s.choices } };
}
