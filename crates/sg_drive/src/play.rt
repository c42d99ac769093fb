//! How a session begins, and how a principal plays at a node.
ghost use Rattle.std.specs.Prelude.{◌≡◌, ◌<◌, ◌≤◌, ◌++◌, true, length, IfErr, IfOk, IfSome, OnOk, Option, Some, option_map};
ghost use Rattle.std.specs.Fmt.{decimal};
ghost use Rattle.sg_base.specs.Model.{value_of};
ghost use Rattle.sg_graph.specs.Parts.{kind_of_type};
ghost use Rattle.sg_model.specs.Limits.{most_steps};
ghost use Rattle.sg_model.specs.Lists.{has_text};
ghost use Rattle.sg_protocol.specs.Graph.{writes};
ghost use Rattle.sg_report.specs.Outcome.{outcome_of};
ghost use Rattle.sg_walk.specs.Model.{values_of};
ghost use Rattle.sg_world.specs.FrameNumbers.{HasNumberUpTo};
ghost use Rattle.sg_drive.specs.Faults.{IsStopped};
ghost use Rattle.sg_sessions.specs.Draws.{if_in};
ghost use Rattle.sg_drive.specs.Generated.{begin, chosen, number_sent, play, play_along, player_at, value_drawn, values_drawn, with_sent};
ghost use Rattle.sg_drive.specs.Going.{drawing};
ghost use Rattle.sg_drive.specs.Machine.{HasRoom};
ghost use Rattle.sg_sessions.specs.Setup.{players};

use crate::fault::GenerateFault;
use crate::generator::Generator;
use crate::pending::Pending;
use sg_base::{Chars, Label, Name, NodeId, OutOfMemory, Seq, Value, Var, VarSet, VarType};
use sg_graph::Graph;
use sg_report::Outcome;
use sg_role::facts_of_each;
use sg_sched::Step;
use sg_sessions::player;
use std::alloc::{AllocError, Global};

impl<'g, 'p> Generator<'g, 'p> {
    /// A session starts, and its first principal plays.
    pub fn begin(&mut self, session: u32) -> Result<(), GenerateFault>
        requires room { HasRoom 2 500000002 self.old }
        requires there { session < self.old.sessions }
        ensures going { OnOk result (self.new ≡ record self.old { going = begin self.old.seed self.old.graph session self.old.going }) }
        ensures stopped { IfErr result (IsStopped (begin self.old.seed self.old.graph session self.old.going).replay) }
    {
        let node = NodeId(0);
        let who = player_at(self.graph, node);
        self.take(Step::Start { who, session })?;
        self.play(session, node)
    }

    /// The principal at a node draws a label and values, and acts; its frame goes to the list's end. If no label leaves the node,
    /// nothing is played.
    pub fn play(&mut self, session: u32, node: NodeId) -> Result<(), GenerateFault>
        requires room { HasRoom 1 500000002 self.old }
        requires there { (session < self.old.sessions) × (node < length self.old.graph.nodes) }
        ensures going { OnOk result (self.new ≡ record self.old { going = play self.old.seed self.old.graph session node self.old.going }) }
        ensures stopped { IfErr result (IsStopped (play self.old.seed self.old.graph session node self.old.going).replay) }
    {
        if self.graph.edges_from(node).is_empty() {
            return Ok(());
        }
        let drawn = self.draw();
        let label = chosen(self.graph.edges_from(node), drawn);
        self.play_along(session, node, label)
    }

    // The principal at a node draws values and acts along a label.
    fn play_along(&mut self, session: u32, node: NodeId, label: Label) -> Result<(), GenerateFault>
        requires room { HasRoom 1 500000003 self.old }
        requires there { (session < self.old.sessions) × (node < length self.old.graph.nodes) × (label < length self.old.graph.edges) }
        ensures going { OnOk result (self.new ≡ record self.old { going = play_along self.old.seed self.old.graph session node label self.old.going }) }
        ensures stopped { IfErr result (IsStopped (play_along self.old.seed self.old.graph session node label self.old.going).replay) }
    {
        let values = match self.draw_values(label) {
            Ok(values) => values,
            Err(_) => return Err(GenerateFault::OutOfMemory),
        };
        facts_of_each(values.as_slice());
        let who = player_at(self.graph, node);
        self.take(Step::Act {
            who,
            session,
            label,
            values,
        })?;
        self.put_sent(session, label)
    }

    // A value for each variable that a label writes, by the next draws.
    fn draw_values(&mut self, label: Label) -> Result<Seq<(Var, Value)>, OutOfMemory>
        requires there { label < length self.old.graph.edges }
        requires draws { self.old.going.draws ≤ 600_000_000 }
        ensures values { IfOk result (λ values. values_of values
            ≡ values_drawn self.old.seed self.old.going.draws self.old.graph (writes self.old.graph label)) }
        ensures going { OnOk result (self.new ≡ record self.old { going = drawing (length (writes self.old.graph label)) self.old.going }) }
    {
        let writes = self.graph.edge(label).writes;
        let mut values = Seq::new(self.alloc);
        for number in 0..self.graph.vars() {
            self.draw_value(&mut values, writes, Var(number))?;
        }
        Ok(values)
    }

    // A value for one more variable, by the next draw, if it is one of these.
    fn draw_value(
        &mut self,
        values: &mut Seq<(Var, Value)>,
        writes: VarSet,
        var: Var,
    ) -> Result<(), OutOfMemory>
        requires there { var < length self.old.graph.variables }
        requires draws { self.old.going.draws < 1_000_000_000 }
        ensures values { OnOk result (values_of values.new
            ≡ values_of values.old ++ values_drawn self.old.seed self.old.going.draws self.old.graph (if_in var writes)) }
        ensures going { OnOk result (self.new ≡ record self.old { going = drawing (length (if_in var writes)) self.old.going }) }
    {
        if !writes.has(var) {
            return Ok(());
        }
        let drawn = self.draw();
        let value = value_drawn(self.alloc, self.graph.var_type(var), drawn)?;
        values.push((var, value))?;
        Ok(())
    }

    // The frame that the last step sent goes to the list's end.
    fn put_sent(&mut self, session: u32, label: Label) -> Result<(), GenerateFault>
        ensures going { OnOk result (self.new ≡ record self.old { going = with_sent session label self.old.going }) }
        ensures stopped { IfErr result (λ e. e ≡ GenerateFault.OutOfMemory) }
    {
        match number_sent(self.world.last()) {
            Some(frame) => self.put(Pending {
                frame,
                session,
                label,
                count: 0,
            }),
            None => Ok(()),
        }
    }
}

// The number of the frame that was sent, if this came of the last step.
fn number_sent(outcome: Option<&Outcome<'_>>) -> Option<u32>
    requires { IfSome outcome (λ o. HasNumberUpTo most_steps (outcome_of o.now)) }
    ensures { result ≡ number_sent (option_map (λ o. outcome_of o.now) outcome.entry) }
{
    match outcome {
        Some(Outcome::Sent { frame, .. }) => Some(*frame as u32),
        _ => None,
    }
}

/// The principal at a node.
pub(crate) fn player_at(graph: &Graph, node: NodeId) -> Name
    requires { node < length graph.now.nodes }
    ensures player { result ≡ player_at graph.now node }
    ensures honest { has_text result (players (length graph.now.roles)) ≡ true }
{
    // A graph has at most 16 roles.
    let _roles = graph.roles();
    player(graph.node_role(node).0)
}

// The label that a draw chooses of these.
fn chosen(labels: &[Label], drawn: u32) -> Label
    requires { 0 < length labels.now }
    ensures { result ≡ chosen labels.now drawn }
{
    labels[drawn as usize % labels.len()]
}

// The value that a draw gives a variable: an int as it is, a text as its decimal digits.
fn value_drawn(alloc: Global, kind: VarType, drawn: u32) -> Result<Value, OutOfMemory>
    requires { drawn < 65_536 }
    ensures { IfOk result (λ v. value_of v ≡ value_drawn (kind_of_type kind) drawn) }
{
    match kind {
        VarType::Int => Ok(Value::Int(i64::from(drawn))),
        VarType::Text => Ok(Value::Text(digits_of(alloc, drawn)?)),
    }
}

// The decimal digits of a draw.
fn digits_of(alloc: Global, drawn: u32) -> Result<Chars, OutOfMemory>
    requires { drawn < 65_536 }
    ensures { IfOk result (λ text. text ≡ decimal drawn) }
{
    let digits = format!(in alloc; "{drawn}")?;
    match Chars::new(alloc, digits.as_str().as_bytes()) {
        Ok(text) => Ok(text),
        // The digits are a text of at most five bytes.
        Err(_) => Err(AllocError),
    }
}
