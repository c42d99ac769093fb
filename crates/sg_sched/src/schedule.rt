//! Schedules.
use crate::key::PairKey;
use crate::step::Step;
use sg_base::{Name, Seq};
use sg_crypt::Cast;
use sg_graph::Graph;
use std::marker::Model;

/// A session by its name.
#[derive(Drop)]
pub struct NamedSession {
    /// The name that steps use.
    pub name: Name,
    /// The session's cast.
    pub cast: Cast,
}

impl Model for NamedSession {
    ghost use Rattle.sg_protocol.specs.Schedule.{NamedSession};

    ghost Value = { NamedSession };

    ghost view = { λ d. record { name = d.name; cast = d.cast } };
}

/// What is declared, and the steps, each in the order of their lines. It has no `Debug`, which would print the keys.
#[derive(Drop)]
pub struct Schedule {
    /// The graphs of the blocks, and after them `pair`, if there are edge lines.
    pub graphs: Seq<Graph>,
    /// The honest principals.
    pub honest: Seq<Name>,
    /// The keys of pairs of principals.
    pub keys: Seq<PairKey>,
    /// The sessions.
    pub sessions: Seq<NamedSession>,
    /// The steps.
    pub steps: Seq<Step>,
}

impl Model for Schedule {
    ghost use Rattle.std.specs.Prelude.{map};
    ghost use Rattle.sg_protocol.specs.Schedule.{Schedule};
    ghost use Rattle.sg_sched.specs.Format.StepsHeld.{step_of};

    ghost Value = { Schedule };

    ghost view = { λ s. record { graphs = s.graphs; honest = s.honest; keys = s.keys; sessions = s.sessions; steps = map step_of s.steps } };
}
