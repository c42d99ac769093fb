//! What a replay goes by.
ghost use Rattle.std.specs.Prelude.{◌≡◌, ◌<◌, ◌≤◌, All, AllPairs, length, map, sum_by, option_map, slice_get, Some, IfOk};
ghost use Rattle.std.specs.Option.{option_copied};
ghost use Rattle.sg_craft.specs.Invariant.{AreApart};
ghost use Rattle.sg_protocol.specs.IsSchedule.{AreCompiled};
ghost use Rattle.sg_protocol.specs.Node.{program_for};
ghost use Rattle.sg_protocol.specs.Schedule.{graph_with};
ghost use Rattle.sg_protocol.specs.Texts.{real, session_id, graph_text_of};

use crate::copies::{copy_graphs, copy_sessions};
use crate::texts::{sids_of, texts_of};
use sg_base::{OutOfMemory, Role, Seq, Sid};
use sg_craft::PairKeys;
use sg_crypt::{Cast, Hashed};
use sg_graph::Graph;
use sg_program::{Program, Programs};
use sg_sched::{NamedSession, Schedule};
use std::alloc::Global;
use std::marker::Model;

/// The programs and what is declared, with the identifiers of the sessions and the texts under the digests of the graphs.
#[derive(Drop)]
pub struct Setting<'p> {
    programs: &'p Programs,
    graphs: Seq<Graph>,
    keys: PairKeys,
    sessions: Seq<NamedSession>,
    // of the sessions, in order
    sids: Vec<Sid>,
    // of the graphs, in order
    texts: Vec<Hashed>,
}

impl<'p> Model for Setting<'p> {
    ghost use Rattle.sg_setting.specs.Setting.{Setting};

    ghost Value = { Setting };

    ghost use Rattle.sg_setting.specs.SettingHeld.{setting_of, HoldsSetting};

    ghost view = { setting_of };

    ghost invariant = { HoldsSetting };
}

impl<'p> Setting<'p> {
    /// These programs, and what the schedule declares. Its keys are of different pairs, and each of its graphs has two roles or more.
    pub fn new(
        alloc: Global,
        programs: &'p Programs,
        schedule: &Schedule,
    ) -> Result<Setting<'p>, OutOfMemory>
        requires pairs { AllPairs AreApart schedule.now.keys }
        requires compiled { AreCompiled real schedule.now.graphs programs.now }
        requires two { All (λ g. 2 ≤ length g.roles) schedule.now.graphs }
        ensures { IfOk result (λ s. s ≡ record {
          programs = programs.entry.now;
          graphs = schedule.now.graphs;
          keys = schedule.now.keys;
          sessions = schedule.now.sessions;
        }) }
    {
        Ok(Setting {
            programs,
            sids: sids_of(alloc, schedule.sessions.as_slice())?,
            sessions: copy_sessions(alloc, schedule.sessions.as_slice())?,
            keys: PairKeys::new(alloc, schedule.keys.as_slice())?,
            texts: texts_of(alloc, schedule.graphs.as_slice())?,
            graphs: copy_graphs(alloc, schedule.graphs.as_slice())?,
        })
    }

    /// The keys of pairs of principals. It takes no memory.
    pub fn keys(&self) -> &PairKeys
        ensures { result.now ≡ self.now.keys }
    {
        &self.keys
    }

    /// The graphs. It takes no memory.
    pub fn graphs(&self) -> &[Graph]
        ensures { result.now ≡ self.now.graphs }
    {
        self.graphs.as_slice()
    }

    /// The sessions. It takes no memory.
    pub fn sessions(&self) -> &[NamedSession]
        ensures { result.now ≡ self.now.sessions }
    {
        self.sessions.as_slice()
    }

    /// The identifiers of the sessions, in order. It takes no memory.
    pub fn sids(&self) -> &[Sid]
        ensures { result.now ≡ map (λ d. session_id real d.cast) self.now.sessions }
    {
        self.sids.as_slice()
    }

    /// The texts under the digests of the graphs, in order. It takes no memory.
    pub fn texts(&self) -> &[Hashed]
        ensures { result.now ≡ map graph_text_of self.now.graphs }
    {
        self.texts.as_slice()
    }

    /// The cast of the session at an index. It takes no memory.
    pub fn cast(&self, session: u32) -> Cast
        requires { session < length self.now.sessions }
        ensures { option_map (λ d. d.cast) (slice_get self.now.sessions session) ≡ Some result }
    {
        self.sessions.get(session as usize).cast
    }

    /// The identifier of the session at an index. It takes no memory.
    pub fn sid(&self, session: u32) -> Sid
        requires { session < length self.now.sessions }
        ensures { option_map (λ d. session_id real d.cast) (slice_get self.now.sessions session) ≡ Some result }
    {
        self.sids[session as usize]
    }

    /// The first graph with a digest. It takes no memory.
    pub fn graph(&self, digest: &[u8; 32]) -> Option<&'p Graph>
        ensures { option_copied result ≡ graph_with real self.now.graphs digest.now }
    {
        match first_program(self.programs, digest) {
            Some(program) => Some(program.graph()),
            None => None,
        }
    }

    /// The number of bytes of the texts under the graphs' digests. It takes no memory.
    pub fn size(&self) -> u128
        ensures { result ≡ sum_by (λ g. length (graph_text_of g)) self.now.graphs }
    {
        total(self.texts.as_slice())
    }
}

// The first program of a graph with a digest for the first role.
fn first_program<'p>(programs: &'p Programs, digest: &[u8; 32]) -> Option<&'p Program>
    ensures { option_copied result ≡ program_for programs.now digest.now 0 }
{
    programs.find(digest, Role(0))
}

// The bytes of these texts together, which a `u128` counts whatever they are.
fn total(texts: &[Hashed]) -> u128
    ensures { result ≡ sum_by (λ t. length t) texts.now }
{
    let mut size: u128 = 0;
    for text in texts {
        size += text.len() as u128;
    }
    size
}
