//! What the lines so far declare.
ghost use Rattle.std.specs.Prelude.{◌≡◌, ◌<◌, ◌≤◌, ◌==◌, length, bytes_eq, position, slice_get, option_copied, IfSome};
ghost use Rattle.sg_model.specs.Lists.{has_text};
ghost use Rattle.sg_sched.specs.Format.Items.{graphs_declared, graph_names, graph_for};
ghost use Rattle.sg_sched.specs.Pair.{graphs_of};
ghost use Rattle.sg_sched_text.specs.Adding.{session_index};
ghost use Rattle.sg_sched_text.specs.Plus.{nothing};
ghost use Rattle.sg_sched_text.specs.Holding.{HasRoles};

use crate::blocks::Blocks;
use crate::sessions::Sessions;
use sg_base::{Name, Seq};
use sg_graph::Graph;
use sg_parse::NameSet;
use sg_sched::Step;
use sg_sched::keys::Keys;
use sg_sched::pair::Pair;
use std::alloc::Global;
use std::marker::Model;

/// What the lines so far declare, each kind in the order of its lines, and the last group that has begun.
#[derive(Drop)]
pub(crate) struct Declared {
    pub alloc: Global,
    pub group: u8,
    pub blocks: Blocks,
    pub pair: Pair,
    pub honest: NameSet,
    pub keys: Keys,
    pub sessions: Sessions,
    pub steps: Seq<Step>,
}

impl Model for Declared {
    ghost use Rattle.std.specs.Prelude.{◌≤◌, map};
    ghost use Rattle.sg_sched.specs.Format.Items.{SoFar};
    ghost use Rattle.sg_sched.specs.Format.StepsHeld.{step_of};

    ghost Value = { SoFar };

    ghost view = { λ p. record {
      group = p.group;
      blocks = p.blocks;
      edges = p.pair;
      honest = p.honest;
      keys = p.keys;
      sessions = p.sessions;
      steps = map step_of p.steps;
    } };

    ghost invariant = { λ p. p.group ≤ 4 };
}

impl Declared {
    /// Before the first line. It takes no memory.
    pub fn new(alloc: Global) -> Declared
        ensures { result ≡ nothing }
    {
        Declared {
            alloc,
            group: 0,
            blocks: Blocks::new(alloc),
            pair: Pair::new(),
            honest: NameSet::new(alloc),
            keys: Keys::new(alloc),
            sessions: Sessions::new(alloc),
            steps: Seq::new(alloc),
        }
    }

    /// The index of the graph of this name, if it is declared. The graph of the edge lines stands after those of the blocks.
    pub fn graph_index(&self, name: &Name) -> Option<usize>
        ensures index { result ≡ position (bytes_eq name.now) (graph_names (graphs_declared self.now)) }
        ensures within { IfSome result (λ i. i < length (graphs_declared self.now)) }
    {
        if let Some(index) = self.blocks.index(name) {
            return Some(index);
        }
        let graph = self.pair.graph()?;
        if name.as_bytes() == graph.name().as_bytes() {
            Some(self.blocks.len())
        } else {
            None
        }
    }

    /// The graph at an index.
    pub fn graph_at(&self, index: usize) -> Option<&Graph>
        ensures graph { option_copied result ≡ slice_get (graphs_declared self.now) index }
        ensures roles { IfSome result (λ g. HasRoles g.now) }
    {
        let count = self.blocks.len();
        if index < count {
            Some(self.blocks.get(index))
        } else if index == count {
            self.pair.graph()
        } else {
            None
        }
    }

    /// Whether the graph of a block has the name.
    pub fn has_block(&self, name: &Name) -> bool
        ensures { result ≡ has_text name.now (graph_names self.now.blocks) }
    {
        self.blocks.has(name)
    }

    /// Whether the graph of the edge lines has the name.
    pub fn is_pair(&self, name: &Name) -> bool
        ensures { result ≡ has_text name.now (graph_names (graphs_of self.now.edges)) }
    {
        match self.pair.graph() {
            Some(graph) => name.as_bytes() == graph.name().as_bytes(),
            None => false,
        }
    }

    /// Whether there are no edge lines.
    pub fn has_no_edges(&self) -> bool
        ensures { result ≡ (length self.now.edges == 0) }
    {
        self.pair.len() == 0
    }

    /// The index of the session of this name, if it is declared.
    pub fn session_index(&self, name: &Name) -> Option<u32>
        ensures index { result ≡ session_index self.now name.now }
        ensures within { IfSome result (λ i. i < length self.now.sessions) }
    {
        let index = self.sessions.index(name)?;
        Some(index as u32)
    }

    /// The graph of the session of this name, if it is declared.
    pub fn graph_for(&self, session: &Name) -> Option<&Graph>
        ensures { option_copied result ≡ graph_for session.now self.now }
    {
        let index = self.sessions.index(session)?;
        let (_, like) = self.sessions.at(index);
        self.graph_at(like.graph)
    }

    /// Whether the principal is honest.
    pub fn is_honest(&self, who: &Name) -> bool
        ensures honest { result ≡ has_text who.now self.now.honest }
        ensures group { self.now.group ≤ 4 }
    {
        self.honest.has(who)
    }
}
