//! What is kept of one session.
ghost use Rattle.std.specs.Prelude.{◌≡◌, ◌<◌, [], All, IfOk, OnErr, OnOk, length};
ghost use Rattle.sg_certify.specs.Events.{explaining_walk};
ghost use Rattle.sg_model.specs.Lists.{is_in};
ghost use Rattle.sg_walk.specs.Model.{event_of, steps_of};
ghost use Rattle.sg_certify.specs.Adding.{with_shown};

use crate::pass::explain;
use crate::shown::ShownEvent;
use sg_base::{Label, OutOfMemory, RoleSet};
use sg_graph::Graph;
use sg_walk::{Event, StoredWalk};
use std::alloc::Global;
use std::marker::Model;

/// The trace of a session: its graph, its honest roles, and its events so far, each beside a walk that shows what it took.
#[derive(Drop)]
pub struct Trace<'r> {
    graph: &'r Graph,
    honest: RoleSet,
    shown: Vec<ShownEvent<'r>>,
}

impl<'r> Model for Trace<'r> {
    ghost use Rattle.sg_certify.specs.Traces.{Trace};

    ghost Value = { Trace };

    ghost use Rattle.sg_certify.specs.Model.{trace_of};
    ghost use Rattle.sg_certify.specs.Invariant.{HoldsTrace};

    ghost view = { trace_of };

    ghost invariant = { HoldsTrace };
}

impl<'r> Trace<'r> {
    /// A trace without events, of a session of this graph with these honest roles. It takes no memory.
    pub(crate) fn new(alloc: Global, graph: &'r Graph, honest: RoleSet) -> Trace<'r>
        ensures { result ≡ record { graph = graph.entry.now; honest = honest; shown = [] } }
    {
        Trace {
            graph,
            honest,
            shown: Vec::new(alloc),
        }
    }

    /// The graph of the session. It takes no memory.
    pub fn graph(&self) -> &'r Graph
        ensures { result.now ≡ self.now.graph }
    {
        self.graph
    }

    /// The honest roles of the session. It takes no memory.
    pub fn honest(&self) -> RoleSet
        ensures { result ≡ self.now.honest }
    {
        self.honest
    }

    /// The walk that is made of the events so far.
    pub fn walk(&self, alloc: Global) -> Result<StoredWalk, OutOfMemory>
        ensures { IfOk result (λ w. steps_of w ≡ explaining_walk self.now.graph (λ r. is_in r self.now.honest) [] self.now.shown) }
    {
        explain(alloc, self.graph, self.honest, self.shown.as_slice())
    }

    /// Goes on by an event, beside a walk. If memory runs out, the trace is as before.
    pub(crate) fn add(&mut self, event: &'r Event, walk: &'r [Label]) -> Result<(), OutOfMemory>
        requires { All (λ e. e < length self.old.graph.edges) walk.now }
        ensures ok { OnOk result (self.new ≡ with_shown self.old (event_of event.now) walk.now) }
        ensures err { OnErr result (self.new ≡ self.old) }
    {
        self.shown.push(ShownEvent { event, walk })?;
        Ok(())
    }
}
