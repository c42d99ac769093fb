//! The graph of a live session.
ghost use Rattle.std.specs.Prelude.{◌≡◌, option_map};
ghost use Rattle.std.specs.Option.{option_copied};
ghost use Rattle.sg_protocol.specs.NodeStates.{RepresentsPast};
ghost use Rattle.sg_protocol.specs.Past.{Past, node_of};
ghost use Rattle.sg_protocol.specs.Named.{live_with};
ghost use Rattle.sg_node.specs.Slots.{state_in};

use crate::Node;
use crate::sessions::Live;
use sg_base::Sid;
use sg_graph::Graph;

impl<'p> Node<'p> {
    /// The graph of the first live session with an identifier, if there is one. It takes no memory.
    pub fn graph_of(&self, sid: &Sid) -> Option<&'p Graph>
        ensures { (past : Past) → RepresentsPast self.now past → option_copied result ≡ option_map (λ x. x.0.graph) (live_with (node_of past) sid.now) }
    {
        let Some(index) = self.sessions.first(sid, false) else {
            return None;
        };
        match self.sessions.get(index) {
            Some(live) => Some(live_graph(live)),
            None => None,
        }
    }
}

// The graph of a live session.
fn live_graph<'p>(live: &Live<'p>) -> &'p Graph
    ensures { result.now ≡ (state_in live.now).program.graph }
{
    match live {
        Live::AtTurn(turn) => turn.program().graph(),
        Live::Waiting(wait) => wait.before().program().graph(),
    }
}
