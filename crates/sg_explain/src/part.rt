//! The check of a stored walk against events.
ghost use Rattle.std.specs.Prelude.{◌↔◌, [], flat_map, map, IsTrue, true, ◌≡◌};
ghost use Rattle.std.specs.Option.{option_map_or};
ghost use Rattle.std.specs.List.{AllByRecursion};
ghost use Rattle.sg_model.specs.Last.{last};
ghost use Rattle.sg_model.specs.Lists.{is_in};
ghost use Rattle.sg_model.specs.Shape.{sender, receiver};
ghost use Rattle.sg_protocol.specs.Graph.{shape};
ghost use Rattle.sg_protocol.specs.Walk.{OnePath, acts_of_event, are_hidden, honest_acts};
ghost use Rattle.sg_explain.specs.Matching.{IsNamed};
ghost use Rattle.sg_walk.specs.Model.{event_of, steps_of};

mod explained;
mod hidden;
mod pairs;
mod walked;

use explained::explains;
use hidden::hides;
use sg_base::RoleSet;
use sg_graph::Graph;
use sg_walk::{Event, StoredWalk};
use walked::is_stored_walk;

/// Whether the stored walk explains the events: the events of one session, in order, are what the honest roles do along the walk,
/// except perhaps for a last receipt by an honest role from an honest role; an honest role has sent or received the last step; and
/// exactly the values that no honest role wrote or received are hidden. Starts are passed over. Identifiers, times and joins are not
/// compared. It takes no memory, and time in proportion to the walk and the events.
pub fn check_part(graph: &Graph, honest: RoleSet, walk: &StoredWalk, events: &[Event]) -> bool
    ensures { IsTrue result ↔ OnePath graph.now (λ r. is_in r honest) (map event_of events.now) (steps_of walk.now) }
{
    if !is_stored_walk(graph, walk) {
        return false;
    }
    let (sent, received) = last_ends(graph, honest, walk);
    if is_part(graph, honest, true, walk, events) {
        return sent || received;
    }
    if !sent || !received {
        return false;
    }
    is_part(graph, honest, false, walk, events)
}

/// Whether the events are the honest part of the walk, and what is hidden is right. `taken` says whether the last receipt counts.
fn is_part(graph: &Graph, honest: RoleSet, taken: bool, walk: &StoredWalk, events: &[Event]) -> bool
    requires { AllByRecursion (IsNamed graph.now) (steps_of walk.now) }
    ensures { IsTrue result ↔ ((flat_map acts_of_event (map event_of events.now) ≡ honest_acts graph.now (λ r. is_in r honest) taken [] (steps_of walk.now))
        × IsTrue (are_hidden graph.now (λ r. is_in r honest) taken (steps_of walk.now))) }
{
    explains(graph, honest, taken, walk, events) && hides(graph, honest, taken, walk)
}

/// Whether the last step's sender is honest, and whether its receiver is; both, if there is no step.
fn last_ends(graph: &Graph, honest: RoleSet, walk: &StoredWalk) -> (bool, bool)
    requires { AllByRecursion (IsNamed graph.now) (steps_of walk.now) }
    ensures sent { result.0 ≡ option_map_or (λ s. is_in (sender (shape graph.now) s.label) honest) (last (steps_of walk.now)) true }
    ensures received { result.1 ≡ option_map_or (λ s. is_in (receiver (shape graph.now) s.label) honest) (last (steps_of walk.now)) true }
{
    let steps = walk.steps.as_slice();
    if steps.is_empty() {
        return (true, true);
    }
    let label = steps[steps.len() - 1].label;
    (
        honest.has(graph.sender(label)),
        honest.has(graph.receiver(label)),
    )
}
