//! Events beside walks.
use sg_base::Label;
use sg_walk::Event;

/// An event of a session, and a walk from the start that shows its role what it received. If the event is no receipt the walk is not
/// looked at.
#[derive(Clone, Copy)]
pub struct ShownEvent<'e> {
    /// The event.
    pub event: &'e Event,
    /// The walk.
    pub walk: &'e [Label],
}
