//! What an audit says.
use sg_base::Time;
use sg_walk::StoredWalk;

/// What an audit says of the logs of a session.
#[derive(Drop)]
pub enum Audit {
    /// The logs agree with this walk.
    Yes(StoredWalk),
    /// Two principals say that they sent at this time, or two that they received at it; this holds at no earlier time.
    Clash { time: Time },
    /// They clash at no time, and agree with no walk that is asked for.
    No,
}
