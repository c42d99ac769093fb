//! What is to come on a link.

use sg_base::Seq;

/// What comes next to one who waits.
#[derive(Drop)]
pub enum Coming {
    /// A delivery of these bytes.
    Delivery(Seq<u8>),
    /// So much time without one that each wait with a limit ends.
    Silence,
}
