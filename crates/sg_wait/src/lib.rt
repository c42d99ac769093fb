//! Waiting with a limit of time.
//!
//! What is to come on a link is a list of deliveries and silences. A wait with a limit takes the first of them: a delivery is given, a
//! silence ends the wait with nothing. A wait without a limit takes silences off until there is a delivery. No number of milliseconds
//! stands in a definition: how long a silence has to be is for the link to say.
//!
//! [`TimedLink`] is a link that can wait so. [`MemTimedLink`] is one in memory, of which it is known what is to come.
#![tactic(auto)]

mod coming;
mod memory;
mod timed;

pub use coming::Coming;
pub use memory::MemTimedLink;
pub use timed::TimedLink;
