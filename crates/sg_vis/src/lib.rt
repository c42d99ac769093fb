//! What a role is shown of a walk, and tables of it in order.
//!
//! On a walk a role sees its own last label, or that it has done nothing yet, and then, of the steps since, those whose sender has no
//! later step, in order. With each comes its delta: the variables written since the one before it. This is the role's view of the walk.
//! A table has views in order, all different, each with a walk that shows it. Which views can reach a role is found by `sg_views`.
#![tactic(auto)]

mod order;
mod table;
mod view;

pub use order::{mask_of, number_of};
pub use table::{Row, ViewId, ViewTable, index_of};
pub use view::{Origin, Seen, View};
