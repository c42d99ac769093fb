//! The targets of each edge.
ghost use Rattle.std.specs.Prelude.{◌≡◌, ◌<◌, [], get_or, length};

use sg_base::{Label, RoleSet, Seq};
use std::marker::Model;

/// The targets of each edge of a graph. A clause sees a list with the roles of each edge, in rising order.
#[derive(Drop)]
pub struct TargetTable {
    sets: Seq<RoleSet>,
}

impl Model for TargetTable {
    ghost use Rattle.std.specs.Prelude.{ℕ, List};

    ghost Value = { List (List ℕ) };

    ghost view = { λ t. t.sets };
}

impl TargetTable {
    /// The table of these sets, one for each label in order. It takes no memory.
    pub fn from_sets(sets: Seq<RoleSet>) -> TargetTable
        ensures { result ≡ sets }
    {
        TargetTable { sets }
    }

    /// The targets of a label's edge. It takes no memory.
    pub fn of(&self, label: Label) -> RoleSet
        requires { label < length self.now }
        ensures { result ≡ get_or self.now label [] }
    {
        *self.sets.get(label.0 as usize)
    }
}
