//! Sets of roles and of variables.
ghost use Rattle.std.specs.Prelude.{◌≡◌, ◌<◌, ◌↔◌, [], IsTrue};
ghost use Rattle.sg_model.specs.Lists.{is_in};
ghost use Rattle.sg_base.specs.Sets.{members, with_member};

use crate::{Role, Var};
use std::marker::Model;

/// A set of roles, with bit i for role i. A clause sees it as its roles in rising order.
#[derive(Debug, Clone, Copy)]
pub struct RoleSet(pub u16);

impl Model for RoleSet {
    ghost use Rattle.std.specs.Prelude.{ℕ, ◌^◌, ◌<◌, List};

    ghost Value = { List ℕ };

    ghost use Rattle.sg_base.specs.Sets.{members, mask_of};
    ghost use Rattle.sg_base.specs.SetsBack.{mask_of-roles};

    ghost view = { λ s. members 16 s.0 };

    ghost invariant = { λ s. s.0 < 2 ^ 16 };

    ghost inverse = { λ xs. record { 0 = mask_of xs } };

    ghost inverse_ok = { mask_of-roles };
}

impl RoleSet {
    /// The empty set.
    pub fn empty() -> RoleSet
        ensures { result ≡ [] }
    {
        RoleSet(0)
    }

    /// Whether no role is in the set.
    pub fn is_empty(&self) -> bool
        ensures { IsTrue result ↔ (self.now ≡ []) }
    {
        self.0 == 0
    }

    /// Whether the role is in the set. A role that is not below 16 is in none.
    pub fn has(&self, role: Role) -> bool
        ensures { result ≡ is_in role self.now }
    {
        role.0 < 16 && self.0 >> role.0 & 1 == 1
    }

    /// The set with one more role.
    pub fn with(&self, role: Role) -> RoleSet
        requires { role < 16 }
        ensures { result ≡ with_member 16 self.now role }
    {
        RoleSet(self.0 | 1 << role.0)
    }
}

/// A set of variables, with bit i for variable i. A clause sees it as its variables in rising order.
#[derive(Debug, Clone, Copy)]
pub struct VarSet(pub u32);

impl Model for VarSet {
    ghost use Rattle.std.specs.Prelude.{ℕ, ◌^◌, ◌<◌, List};

    ghost Value = { List ℕ };

    ghost use Rattle.sg_base.specs.Sets.{members, mask_of};
    ghost use Rattle.sg_base.specs.SetsBack.{mask_of-variables};

    ghost view = { λ s. members 32 s.0 };

    ghost invariant = { λ s. s.0 < 2 ^ 32 };

    ghost inverse = { λ xs. record { 0 = mask_of xs } };

    ghost inverse_ok = { mask_of-variables };
}

impl VarSet {
    /// The empty set.
    pub fn empty() -> VarSet
        ensures { result ≡ [] }
    {
        VarSet(0)
    }

    /// Whether no variable is in the set.
    pub fn is_empty(&self) -> bool
        ensures { IsTrue result ↔ (self.now ≡ []) }
    {
        self.0 == 0
    }

    /// Whether the variable is in the set. A variable that is not below 32 is in none.
    pub fn has(&self, var: Var) -> bool
        ensures { result ≡ is_in var self.now }
    {
        var.0 < 32 && self.0 >> var.0 & 1 == 1
    }

    /// The set with one more variable.
    pub fn with(&self, var: Var) -> VarSet
        requires { var < 32 }
        ensures { result ≡ with_member 32 self.now var }
    {
        VarSet(self.0 | 1 << var.0)
    }
}
