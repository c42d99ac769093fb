//! Views.
ghost use Rattle.std.specs.Prelude.{◌≡◌, IfOk};

use sg_base::{Label, OutOfMemory, Seq, VarSet};
use std::alloc::Global;
use std::marker::Model;

/// Where a view begins.
#[derive(Debug, Clone, Copy, PartialEq, Eq)]
pub enum Origin {
    /// At the start: the role has sent nothing yet.
    Start,
    /// After the role's own last step.
    After(Label),
}

/// A step that is seen: its label, and the variables written since the step that is seen before it, up to and including this one.
#[derive(Debug, Clone, Copy)]
pub struct Seen {
    /// The step's label.
    pub label: Label,
    /// The variables.
    pub delta: VarSet,
}

impl Model for Seen {
    ghost use Rattle.sg_protocol.specs.Evidence.{Seen};

    ghost Value = { Seen };

    ghost view = { λ s. record { label = s.label; delta = s.delta } };

    ghost inverse = { λ s. record { label = s.label; delta = s.delta } };
}

/// What a role sees of a walk: its own last label, and what it is shown since.
#[derive(Debug, Drop)]
pub struct View {
    /// The role's own last label, or the start.
    pub from: Origin,
    /// The steps that it is shown.
    pub items: Seq<Seen>,
}

impl Model for View {
    ghost use Rattle.sg_protocol.specs.Evidence.{View};
    ghost use Rattle.sg_vis.specs.Model.{origin_of};

    ghost Value = { View };

    ghost view = { λ v. record { origin = origin_of v.from; items = v.items } };
}

impl View {
    /// An equal view.
    pub fn copy(&self, alloc: Global) -> Result<View, OutOfMemory>
        ensures { IfOk result (λ v. v ≡ self.now) }
    {
        let items = self.items.as_slice().to_vec(alloc)?;
        Ok(View {
            from: self.from,
            items: Seq::from_vec(items),
        })
    }
}
