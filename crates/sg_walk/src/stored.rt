//! Stored walks.
ghost use Rattle.std.specs.Prelude.{◌≡◌, IfOk};

use sg_base::{Label, OutOfMemory, Seq, Value, Var};
use std::alloc::Global;

/// A step: its label, and each variable that it writes, in rising order, with its value. `None` is a hidden value.
#[derive(Drop)]
pub struct StoredStep {
    /// The label.
    pub label: Label,
    /// The variables and their values.
    pub writes: Seq<(Var, Option<Value>)>,
}

/// The steps of a walk from the start, with the values that are written on it.
#[derive(Drop)]
pub struct StoredWalk {
    /// The steps.
    pub steps: Seq<StoredStep>,
}

impl StoredWalk {
    /// An equal walk.
    pub fn copy(&self, alloc: Global) -> Result<StoredWalk, OutOfMemory>
        ensures { IfOk result (λ w. w ≡ self.now) }
    {
        let mut steps = Vec::new(alloc);
        for step in self.steps.as_slice() {
            steps.push(copy_step(alloc, step)?)?;
        }
        Ok(StoredWalk {
            steps: Seq::from_vec(steps),
        })
    }
}

fn copy_step(alloc: Global, step: &StoredStep) -> Result<StoredStep, OutOfMemory>
    ensures { IfOk result (λ s. s ≡ step.now) }
{
    let mut writes = Vec::new(alloc);
    for write in step.writes.as_slice() {
        writes.push((write.0, copy_value(alloc, &write.1)?))?;
    }
    Ok(StoredStep {
        label: step.label,
        writes: Seq::from_vec(writes),
    })
}

fn copy_value(alloc: Global, value: &Option<Value>) -> Result<Option<Value>, OutOfMemory>
    ensures { IfOk result (λ v. v ≡ value.now) }
{
    match value {
        Some(value) => Ok(Some(value.copy(alloc)?)),
        None => Ok(None),
    }
}
