//! Standard descriptors in memory.
ghost use Rattle.std.specs.Prelude.{◌≡◌};
ghost use Rattle.sg_base.specs.Memory.{new_plan};

use crate::Descriptors;
use sg_base::{Failed, FaultPlan};
use std::marker::Model;

/// Standard descriptors in memory, some of them free. The calls of `fill` are counted from 1, and those of a given list fail.
#[derive(Drop)]
pub struct MemDescriptors {
    input: bool,
    output: bool,
    error: bool,
    plan: FaultPlan,
}

impl Model for MemDescriptors {
    ghost use Rattle.sg_system.specs.Memory.{DescriptorsHeld};

    ghost Value = { DescriptorsHeld };

    ghost view = { λ d. record { input = d.input; output = d.output; error = d.error; plan = d.plan } };
}

impl MemDescriptors {
    /// Descriptors of which these are free, with the numbers of the calls that are to fail.
    pub fn new(input: bool, output: bool, error: bool, fails: Vec<u32>) -> MemDescriptors
        ensures { result ≡ record { input = input; output = output; error = error; plan = new_plan fails.items } }
    {
        MemDescriptors {
            input,
            output,
            error,
            plan: FaultPlan::new(fails),
        }
    }
}

impl Descriptors for MemDescriptors {
    ghost use Rattle.std.specs.Prelude.{Some};
    ghost use Rattle.sg_system.specs.Laws.{at_most_three};
    ghost use Rattle.sg_system.specs.Memory.{all_free};

    ghost faults = { λ d. d.plan.faults };

    ghost free = { λ d. Some (all_free d) };

    ghost three = { λ d all is. at_most_three d all is };

    fn are_open(&self) -> bool {
        !self.input && !self.output && !self.error
    }

    /// It fails at the calls that are to fail.
    fn fill(&mut self) -> Result<(), Failed> {
        self.plan.call(true)?;
        if self.input {
            self.input = false;
        } else if self.output {
            self.output = false;
        } else {
            self.error = false;
        }
        Ok(())
    }
}
