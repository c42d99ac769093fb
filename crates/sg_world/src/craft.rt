//! A step that is a craft.
ghost use Rattle.std.specs.Prelude.{◌≡◌, ◌+◌, ◌<◌, ◌^◌, length, None, OnOk};
ghost use Rattle.sg_protocol.specs.Schedule.{Schedule, who_of};
ghost use Rattle.sg_protocol.specs.World.{World, frames};
ghost use Rattle.sg_sched.specs.Format.StepsHeld.{step_of};
ghost use Rattle.sg_world.specs.Crafts.{CanBeCrafted, IsResultOfCraft, IsResultOfCrafting, Declares, IsCraftable};
ghost use Rattle.sg_world.specs.RecordModel.{no_frame};

use crate::call::next_frame;
use crate::record::StepResult;
use sg_base::{OutOfMemory, Seq};
use sg_craft::{Means, make_frame};
use sg_report::Outcome;
use sg_sched::{Craft, Step};
use sg_setting::Setting;
use std::alloc::Global;

/// Makes the frame of a step that is a craft, and writes over `step_result` that it did.
#[cold]
pub(crate) fn craft<'p>(
    alloc: Global,
    setting: &Setting<'p>,
    recorded: &[Seq<u8>],
    step: &Step,
    step_result: &mut StepResult<'p>,
) -> Result<(), OutOfMemory>
    requires craft { who_of (step_of step.now) ≡ None }
    requires can { IsCraftable setting.now (step_of step.now) }
    requires few { length recorded.now + 1 < 2 ^ 32 }
    requires blank { step_result.old ≡ no_frame }
    ensures { OnOk result (IsResultOfCrafting setting.now recorded.now (step_of step.now) step_result.new) }
{
    let Step::Craft(wanted) = step else {
        unreachable!();
    };
    craft_frame(alloc, setting, recorded, wanted.get(), step_result)
}

// Makes the frame of a craft.
fn craft_frame<'p>(
    alloc: Global,
    setting: &Setting<'p>,
    recorded: &[Seq<u8>],
    wanted: &Craft,
    step_result: &mut StepResult<'p>,
) -> Result<(), OutOfMemory>
    requires can { CanBeCrafted setting.now wanted.now }
    requires few { length recorded.now + 1 < 2 ^ 32 }
    requires blank { step_result.old ≡ no_frame }
    ensures { (s : Schedule) (w : World) → Declares s setting.now → frames w ≡ recorded.now
        → OnOk result (IsResultOfCraft (length recorded.now + 1) s w wanted.now step_result.new) }
{
    let cast = setting.cast(wanted.session);
    let sid = setting.sid(wanted.session);
    let Some(graph) = setting.graph(&cast.graph()) else {
        unreachable!();
    };
    let means = Means {
        graph,
        cast: &cast,
        sid: &sid,
        keys: setting.keys(),
        frames: recorded,
    };
    let bytes = make_frame(alloc, &means, wanted)?;
    step_result.set_outcome(Outcome::Crafted {
        frame: next_frame(recorded),
    });
    step_result.set_frame(Seq::from_vec(bytes));
    Ok(())
}
