//! Whether the times of a frame's items rise.
ghost use Rattle.std.specs.Prelude.{◌≡◌, ◌≤◌, None, length, All, IfOk, IfErr};
ghost use Rattle.sg_model.specs.Limits.{most_time};
ghost use Rattle.sg_protocol.specs.Verdict.{bad_time};
ghost use Rattle.sg_role.specs.Faults.{Refuses};

use crate::Refusal;
use sg_base::Time;
use sg_frame::Item;

/// Whether each item's time is above that of the item before it, and the first above this one. It takes no memory.
pub(crate) fn check_times(before: Time, items: &[Item]) -> Result<(), Refusal>
    requires few { length items.now ≤ 65535 }
    requires before { before ≤ most_time }
    requires times { All (λ i. i.time ≤ most_time) items.now }
    ensures right { IfOk result (λ u. bad_time 1 before items.now ≡ None) }
    ensures wrong { IfErr result (Refuses (bad_time 1 before items.now)) }
{
    let mut last = before;
    for at in 0..items.len() {
        let item = &items[at];
        let time = item.time;
        if time.0 <= last.0 {
            return Err(Refusal::BadTime {
                item: at as u32 + 1,
                got: time,
                least: Time(last.0 + 1),
            });
        }
        last = time;
    }
    Ok(())
}
