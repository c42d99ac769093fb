//! The order of views in a table.
ghost use Rattle.std.specs.Prelude.{◌≡◌};
ghost use Rattle.sg_base.specs.Sets.{members};
ghost use Rattle.sg_protocol.specs.Evidence.{mask};
ghost use Rattle.sg_vis.specs.Order.{compared, items_compared, origin_number, seen_compared};
ghost use Rattle.sg_vis.specs.Model.{origin_of};
ghost use Rattle.sg_vis.specs.Table.{view_from};

use crate::{Origin, Seen, View};
use sg_base::VarSet;
use std::cmp::Ordering;

/// How a view compares to the view of an origin and items: first by the origin, the start before each label; then by the first items that
/// differ in label or mask, the beginning of a list before it. It takes no memory.
pub(crate) fn compare(view: &View, from: Origin, items: &[Seen]) -> Ordering
    ensures order { result ≡ compared view.now (view_from (origin_of from) items.now) }
    ensures same { result ≡ Ordering.Equal → view.now ≡ view_from (origin_of from) items.now }
{
    match number_of(view.from).cmp(&number_of(from)) {
        Ordering::Equal => compare_items(view.items.as_slice(), items),
        other => other,
    }
}

/// 0 for the start, and otherwise one more than the label.
pub fn number_of(from: Origin) -> u32
    ensures { result ≡ origin_number (origin_of from) }
{
    match from {
        Origin::Start => 0,
        Origin::After(label) => u32::from(label.0) + 1,
    }
}

fn compare_items(one: &[Seen], two: &[Seen]) -> Ordering
    ensures order { result ≡ items_compared one.now two.now }
    ensures same { result ≡ Ordering.Equal → one.now ≡ two.now }
{
    let mut at = 0;
    while at < one.len() && at < two.len() {
        match compare_seen(&one[at], &two[at]) {
            Ordering::Equal => at += 1,
            other => return other,
        }
    }
    one.len().cmp(&two.len())
}

fn compare_seen(one: &Seen, two: &Seen) -> Ordering
    ensures order { result ≡ seen_compared one.now two.now }
    ensures same { result ≡ Ordering.Equal → one.now ≡ two.now }
{
    match one.label.0.cmp(&two.label.0) {
        Ordering::Equal => mask_of(one.delta).cmp(&mask_of(two.delta)),
        other => other,
    }
}

/// The mask of a set: bit i for variable i. It determines the set.
pub fn mask_of(vars: VarSet) -> u32
    ensures mask { result ≡ mask vars }
    ensures set { members 32 result ≡ vars }
{
    vars.0
}
