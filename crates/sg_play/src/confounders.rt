//! Confounders of values, drawn one after the other.
ghost use Rattle.std.specs.Prelude.{◌≡◌, ℕ, List, Some, length, drop, IfOk, OnOk};
ghost use Rattle.sg_play.specs.Played.{next_confounders};

use sg_base::{Fresh, OutOfMemory};
use std::alloc::Global;

/// The next `count` confounders.
pub fn draw<R: Fresh>(
    alloc: Global,
    fresh: &mut R,
    count: usize,
) -> Result<Vec<[u8; 16]>, OutOfMemory>
    ensures confounders { IfOk result (λ w. (all : List (List ℕ)) → R.random fresh.old ≡ Some all → w.items ≡ next_confounders count all) }
    ensures count { IfOk result (λ w. length w.items ≡ count) }
    ensures left { OnOk result ((all : List (List ℕ)) → R.random fresh.old ≡ Some all → R.random fresh.new ≡ Some (drop count all)) }
{
    let mut confounders = Vec::new(alloc);
    for _at in 0..count {
        confounders.push(fresh.next())?;
    }
    Ok(confounders)
}
