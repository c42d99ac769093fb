//! Names with commas between them.
ghost use Rattle.std.specs.List.{slice_split};
ghost use Rattle.std.specs.Option.{option_map_or};
ghost use Rattle.std.specs.Prelude.{◌≡◌, ◌<◌, ◌==◌, length, IfOk, IfSome, option_copied, [], ◌∷◌};
ghost use Rattle.sg_sched.specs.Words.{names};

use crate::text::index_of;
use sg_base::{Name, OutOfMemory};
use sg_parse::NameSet;
use std::alloc::Global;

/// Different names with commas between them.
#[tactic(auto, unfolding(crate::specs::Words::names))]
pub(crate) fn read_names(alloc: Global, word: &[u8]) -> Result<Option<NameSet>, OutOfMemory>
    ensures { IfOk result (λ o. o ≡ names word.now) }
{
    let mut found = NameSet::new(alloc);
    let mut left = word;
    'parts: loop {
        let (part, rest) = split_part(left);
        let Some(name) = Name::new(part) else {
            return Ok(None);
        };
        if found.has(&name) {
            return Ok(None);
        }
        found.add(name)?;
        match rest {
            Some(rest) => left = rest,
            None => return Ok(Some(found)),
        }
    }
}

/// The part before the first comma, and what follows the comma if there is one.
pub(crate) fn split_part(text: &[u8]) -> (&[u8], Option<&[u8]>)
    ensures parts { slice_split (λ b. b == 44) text.now
        ≡ result.0.now ∷ option_map_or (slice_split (λ b. b == 44)) (option_copied result.1) [] }
    ensures shorter { IfSome result.1 (λ rest. length rest.now < length text.now) }
{
    let at = index_of(b',', text);
    let (part, rest) = text.split_at(at);
    match rest {
        [_, rest @ ..] => (part, Some(rest)),
        [] => (part, None),
    }
}
