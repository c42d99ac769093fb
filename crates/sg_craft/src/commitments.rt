//! Commitments of a crafted frame.
ghost use Rattle.std.specs.Prelude.{◌≡◌, None, length, replicate, IfOk};
ghost use Rattle.sg_protocol.specs.Crafted.{committed_to};
ghost use Rattle.sg_protocol.specs.Texts.{real};
ghost use Rattle.sg_craft.specs.Making.{with_first_pairs};

use sg_base::{Opening, OutOfMemory, Seq, Sid, Var};
use sg_crypt::commit;
use std::alloc::Global;

/// No commitment, for each of `count` variables.
pub fn none_yet(alloc: Global, count: u8) -> Result<Vec<Option<[u8; 32]>>, OutOfMemory>
    ensures { IfOk result (λ c. c.items ≡ replicate count None) }
{
    let mut current = Vec::new(alloc);
    for _ in 0..count {
        current.push(None)?;
    }
    Ok(current)
}

/// The commitments of openings.
pub fn committed_to(
    alloc: Global,
    sid: &Sid,
    openings: &[Opening],
) -> Result<Seq<(Var, [u8; 32])>, OutOfMemory>
    ensures { IfOk result (λ d. d ≡ committed_to real sid.now openings.now) }
{
    let mut delta = Seq::new(alloc);
    for opening in openings {
        delta.push((opening.var, commit(sid, opening)))?;
    }
    Ok(delta)
}

/// Puts the commitments in. Of two commitments of one variable, the first counts. A variable that has no slot is left out.
pub fn overwrite(current: &mut [Option<[u8; 32]>], delta: &[(Var, [u8; 32])])
    ensures { current.new ≡ with_first_pairs current.old delta.now }
{
    for done in 0..delta.len() {
        let (var, commitment) = delta[delta.len() - 1 - done];
        if (var.0 as usize) < current.len() {
            current[var.0 as usize] = Some(commitment);
        }
    }
}
