//! The first two texts with one digest.
ghost use Rattle.std.specs.Prelude.{◌≡◌, ℕ, List, Some, ◌++◌, map, flat_map, option_map, IfOk, MatchOption};
ghost use Rattle.sg_protocol.specs.Broken.{first_collision};
ghost use Rattle.sg_protocol.specs.Premises.{hashed};
ghost use Rattle.sg_protocol.specs.Schedule.{Schedule};
ghost use Rattle.sg_protocol.specs.Texts.{real, graph_text_of};
ghost use Rattle.sg_protocol.specs.World.{World};
ghost use Rattle.sg_certify.specs.Collisions.{Keeps};

use crate::firsts::Firsts;
use sg_base::OutOfMemory;
use sg_crypt::{Hashed, Notes};
use std::alloc::Global;

/// Two different texts with one digest.
#[derive(Clone, Copy)]
pub struct Collision<'t> {
    /// The one that was hashed first.
    pub one: &'t [u8],
    /// The other.
    pub other: &'t [u8],
}

/// The first two texts of a run that have one digest, if there are such: the two whose later text comes first, and of these the two
/// whose earlier text comes first. The texts are those before the run's steps, which are the graphs', and then those that the steps
/// noted.
pub fn first_collision<'t>(
    alloc: Global,
    texts: &'t [Hashed],
    notes: &'t [Notes],
) -> Result<Option<Collision<'t>>, OutOfMemory>
    ensures value { IfOk result (λ o. option_map (λ c. (c.one.now, c.other.now)) o ≡ first_collision real (texts.now ++ flat_map (λ n. n.hashed) notes.now)) }
    // In a run it is the definition's.
    ensures in_runs { (s : Schedule) (w : World) → map graph_text_of s.graphs ≡ texts.now → map (λ l. l.notes) w.log ≡ notes.now
        → IfOk result (λ o. option_map (λ c. (c.one.now, c.other.now)) o ≡ first_collision real (hashed s w)) }
{
    find_collision(alloc, texts, notes)
}

// The first collision of the texts and of what the steps hashed.
fn find_collision<'t>(
    alloc: Global,
    texts: &'t [Hashed],
    notes: &'t [Notes],
) -> Result<Option<Collision<'t>>, OutOfMemory>
    ensures { IfOk result (λ o. option_map (λ c. (c.one.now, c.other.now)) o ≡ first_collision real (texts.now ++ flat_map (λ n. n.hashed) notes.now)) }
{
    let mut firsts = Firsts::new(alloc);
    if let Some(collision) = add_all(&mut firsts, texts)? {
        return Ok(Some(collision));
    }
    for step in notes {
        if let Some(collision) = add_all(&mut firsts, step.hashed())? {
            return Ok(Some(collision));
        }
    }
    Ok(None)
}

// Adds texts in order, up to the first that collides with one before it.
fn add_all<'t>(
    firsts: &mut Firsts<'t>,
    texts: &'t [Hashed],
) -> Result<Option<Collision<'t>>, OutOfMemory>
    ensures { (before : List (List ℕ)) → Keeps before firsts.old → IfOk result (λ o. MatchOption o (Keeps (before ++ texts.now) firsts.new)
        (λ c. (after : List (List ℕ)) → first_collision real ((before ++ texts.now) ++ after) ≡ Some (c.one.now, c.other.now))) }
{
    for text in texts {
        if let Some(one) = firsts.add(text.as_slice(), text.digest())? {
            return Ok(Some(Collision {
                one,
                other: text.as_slice(),
            }));
        }
    }
    Ok(None)
}
