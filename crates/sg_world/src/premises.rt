//! The two assumptions of a replay's run, tried on its record.
ghost use Rattle.std.specs.Prelude.{◌≡◌, ◌≤◌, ◌↔◌, [], length, Ok, None, IfOk, IfErr, IfSome, IsOk, IsTrue, OnOk, option_map};
ghost use Rattle.sg_model.specs.Limits.{most_steps};
ghost use Rattle.sg_protocol.specs.Broken.{first_forged, first_collision};
ghost use Rattle.sg_protocol.specs.Premises.{hashed, Unforged, CollisionFree};
ghost use Rattle.sg_protocol.specs.Texts.{real};
ghost use Rattle.sg_world.specs.PremiseFaults.{IsCollisionAs, IsCollisionFault, IsForgedAs, IsForgedFault};
ghost use Rattle.sg_setting.specs.Replay.{run_of};

use crate::World;
use crate::nodes::index_of;
use indexmap::IndexMap;
use sg_base::{Name, OutOfMemory, Seq};
use sg_certify::{Collision, Forged, Honest, first_collision, first_forged};
use sg_node::Node;
use std::alloc::Global;
use thiserror::Error;

/// Why the first assumption doesn't hold.
#[derive(Debug, Drop, Error)]
pub enum ForgedFault {
    /// A text was found right under the key of two honest principals, and neither had tagged it in an earlier step. It is the first
    /// such text, in the order in which they were found.
    #[error("a tag that nobody made, found right in step {step}")]
    Forged {
        /// The step's number, from 1.
        step: u32,
        /// The principal of the lesser name.
        one: Name,
        /// The other.
        two: Name,
        /// The text.
        text: Seq<u8>,
    },
    /// Out of memory.
    #[error("out of memory")]
    OutOfMemory,
}

/// Why the second assumption doesn't hold.
#[derive(Debug, Drop, Error)]
pub enum CollisionFault {
    /// Two different texts have one digest. Of all such pairs it is the one whose later text comes first, and of these the one
    /// whose earlier text comes first.
    #[error("two texts with one digest")]
    Collision {
        /// The text that was hashed first.
        one: Seq<u8>,
        /// The other.
        other: Seq<u8>,
    },
    /// Out of memory.
    #[error("out of memory")]
    OutOfMemory,
}

/// The honest principals of a replay, which are those with a node.
#[derive(Drop)]
pub(crate) struct Principals<'n, 'p> {
    pub nodes: &'n IndexMap<Name, Node<'p>>,
}

impl<'n, 'p> Honest for Principals<'n, 'p> {
    ghost use Rattle.std.specs.Prelude.{map};

    ghost names = { λ p. map (λ n. n.0) p.nodes.now.entries };

    fn is_honest(&self, name: &Name) -> bool {
        index_of(self.nodes, name).is_some()
    }
}

impl<'p> World<'p> {
    /// Whether no tag of two honest principals was forged so far: each text that was found right under a key of theirs had been tagged
    /// in an earlier step. The fault names the first that had not. Before the first step it takes no memory.
    pub fn unforged(&self) -> Result<(), ForgedFault>
        ensures holds { OnOk result (Unforged self.now.schedule (run_of self.now)) }
        ensures forged { IfErr result (IsForgedFault self.now) }
        ensures before_steps { self.now.schedule.steps ≡ [] → IsOk result }
    {
        let Ok(found) = self.forged() else {
            return Err(ForgedFault::OutOfMemory);
        };
        match found {
            None => Ok(()),
            Some(forged) => Err(forged_fault(self.alloc, &forged)),
        }
    }

    /// Whether no two different texts that were hashed so far, those of the graphs first, have one digest. The fault names the first two that
    /// have. Before the first step it takes no memory, if there is one graph or none.
    pub fn collision_free(&self) -> Result<(), CollisionFault>
        ensures holds { OnOk result (CollisionFree real (hashed self.now.schedule (run_of self.now))) }
        ensures collision { IfErr result (IsCollisionFault self.now) }
        ensures before_steps { self.now.schedule.steps ≡ [] → length self.now.schedule.graphs ≤ 1 → IsOk result }
    {
        let Ok(found) = self.collision() else {
            return Err(CollisionFault::OutOfMemory);
        };
        match found {
            None => Ok(()),
            Some(collision) => Err(collision_fault(self.alloc, &collision)),
        }
    }

    // The first forged text.
    pub(crate) fn forged(&self) -> Result<Option<Forged<'_>>, OutOfMemory>
        ensures found { IfOk result (λ o. option_map (λ f. (f.step, f.note.now)) o ≡ first_forged self.now.schedule (run_of self.now)) }
        ensures step { IfOk result (λ o. IfSome o (λ f. f.step ≤ most_steps)) }
        ensures before_steps { self.now.schedule.steps ≡ [] → result ≡ Ok None }
    {
        if self.has_no_steps() {
            return Ok(None);
        }
        let honest = Principals { nodes: &self.nodes };
        first_forged(self.alloc, &honest, self.history.notes())
    }

    // The first two texts with one digest.
    pub(crate) fn collision(&self) -> Result<Option<Collision<'_>>, OutOfMemory>
        ensures found { IfOk result (λ o. option_map (λ c. (c.one.now, c.other.now)) o ≡ first_collision real (hashed self.now.schedule (run_of self.now))) }
        ensures before_steps { self.now.schedule.steps ≡ [] → length self.now.schedule.graphs ≤ 1 → result ≡ Ok None }
    {
        if self.has_one_text() {
            return Ok(None);
        }
        first_collision(self.alloc, self.setting.texts(), self.history.notes())
    }

    // No step was taken so far.
    pub(crate) fn has_no_steps(&self) -> bool
        ensures { IsTrue result ↔ (length self.now.schedule.steps ≡ 0) }
    {
        self.len() == 0
    }

    // One text was hashed so far, that of the one graph, or none.
    fn has_one_text(&self) -> bool
        ensures { IsTrue result ↔ ((length self.now.schedule.steps ≡ 0) × (length self.now.schedule.graphs ≤ 1)) }
    {
        self.len() == 0 && self.setting.graphs().len() <= 1
    }
}

// The forged text as a fault, with a copy of the text.
fn forged_fault(alloc: Global, forged: &Forged<'_>) -> ForgedFault
    requires { forged.now.step ≤ most_steps }
    ensures { IsForgedAs (forged.now.step, forged.now.note.now) result }
{
    match forged.note.text().to_vec(alloc) {
        Ok(text) => ForgedFault::Forged {
            step: forged.step as u32,
            one: *forged.note.one(),
            two: *forged.note.two(),
            text: Seq::from_vec(text),
        },
        Err(_) => ForgedFault::OutOfMemory,
    }
}

// The texts that collide as a fault, with copies of them.
fn collision_fault(alloc: Global, collision: &Collision<'_>) -> CollisionFault
    ensures { IsCollisionAs (collision.now.one.now, collision.now.other.now) result }
{
    match copies(alloc, collision) {
        Ok((one, other)) => CollisionFault::Collision { one, other },
        Err(_) => CollisionFault::OutOfMemory,
    }
}

// Copies of the two texts.
fn copies(alloc: Global, collision: &Collision<'_>) -> Result<(Seq<u8>, Seq<u8>), OutOfMemory>
    ensures { IfOk result (λ t. t ≡ (collision.now.one.now, collision.now.other.now)) }
{
    let one = collision.one.to_vec(alloc)?;
    let other = collision.other.to_vec(alloc)?;
    Ok((Seq::from_vec(one), Seq::from_vec(other)))
}
