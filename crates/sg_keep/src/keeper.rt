//! One principal who plays a script and keeps its joins.
ghost use Rattle.std.specs.Prelude.{◌≡◌, ◌⊎◌, List, ℕ, Some, length, IfErr, IfOk, OnErr, OnOk};
ghost use Rattle.sg_ledger.specs.Disk.{LeavesOnly};
ghost use Rattle.sg_ledger.specs.Format.{Represents};
ghost use Rattle.sg_play.specs.Ends.{Outside, Whole};
ghost use Rattle.sg_play.specs.Faults.{CountsFaultAlone};
ghost use Rattle.sg_play.specs.Played.{Play, beginning, with_turn};
ghost use Rattle.sg_protocol.specs.Calls.{Call};
ghost use Rattle.sg_keep.specs.KeptRuns.{LeavesAtMost, RepresentsMore};

use crate::KeepFault;
use sg_base::{Fresh, Link, Seq, Sink};
use sg_joins::{JoinFault, add_join};
use sg_keys::Keyring;
use sg_ledger::{Disk, Ledger};
use sg_node::Node;
use sg_play::{PlayFault, Player};
use sg_program::Programs;
use sg_report::Outcome;
use sg_script::ScriptChoice;
use std::alloc::Global;

/// One principal who plays a script, and the ledger of its joins.
#[derive(Drop)]
pub(crate) struct Keeper<'p> {
    pub(crate) alloc: Global,
    pub(crate) player: Player<'p>,
    pub(crate) ledger: Ledger,
}

impl<'p> Keeper<'p> {
    ghost use Rattle.sg_keep.specs.Around.{KeepsBound};
    ghost use Rattle.sg_keep.specs.Representation.{Progressed, HasAskedNode, HasMore, HoldsJoins, IsAsked, RepresentsKept};

    /// A keeper of these keys and programs, whose node joined before what the ledger has and was not asked anything yet.
    pub(crate) fn new(
        alloc: Global,
        keys_of_node: Keyring,
        keys: &'p Keyring,
        programs: &'p Programs,
        choices: Seq<ScriptChoice>,
        ledger: Ledger,
    ) -> Result<Keeper<'p>, PlayFault>
        requires { keys_of_node ≡ keys.now }
        ensures represents { IfOk result (λ k. (random : List (List ℕ)) → RepresentsKept k (beginning keys.entry.now programs.entry.now ledger.joins choices random)) }
        ensures programs { IfOk result (λ k. k.player.programs.now ≡ programs.entry.now) }
        ensures ledger { IfOk result (λ k. k.ledger ≡ ledger) }
        ensures memory { IfErr result (λ e. e ≡ PlayFault.OutOfMemory) }
    {
        match Node::with_joins(alloc, keys_of_node, programs, ledger.joins()) {
            Ok(node) => match Player::new(alloc, node, keys, programs, choices) {
                Ok(player) => Ok(Keeper {
                    alloc,
                    player,
                    ledger,
                }),
                Err(fault) => {
                    drop(ledger);
                    Err(fault)
                }
            },
            Err(_) => {
                drop(choices);
                drop(ledger);
                Err(PlayFault::OutOfMemory)
            }
        }
    }

    /// Keeps the join of the outcome of a call, if it is one; gives the outside the outcome when the join is kept; and plays the turn that
    /// it gives.
    pub(crate) fn report<L: Link, R: Fresh, O: Sink, D: Disk>(
        &mut self,
        outcome: &Outcome<'p>,
        link: &mut L,
        fresh: &mut R,
        out: &mut O,
        disk: &mut D,
    ) -> Result<(), KeepFault>
        requires asked { HasAskedNode self.old (D.may_leave disk.old) outcome.now }
        ensures kept { KeepsBound L.Link O.Sink D.Disk link.old link.new out.old out.new disk.old disk.new result }
        ensures holds { OnOk result (HoldsJoins self.new (D.may_leave disk.new)) }
        ensures more { OnOk result (HasMore self.old.ledger.joins self.new.ledger.joins) }
        ensures programs { OnOk result (self.new.player.programs.now ≡ self.old.player.programs.now) }
        ensures any_moment { LeavesOnly D.moment D.left_since disk.old disk.new (RepresentsMore self.old.ledger.joins) }
        ensures leaves_at_most { (p : Play) (c : Call) → IsAsked self.old p c outcome.now → LeavesAtMost D.moment D.left_since disk.old disk.new (with_turn p c) (length p.past.calls) }
        ensures progress { (p : Play) (c : Call) (start : Outside) → IsAsked self.old p c outcome.now → R.random fresh.old ≡ Some p.random
            → Whole start (record { written = O.written out.old; sent = L.sent link.old }) p.steps
            → Progressed start (record { written = O.written out.new; sent = L.sent link.new }) (D.may_leave disk.new) self.new (R.random fresh.new) (with_turn p c) result }
    {
        match self.keep_join(outcome, disk) {
            Ok(()) => {}
            Err(fault) => return Err(fault),
        }
        match self.player.go_on(outcome, link, fresh, out) {
            Ok(()) => Ok(()),
            Err(fault) => Err(KeepFault::Played(fault)),
        }
    }

    // Adds the join of the outcome of a call to the ledger, if it is one. The ledger has all joins of the node from before the call, so it
    // doesn't have this one, and it isn't full.
    fn keep_join<D: Disk>(&mut self, outcome: &Outcome<'p>, disk: &mut D) -> Result<(), KeepFault>
        requires asked { HasAskedNode self.old (D.may_leave disk.old) outcome.now }
        ensures disk_bound { D.bound disk.new ≡ D.bound disk.old }
        ensures faults { CountsFaultAlone KeepFault.DiskFailed (D.faults disk.old) (D.faults disk.new) result }
        ensures causes { IfErr result (λ e. (e ≡ KeepFault.DiskFailed) ⊎ (e ≡ KeepFault.Played PlayFault.OutOfMemory)) }
        ensures player { self.new.player ≡ self.old.player }
        ensures holds { OnOk result (HoldsJoins self.new (D.may_leave disk.new)) }
        ensures more { OnOk result (HasMore self.old.ledger.joins self.new.ledger.joins) }
        ensures images { OnErr result ((image : List ℕ) → D.may_leave disk.new image
            → Represents image self.old.ledger.joins ⊎ Represents image self.old.player.node.joins) }
        ensures any_moment { LeavesOnly D.moment D.left_since disk.old disk.new (RepresentsMore self.old.ledger.joins) }
        ensures leaves_at_most { (p : Play) (c : Call) → IsAsked self.old p c outcome.now → LeavesAtMost D.moment D.left_since disk.old disk.new (with_turn p c) (length p.past.calls) }
    {
        match add_join(&mut self.ledger, outcome, disk) {
            Ok(()) => Ok(()),
            Err(JoinFault::DiskFailed) => Err(KeepFault::DiskFailed),
            Err(JoinFault::OutOfMemory) => Err(KeepFault::Played(PlayFault::OutOfMemory)),
        }
    }
}
