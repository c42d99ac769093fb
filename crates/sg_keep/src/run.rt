//! A play over a ledger: the starts of a script, and then deliveries.
ghost use Rattle.std.specs.Prelude.{◌≡◌, ◌≤◌, ℕ, List, All, Some, take, drop, length, OnOk, false};
ghost use Rattle.sg_ledger.specs.Disk.{LeavesOnly};
ghost use Rattle.sg_play.specs.Ends.{Outside, Whole};
ghost use Rattle.sg_play.specs.Played.{Play, all_deliveries, all_starts, played, starts, with_turn};
ghost use Rattle.sg_protocol.specs.Calls.{Deliver};
ghost use Rattle.sg_script.specs.Script.{IsScript, IsStart};
ghost use Rattle.sg_keep.specs.Around.{KeepsBound};
ghost use Rattle.sg_keep.specs.Faults.{CountsFaults};
ghost use Rattle.sg_joins.specs.Images.{AllRepresent};
ghost use Rattle.sg_keep.specs.KeptRuns.{HasKept, KeptThroughout, LeavesAtMost, RepresentsMore};
ghost use Rattle.sg_keep.specs.Representation.{Progressed, HasMore, HoldsJoins, KeptFrom, RepresentsKept};

use crate::KeepFault;
use crate::keeper::Keeper;
use sg_base::{Fresh, Link, LinkFault, Sink};
use sg_keys::Keyring;
use sg_ledger::{Disk, Ledger};
use sg_play::PlayFault;
use sg_program::Programs;
use sg_script::{Script, ScriptStart};
use std::alloc::Global;

impl<'p> Keeper<'p> {
    /// Makes each start of a script in order, and then takes at most `most` deliveries, up to the link's end. It plays the turn that each gives.
    fn play<L: Link, R: Fresh, O: Sink, D: Disk>(
        &mut self,
        starts: &[ScriptStart],
        most: u32,
        link: &mut L,
        fresh: &mut R,
        out: &mut O,
        disk: &mut D,
    ) -> Result<(), KeepFault>
        requires holds { HoldsJoins self.old (D.may_leave disk.old) }
        requires starts { All (IsStart self.old.player.programs.now) starts.now }
        ensures link_bound { L.bound link.new ≡ L.bound link.old }
        ensures disk_bound { D.bound disk.new ≡ D.bound disk.old }
        ensures faults { CountsFaults (record { link = L.faults link.old; out = O.faults out.old; disk = D.faults disk.old })
            (record { link = L.faults link.new; out = O.faults out.new; disk = D.faults disk.new }) result }
        ensures any_moment { LeavesOnly D.moment D.left_since disk.old disk.new (RepresentsMore self.old.ledger.joins) }
        ensures kept { (p : Play) (start : Outside) (deliveries : List (List ℕ)) → L.deliveries link.old ≡ Some deliveries → RepresentsKept self.old p → R.random fresh.old ≡ Some p.random
            → Whole start (record { written = O.written out.old; sent = L.sent link.old }) p.steps
            → HasKept start (record { written = O.written out.new; sent = L.sent link.new }) (D.may_leave disk.new) (all_deliveries (all_starts p starts.now) (take most deliveries)) result }
        ensures throughout { (p : Play) (start : Outside) (deliveries : List (List ℕ)) → L.deliveries link.old ≡ Some deliveries → RepresentsKept self.old p → R.random fresh.old ≡ Some p.random
            → Whole start (record { written = O.written out.old; sent = L.sent link.old }) p.steps
            → KeptThroughout D.moment D.left_since disk.old disk.new start.written (O.written out.new) (all_deliveries (all_starts p starts.now) (take most deliveries)) }
        ensures left { OnOk result ((deliveries : List (List ℕ)) → L.deliveries link.old ≡ Some deliveries → L.deliveries link.new ≡ Some (drop most deliveries)) }
        ensures at_most { (deliveries : List (List ℕ)) → L.deliveries link.old ≡ Some deliveries → (n : ℕ) × (n ≤ most) × (L.deliveries link.new ≡ Some (drop n deliveries)) }
    {
        match self.start_all(starts, link, fresh, out, disk) {
            Ok(()) => self.take_all(most, link, fresh, out, disk),
            Err(fault) => Err(fault),
        }
    }

    // Makes each start of a script in order, and plays the turn that it gives.
    fn start_all<L: Link, R: Fresh, O: Sink, D: Disk>(
        &mut self,
        starts: &[ScriptStart],
        link: &mut L,
        fresh: &mut R,
        out: &mut O,
        disk: &mut D,
    ) -> Result<(), KeepFault>
        requires holds { HoldsJoins self.old (D.may_leave disk.old) }
        requires starts { All (IsStart self.old.player.programs.now) starts.now }
        ensures kept { KeepsBound L.Link O.Sink D.Disk link.old link.new out.old out.new disk.old disk.new result }
        ensures holds { OnOk result (HoldsJoins self.new (D.may_leave disk.new)) }
        ensures more { OnOk result (HasMore self.old.ledger.joins self.new.ledger.joins) }
        ensures any_moment { LeavesOnly D.moment D.left_since disk.old disk.new (RepresentsMore self.old.ledger.joins) }
        ensures throughout { (p : Play) (start : Outside) → RepresentsKept self.old p → R.random fresh.old ≡ Some p.random
            → Whole start (record { written = O.written out.old; sent = L.sent link.old }) p.steps
            → KeptFrom D.moment D.left_since disk.old disk.new start.written (O.written out.new) p (all_starts p starts.now) }
        ensures progress { (p : Play) (start : Outside) → RepresentsKept self.old p → R.random fresh.old ≡ Some p.random
            → Whole start (record { written = O.written out.old; sent = L.sent link.old }) p.steps
            → Progressed start (record { written = O.written out.new; sent = L.sent link.new }) (D.may_leave disk.new) self.new (R.random fresh.new) (all_starts p starts.now) result }
    {
        for start in starts {
            match self.start_one(start, link, fresh, out, disk) {
                Ok(()) => {}
                Err(fault) => return Err(fault),
            }
        }
        Ok(())
    }

    // Makes a start of a script, with the next sixteen random bytes as its nonce, and plays the turn that it gives.
    fn start_one<L: Link, R: Fresh, O: Sink, D: Disk>(
        &mut self,
        start_of: &ScriptStart,
        link: &mut L,
        fresh: &mut R,
        out: &mut O,
        disk: &mut D,
    ) -> Result<(), KeepFault>
        requires holds { HoldsJoins self.old (D.may_leave disk.old) }
        requires start { IsStart self.old.player.programs.now start_of.now }
        ensures kept { KeepsBound L.Link O.Sink D.Disk link.old link.new out.old out.new disk.old disk.new result }
        ensures programs { OnOk result (self.new.player.programs.now ≡ self.old.player.programs.now) }
        ensures holds { OnOk result (HoldsJoins self.new (D.may_leave disk.new)) }
        ensures more { OnOk result (HasMore self.old.ledger.joins self.new.ledger.joins) }
        ensures any_moment { LeavesOnly D.moment D.left_since disk.old disk.new (RepresentsMore self.old.ledger.joins) }
        ensures leaves_at_most { (p : Play) → RepresentsKept self.old p → R.random fresh.old ≡ Some p.random
            → LeavesAtMost D.moment D.left_since disk.old disk.new (starts p start_of.now) (length p.past.calls) }
        ensures progress { (p : Play) (start : Outside) → RepresentsKept self.old p → R.random fresh.old ≡ Some p.random
            → Whole start (record { written = O.written out.old; sent = L.sent link.old }) p.steps
            → Progressed start (record { written = O.written out.new; sent = L.sent link.new }) (D.may_leave disk.new) self.new (R.random fresh.new) (starts p start_of.now) result }
    {
        let nonce = fresh.next();
        match self.player.ask_start(start_of, nonce) {
            Ok(outcome) => {
                let came = self.report(&outcome, link, fresh, out, disk);
                drop(outcome);
                came
            }
            Err(fault) => Err(KeepFault::Played(fault)),
        }
    }

    // Takes at most `most` deliveries, up to the link's end, and plays the turn that each gives.
    fn take_all<L: Link, R: Fresh, O: Sink, D: Disk>(
        &mut self,
        most: u32,
        link: &mut L,
        fresh: &mut R,
        out: &mut O,
        disk: &mut D,
    ) -> Result<(), KeepFault>
        requires holds { HoldsJoins self.old (D.may_leave disk.old) }
        ensures link_bound { L.bound link.new ≡ L.bound link.old }
        ensures disk_bound { D.bound disk.new ≡ D.bound disk.old }
        ensures faults { CountsFaults (record { link = L.faults link.old; out = O.faults out.old; disk = D.faults disk.old })
            (record { link = L.faults link.new; out = O.faults out.new; disk = D.faults disk.new }) result }
        ensures progress { (p : Play) (start : Outside) (deliveries : List (List ℕ)) → L.deliveries link.old ≡ Some deliveries → RepresentsKept self.old p → R.random fresh.old ≡ Some p.random
            → Whole start (record { written = O.written out.old; sent = L.sent link.old }) p.steps
            → Progressed start (record { written = O.written out.new; sent = L.sent link.new }) (D.may_leave disk.new) self.new (R.random fresh.new) (all_deliveries p (take most deliveries)) result }
        ensures left { OnOk result ((deliveries : List (List ℕ)) → L.deliveries link.old ≡ Some deliveries → L.deliveries link.new ≡ Some (drop most deliveries)) }
        ensures at_most { (deliveries : List (List ℕ)) → L.deliveries link.old ≡ Some deliveries → (n : ℕ) × (n ≤ most) × (L.deliveries link.new ≡ Some (drop n deliveries)) }
        ensures holds { OnOk result (HoldsJoins self.new (D.may_leave disk.new)) }
        ensures any_moment { LeavesOnly D.moment D.left_since disk.old disk.new (RepresentsMore self.old.ledger.joins) }
        ensures throughout { (p : Play) (start : Outside) (deliveries : List (List ℕ)) → L.deliveries link.old ≡ Some deliveries
            → RepresentsKept self.old p → R.random fresh.old ≡ Some p.random
            → Whole start (record { written = O.written out.old; sent = L.sent link.old }) p.steps
            → KeptFrom D.moment D.left_since disk.old disk.new start.written (O.written out.new) p (all_deliveries p (take most deliveries)) }
    {
        for _taken in 0..most {
            match link.recv(self.alloc) {
                Ok(Some(bytes)) => match self.deliver(bytes.as_slice(), link, fresh, out, disk) {
                    Ok(()) => {}
                    Err(fault) => return Err(fault),
                },
                Ok(None) => return Ok(()),
                Err(LinkFault::Failed) => return Err(KeepFault::Played(PlayFault::LinkFailed)),
                Err(LinkFault::OutOfMemory) => {
                    return Err(KeepFault::Played(PlayFault::OutOfMemory));
                }
            }
        }
        Ok(())
    }

    // Takes a delivery, and plays the turn that it gives.
    fn deliver<L: Link, R: Fresh, O: Sink, D: Disk>(
        &mut self,
        bytes: &[u8],
        link: &mut L,
        fresh: &mut R,
        out: &mut O,
        disk: &mut D,
    ) -> Result<(), KeepFault>
        requires holds { HoldsJoins self.old (D.may_leave disk.old) }
        ensures kept { KeepsBound L.Link O.Sink D.Disk link.old link.new out.old out.new disk.old disk.new result }
        ensures holds { OnOk result (HoldsJoins self.new (D.may_leave disk.new)) }
        ensures more { OnOk result (HasMore self.old.ledger.joins self.new.ledger.joins) }
        ensures any_moment { LeavesOnly D.moment D.left_since disk.old disk.new (RepresentsMore self.old.ledger.joins) }
        ensures leaves_at_most { (p : Play) → RepresentsKept self.old p
            → LeavesAtMost D.moment D.left_since disk.old disk.new (with_turn p (Deliver bytes.now)) (length p.past.calls) }
        ensures progress { (p : Play) (start : Outside) → RepresentsKept self.old p → R.random fresh.old ≡ Some p.random
            → Whole start (record { written = O.written out.old; sent = L.sent link.old }) p.steps
            → Progressed start (record { written = O.written out.new; sent = L.sent link.new }) (D.may_leave disk.new) self.new (R.random fresh.new) (with_turn p (Deliver bytes.now)) result }
    {
        match self.player.ask_deliver(bytes) {
            Ok(outcome) => {
                let came = self.report(&outcome, link, fresh, out, disk);
                drop(outcome);
                came
            }
            Err(fault) => Err(KeepFault::Played(fault)),
        }
    }
}

/// Plays a script over a ledger that was opened from this disk: makes its starts in order and plays the turn that each gives; then takes at
/// most `most` deliveries, up to the link's end, gives each to the node and plays the turn, if one came. The node joined before what the
/// ledger has. Each pair that it joins is added to the ledger before anything of it is written or sent. The keys are given twice, since the node takes
/// one keyring, and the other has the addresses that frames go to; the script was read beside these programs. It ends early if a play
/// does, or if the disk fails.
pub fn keep<'p, L: Link, R: Fresh, O: Sink, D: Disk>(
    alloc: Global,
    keys_of_node: Keyring,
    keys: &'p Keyring,
    programs: &'p Programs,
    script: Script,
    ledger: Ledger,
    most: u32,
    link: &mut L,
    fresh: &mut R,
    out: &mut O,
    disk: &mut D,
) -> Result<(), KeepFault>
    requires keys { keys_of_node ≡ keys.now }
    requires working { ledger.failed ≡ false }
    requires represents { AllRepresent (D.may_leave disk.old) ledger.joins }
    requires script { IsScript programs.now script }
    ensures link_bound { L.bound link.new ≡ L.bound link.old }
    ensures disk_bound { D.bound disk.new ≡ D.bound disk.old }
    ensures faults { CountsFaults (record { link = L.faults link.old; out = O.faults out.old; disk = D.faults disk.old })
        (record { link = L.faults link.new; out = O.faults out.new; disk = D.faults disk.new }) result }

    // At each moment of the call a crash leaves a file that represents the joins of the ledger, and then others.
    ensures any_moment { LeavesOnly D.moment D.left_since disk.old disk.new (RepresentsMore ledger.joins) }

    // If the deliveries and the random bytes to come are known: what was written and sent is what the play says, up to where it ended,
    // and what a crash leaves of the disk is the ledger with the joins of the play up to there, and so with the session and the sender of
    // each frame that was sent.
    ensures kept { (deliveries random : List (List ℕ)) → L.deliveries link.old ≡ Some deliveries → R.random fresh.old ≡ Some random
        → HasKept (record { written = O.written out.old; sent = L.sent link.old }) (record { written = O.written out.new; sent = L.sent link.new }) (D.may_leave disk.new)
        (played keys.now programs.now ledger.joins script (take most deliveries) random) result }

    // And at each moment of the call a crash leaves the ledger with the joins of a prefix of the play: at most one join more than was reported by
    // the lines that were written.
    ensures throughout { (deliveries random : List (List ℕ)) → L.deliveries link.old ≡ Some deliveries → R.random fresh.old ≡ Some random
        → KeptThroughout D.moment D.left_since disk.old disk.new (O.written out.old) (O.written out.new)
        (played keys.now programs.now ledger.joins script (take most deliveries) random) }
    ensures left { OnOk result ((deliveries : List (List ℕ)) → L.deliveries link.old ≡ Some deliveries → L.deliveries link.new ≡ Some (drop most deliveries)) }
    ensures at_most { (deliveries : List (List ℕ)) → L.deliveries link.old ≡ Some deliveries → (n : ℕ) × (n ≤ most) × (L.deliveries link.new ≡ Some (drop n deliveries)) }
{
    let Script { starts, choices } = script;
    match Keeper::new(alloc, keys_of_node, keys, programs, choices, ledger) {
        Ok(mut keeper) => {
            let came = keeper.play(starts.as_slice(), most, link, fresh, out, disk);
            drop(keeper);
            drop(starts);
            came
        }
        Err(fault) => {
            drop(starts);
            Err(KeepFault::Played(fault))
        }
    }
}
