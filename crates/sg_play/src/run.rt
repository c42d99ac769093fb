//! A play: the starts of a script, and then deliveries.
ghost use Rattle.std.specs.Prelude.{◌≡◌, ◌≤◌, ℕ, List, [], All, Some, None, take, drop, OnOk};
ghost use Rattle.std.specs.Option.{option_map_or};
ghost use Rattle.sg_play.specs.Faults.{CountsFaults};
ghost use Rattle.sg_play.specs.Around.{KeepsLink, counts_of, outside_of};
ghost use Rattle.sg_protocol.specs.Calls.{Call, Deliver};
ghost use Rattle.sg_protocol.specs.NodeStates.{new_state};
ghost use Rattle.sg_play.specs.Ends.{Ended, Outside, Whole};
ghost use Rattle.sg_play.specs.Played.{Play, all_deliveries, all_starts, cast_of_start, played, plays_on, starts, with_turn};
ghost use Rattle.sg_play.specs.Representation.{HasAsked, KeepsJoins, Progressed, Progresses};
ghost use Rattle.sg_report.specs.Reported.{sid_left};
ghost use Rattle.sg_script.specs.Script.{IsScript, IsStart};

use crate::{PlayFault, Player};
use sg_base::{Fresh, Link, LinkFault, Sid, Sink};
use sg_crypt::Cast;
use sg_keys::Keyring;
use sg_node::Node;
use sg_program::Programs;
use sg_report::{Outcome, sid_reported};
use sg_script::{Script, ScriptStart};
use std::alloc::Global;

impl<'p> Player<'p> {
    // Makes each start of a script, and then takes at most `most` deliveries, and plays the turn that each gives.
    fn play_all<L: Link, R: Fresh, O: Sink>(
        &mut self,
        starts: &[ScriptStart],
        most: u32,
        link: &mut L,
        fresh: &mut R,
        out: &mut O,
    ) -> Result<(), PlayFault>
        requires { All (IsStart self.old.programs.now) starts.now }
        ensures link_bound { L.bound link.new ≡ L.bound link.old }
        ensures faults { CountsFaults (counts_of L.Link O.Sink link.old out.old) (counts_of L.Link O.Sink link.new out.new) result }
        ensures progress { (deliveries : List (List ℕ)) → L.deliveries link.old ≡ Some deliveries
            → Progresses (λ p. all_deliveries (all_starts p starts.now) (take most deliveries)) self.old self.new (R.random fresh.old) (R.random fresh.new)
            (outside_of L.Link O.Sink link.old out.old) (outside_of L.Link O.Sink link.new out.new) result }
        ensures left { OnOk result ((deliveries : List (List ℕ)) → L.deliveries link.old ≡ Some deliveries → L.deliveries link.new ≡ Some (drop most deliveries)) }
        ensures at_most { (deliveries : List (List ℕ)) → L.deliveries link.old ≡ Some deliveries → (n : ℕ) × (n ≤ most) × (L.deliveries link.new ≡ Some (drop n deliveries)) }
    {
        self.start_all(starts, link, fresh, out)?;
        self.take_all(most, link, fresh, out)
    }

    // Makes each start of a script in order, and plays the turn that it gives.
    fn start_all<L: Link, R: Fresh, O: Sink>(
        &mut self,
        starts: &[ScriptStart],
        link: &mut L,
        fresh: &mut R,
        out: &mut O,
    ) -> Result<(), PlayFault>
        requires { All (IsStart self.old.programs.now) starts.now }
        ensures kept { KeepsLink L.Link O.Sink link.old link.new out.old out.new result }
        ensures progress { Progresses (λ p. all_starts p starts.now) self.old self.new (R.random fresh.old) (R.random fresh.new)
            (outside_of L.Link O.Sink link.old out.old) (outside_of L.Link O.Sink link.new out.new) result }
    {
        for start in starts {
            self.start_one(start, link, fresh, out)?;
        }
        Ok(())
    }

    // Makes a start of a script, with the next sixteen random bytes as its nonce, and plays the turn that it gives.
    fn start_one<L: Link, R: Fresh, O: Sink>(
        &mut self,
        start_of: &ScriptStart,
        link: &mut L,
        fresh: &mut R,
        out: &mut O,
    ) -> Result<(), PlayFault>
        requires { IsStart self.old.programs.now start_of.now }
        ensures kept { KeepsLink L.Link O.Sink link.old link.new out.old out.new result }
        ensures progress { Progresses (λ p. starts p start_of.now) self.old self.new (R.random fresh.old) (R.random fresh.new)
            (outside_of L.Link O.Sink link.old out.old) (outside_of L.Link O.Sink link.new out.new) result }
        ensures programs { OnOk result (self.new.programs.now ≡ self.old.programs.now) }
    {
        let nonce = fresh.next();
        match self.ask_start(start_of, nonce) {
            Ok(outcome) => {
                let ended = self.go_on(&outcome, link, fresh, out);
                drop(outcome);
                ended
            }
            Err(fault) => Err(fault),
        }
    }

    // Takes at most `most` deliveries, up to the link's end, and plays the turn that each gives.
    fn take_all<L: Link, R: Fresh, O: Sink>(
        &mut self,
        most: u32,
        link: &mut L,
        fresh: &mut R,
        out: &mut O,
    ) -> Result<(), PlayFault>
        ensures link_bound { L.bound link.new ≡ L.bound link.old }
        ensures faults { CountsFaults (counts_of L.Link O.Sink link.old out.old) (counts_of L.Link O.Sink link.new out.new) result }
        ensures progress { (deliveries : List (List ℕ)) → L.deliveries link.old ≡ Some deliveries
            → Progresses (λ p. all_deliveries p (take most deliveries)) self.old self.new (R.random fresh.old) (R.random fresh.new)
            (outside_of L.Link O.Sink link.old out.old) (outside_of L.Link O.Sink link.new out.new) result }
        ensures left { OnOk result ((deliveries : List (List ℕ)) → L.deliveries link.old ≡ Some deliveries → L.deliveries link.new ≡ Some (drop most deliveries)) }
        ensures at_most { (deliveries : List (List ℕ)) → L.deliveries link.old ≡ Some deliveries → (n : ℕ) × (n ≤ most) × (L.deliveries link.new ≡ Some (drop n deliveries)) }
    {
        for _taken in 0..most {
            match link.recv(self.alloc) {
                Ok(Some(bytes)) => self.deliver(bytes.as_slice(), link, fresh, out)?,
                Ok(None) => return Ok(()),
                Err(LinkFault::Failed) => return Err(PlayFault::LinkFailed),
                Err(LinkFault::OutOfMemory) => return Err(PlayFault::OutOfMemory),
            }
        }
        Ok(())
    }

    // Takes a delivery, and plays the turn that it gives.
    fn deliver<L: Link, R: Fresh, O: Sink>(
        &mut self,
        bytes: &[u8],
        link: &mut L,
        fresh: &mut R,
        out: &mut O,
    ) -> Result<(), PlayFault>
        ensures kept { KeepsLink L.Link O.Sink link.old link.new out.old out.new result }
        ensures progress { Progresses (λ p. with_turn p (Deliver bytes.now)) self.old self.new (R.random fresh.old) (R.random fresh.new)
            (outside_of L.Link O.Sink link.old out.old) (outside_of L.Link O.Sink link.new out.new) result }
    {
        match self.ask_deliver(bytes) {
            Ok(outcome) => {
                let ended = self.go_on(&outcome, link, fresh, out);
                drop(outcome);
                ended
            }
            Err(fault) => Err(fault),
        }
    }

    /// Gives the outside the outcome of a call that makes no frame and leaves no session, and plays the turn that it gives. The node joins
    /// nothing by it. It fails if the link fails, if a line is not written whole, or if memory runs out.
    pub fn go_on<L: Link, R: Fresh, O: Sink>(
        &mut self,
        outcome: &Outcome<'p>,
        link: &mut L,
        fresh: &mut R,
        out: &mut O,
    ) -> Result<(), PlayFault>
        ensures kept { KeepsLink L.Link O.Sink link.old link.new out.old out.new result }
        ensures progress { (p : Play) (c : Call) (start : Outside) → HasAsked self.old p c outcome.now [] → None ≡ sid_left c → R.random fresh.old ≡ Some p.random
            → Whole start (outside_of L.Link O.Sink link.old out.old) p.steps
            → Progressed start (outside_of L.Link O.Sink link.new out.new) self.new (R.random fresh.new) (with_turn p c) result }
        ensures joins { OnOk result (KeepsJoins self.old.node self.new.node) }
        ensures programs { OnOk result (self.new.programs.now ≡ self.old.programs.now) }
    {
        self.give(None, outcome, None, link, out)?;
        self.play_if(sid_reported(outcome), link, fresh, out)
    }

    // Plays the turn of a session, if there is one.
    fn play_if<L: Link, R: Fresh, O: Sink>(
        &mut self,
        sid: Option<Sid>,
        link: &mut L,
        fresh: &mut R,
        out: &mut O,
    ) -> Result<(), PlayFault>
        ensures kept { KeepsLink L.Link O.Sink link.old link.new out.old out.new result }
        ensures progress { Progresses (λ p. option_map_or (λ s. plays_on s p) sid p) self.old self.new (R.random fresh.old) (R.random fresh.new)
            (outside_of L.Link O.Sink link.old out.old) (outside_of L.Link O.Sink link.new out.new) result }
        ensures joins { OnOk result (KeepsJoins self.old.node self.new.node) }
        ensures programs { OnOk result (self.new.programs.now ≡ self.old.programs.now) }
    {
        match sid {
            Some(sid) => self.play_turn(sid, link, fresh, out),
            None => Ok(()),
        }
    }
}

// The cast of a start: of the first program of its graph's name, with this nonce.
pub(crate) fn cast_of(programs: &Programs, start: &ScriptStart, nonce: [u8; 16]) -> Cast
    requires { IsStart programs.now start.now }
    ensures { result ≡ cast_of_start programs.now start.now nonce }
{
    let Some(program) = programs.by_name(&start.graph) else {
        unreachable!()
    };
    match Cast::new(
        start.version,
        *program.digest(),
        nonce,
        start.cast.as_slice(),
    ) {
        Some(cast) => cast,
        None => unreachable!(),
    }
}

/// Plays a script: makes its starts in order and plays the turn that each gives; then takes at most `most` deliveries, up to the
/// link's end, gives each to the node and plays the turn, if one came. The node was made with these keys and programs, and with any
/// joins, and was not asked anything yet; the script was read beside these programs. It ends early if the link fails, if a
/// line is not written whole, or if memory runs out.
pub fn play<'p, L: Link, R: Fresh, O: Sink>(
    alloc: Global,
    node: Node<'p>,
    keys: &'p Keyring,
    programs: &'p Programs,
    script: Script,
    most: u32,
    link: &mut L,
    fresh: &mut R,
    out: &mut O,
) -> Result<(), PlayFault>
    requires { IsScript programs.now script }
    ensures link_bound { L.bound link.new ≡ L.bound link.old }
    ensures faults { CountsFaults (record { link = L.faults link.old; out = O.faults out.old }) (record { link = L.faults link.new; out = O.faults out.new }) result }

    // If the deliveries and the random bytes to come are known: what was written and sent is what the play says, up to where it
    // ended.
    ensures played { (first : List (List ℕ × ℕ)) (deliveries random : List (List ℕ)) → node.entry ≡ new_state keys.entry.now programs.entry.now first → L.deliveries link.old ≡ Some deliveries → R.random fresh.old ≡ Some random
        → Ended (record { written = O.written out.old; sent = L.sent link.old }) (record { written = O.written out.new; sent = L.sent link.new })
        (played keys.entry.now programs.entry.now first script (take most deliveries) random).steps result }
    ensures left { OnOk result ((deliveries : List (List ℕ)) → L.deliveries link.old ≡ Some deliveries → L.deliveries link.new ≡ Some (drop most deliveries)) }
    ensures at_most { (deliveries : List (List ℕ)) → L.deliveries link.old ≡ Some deliveries → (n : ℕ) × (n ≤ most) × (L.deliveries link.new ≡ Some (drop n deliveries)) }
{
    let Script { starts, choices } = script;
    match Player::new(alloc, node, keys, programs, choices) {
        Ok(mut player) => {
            let ended = player.play_all(starts.as_slice(), most, link, fresh, out);
            drop(player);
            ended
        }
        Err(fault) => Err(fault),
    }
}
