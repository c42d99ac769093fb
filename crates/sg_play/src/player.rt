//! One principal who plays a script.
ghost use Rattle.std.specs.Prelude.{◌≡◌, ◌+◌, ℕ, List, [], Some, None, IfOk, IfErr, OnOk, unwrap_or};
ghost use Rattle.std.specs.Option.{option_map_or};
ghost use Rattle.sg_base.specs.declared.address.Addr.{Addr};
ghost use Rattle.sg_text.specs.Sessions.{KnownSessions, naming, session_name};
ghost use Rattle.sg_protocol.specs.Calls.{Call, Start, Deliver};
ghost use Rattle.sg_report.specs.Lines.{graph_or_none, line_text};
ghost use Rattle.sg_report.specs.Outcome.{graph_in, outcome_of};
ghost use Rattle.sg_report.specs.Reported.{session_reported, sid_left};
ghost use Rattle.sg_play.specs.Meeting.{known_more};
ghost use Rattle.sg_play.specs.Posting.{frames_made};
ghost use Rattle.sg_play.specs.Steps.{counted};
ghost use Rattle.sg_script.specs.Script.{IsStart};

use crate::PlayFault;
use crate::ask::{ask_deliver, ask_start};
use crate::choices::Choices;
use crate::post::{OutputStep, let_go, post};
use crate::run::cast_of;
use sg_base::{Addr, Link, Name, Sealed, Seq, Sid, Sink};
use sg_keys::Keyring;
use sg_node::Node;
use sg_program::Programs;
use sg_report::{Outcome, report_line, sid_reported};
use sg_script::{ScriptChoice, ScriptStart};
use sg_text::SessionNames;
use std::alloc::Global;

/// One principal who plays a script: its node, the keys and programs that the node was made with, the choices with the uses that are
/// left, and what its lines are written by: what sessions are called, and how many steps were taken and frames sent. A count stays at the
/// greatest number that 64 bits hold.
#[derive(Drop)]
pub struct Player<'p> {
    pub(crate) alloc: Global,
    pub(crate) keys: &'p Keyring,
    pub(crate) programs: &'p Programs,
    pub(crate) node: Node<'p>,
    pub(crate) choices: Choices,
    pub(crate) names: SessionNames,
    pub(crate) steps: u64,
    pub(crate) frames: u64,
}

impl<'p> Player<'p> {
    ghost use Rattle.sg_protocol.specs.NodeStates.{RepresentsPast, new_state};
    ghost use Rattle.sg_protocol.specs.Past.{Past};
    ghost use Rattle.sg_play.specs.Around.{KeepsLink, outside_of};
    ghost use Rattle.sg_play.specs.Asking.{IsAsked};
    ghost use Rattle.sg_play.specs.Ends.{Outside, Whole};
    ghost use Rattle.sg_play.specs.Played.{Play, beginning, called, cast_of_start, step_in};
    ghost use Rattle.sg_play.specs.Representation.{ProgressedOnItsWay, HasAsked, RepresentsPlay};

    /// A player with a node that was made with these keys and programs and was not asked anything yet.
    pub fn new(
        alloc: Global,
        node: Node<'p>,
        keys: &'p Keyring,
        programs: &'p Programs,
        choices: Seq<ScriptChoice>,
    ) -> Result<Player<'p>, PlayFault>
        ensures represents { IfOk result (λ pl. (first : List (List ℕ × ℕ)) (random : List (List ℕ)) → node.entry ≡ new_state keys.entry.now programs.entry.now first
            → RepresentsPlay pl (beginning keys.entry.now programs.entry.now first choices random)) }
        ensures programs { IfOk result (λ pl. pl.programs.now ≡ programs.entry.now) }
        ensures memory { IfErr result (λ e. e ≡ PlayFault.OutOfMemory) }
    {
        let names = SessionNames::new(alloc, b's');
        match Choices::new(alloc, choices.into_vec()) {
            Ok(choices) => Ok(Player {
                alloc,
                keys,
                programs,
                node,
                choices,
                names,
                steps: 0,
                frames: 0,
            }),
            Err(_) => Err(PlayFault::OutOfMemory),
        }
    }

    /// The programs that the node was made with. It takes no memory.
    pub fn programs(&self) -> &'p Programs
        ensures { result.now ≡ self.now.programs.now }
    {
        self.programs
    }

    /// Asks the node for a start of a script that was read beside the programs, with this nonce: the outcome. It is to be given to the outside.
    pub fn ask_start(
        &mut self,
        start_of: &ScriptStart,
        nonce: [u8; 16],
    ) -> Result<Outcome<'p>, PlayFault>
        requires { IsStart self.old.programs.now start_of.now }
        ensures rest { OnOk result (self.new ≡ record self.old { node = self.new.node }) }
        ensures is_asked { (number : ℕ) (past : Past) → RepresentsPast self.old.node past
            → IfOk result (λ o. IsAsked number self.old.node self.new.node past (Start (cast_of_start self.old.programs.now start_of.now nonce)) o None) }
        ensures memory { IfErr result (λ e. e ≡ PlayFault.OutOfMemory) }
    {
        let cast = cast_of(self.programs, start_of, nonce);
        ask_start(self.alloc, &mut self.node, cast)
    }

    /// Asks the node to take a delivery: the outcome. It is to be given to the outside.
    pub fn ask_deliver(&mut self, bytes: &[u8]) -> Result<Outcome<'p>, PlayFault>
        ensures rest { OnOk result (self.new ≡ record self.old { node = self.new.node }) }
        ensures is_asked { (number : ℕ) (past : Past) → RepresentsPast self.old.node past
            → IfOk result (λ o. IsAsked number self.old.node self.new.node past (Deliver bytes.now) o None) }
        ensures memory { IfErr result (λ e. e ≡ PlayFault.OutOfMemory) }
    {
        ask_deliver(self.alloc, &mut self.node, bytes)
    }

    /// Gives the outside the outcome of a call: the frame, if one was made, and when the link has taken it the line. It fails if
    /// the link fails, if the line is not written whole, or if memory runs out.
    pub(crate) fn give<L: Link, O: Sink>(
        &mut self,
        left: Option<Sid>,
        outcome: &Outcome<'p>,
        frame: Option<(Addr, Sealed)>,
        link: &mut L,
        out: &mut O,
    ) -> Result<(), PlayFault>
        ensures kept { KeepsLink L.Link O.Sink link.old link.new out.old out.new result }
        ensures progress { (p : Play) (c : Call) (start : Outside) → HasAsked self.old p c outcome.now (frames_made frame) → left ≡ sid_left c
            → Whole start (outside_of L.Link O.Sink link.old out.old) p.steps
            → ProgressedOnItsWay start (outside_of L.Link O.Sink link.new out.new) self.new (called p c) result }
        ensures node { OnOk result (self.new.node ≡ self.old.node) }
        ensures programs { OnOk result (self.new.programs.now ≡ self.old.programs.now) }
    {
        match self.report(left, outcome) {
            Ok(line) => post(OutputStep { line, frame }, link, out),
            Err(fault) => {
                let_go(frame);
                Err(fault)
            }
        }
    }

    /// The line of the next step: of the outcome of a call, in the session that the call left, if it left one. It is to be written.
    pub fn report(&mut self, left: Option<Sid>, outcome: &Outcome<'p>) -> Result<Vec<u8>, PlayFault>
        ensures rest { OnOk result (self.new ≡ record self.old { names = self.new.names; steps = counted (self.old.steps + 1) }) }
        ensures reported { IfOk result (λ line. (p : Play) (c : Call) (made : List (Addr × List ℕ)) → HasAsked self.old p c outcome.now made → left ≡ sid_left c
            → (line.items ≡ (step_in p c).line) × RepresentsPlay self.new (called p c)) }
        ensures memory { IfErr result (λ e. e ≡ PlayFault.OutOfMemory) }
    {
        self.meet(outcome)?;
        let number = next_step(self.steps);
        let line = self.line(number, session_of(left, outcome), outcome)?;
        self.steps = number;
        Ok(line)
    }

    // Meets the session in which an outcome happened, if it did in one.
    fn meet(&mut self, outcome: &Outcome<'_>) -> Result<(), PlayFault>
        ensures rest { OnOk result (self.new ≡ record self.old { names = self.new.names }) }
        ensures names { OnOk result ((m : KnownSessions) → self.old.names ≡ naming 115 m → self.new.names ≡ naming 115 (known_more m (outcome_of outcome.now))) }
        ensures memory { IfErr result (λ e. e ≡ PlayFault.OutOfMemory) }
    {
        match sid_reported(outcome) {
            Some(sid) => match self.names.meet(self.alloc, sid) {
                Ok(()) => Ok(()),
                Err(_) => Err(PlayFault::OutOfMemory),
            },
            None => Ok(()),
        }
    }

    // The line of a step of this number, in a session.
    fn line(
        &self,
        number: u64,
        sid: Option<Sid>,
        outcome: &Outcome<'_>,
    ) -> Result<Vec<u8>, PlayFault>
        ensures text { IfOk result (λ v. (m : KnownSessions) → self.now.names ≡ naming 115 m
            → v.items ≡ line_text (option_map_or (session_name 115 m) sid []) (graph_or_none (graph_in outcome.now)) number self.now.keys.now.me (outcome_of outcome.now)) }
        ensures memory { IfErr result (λ e. e ≡ PlayFault.OutOfMemory) }
    {
        let who = self.keys.me();
        let name = self.name(sid);
        match report_line(self.alloc, number, who, bytes_of(&name), outcome) {
            Ok(line) => Ok(line),
            Err(_) => Err(PlayFault::OutOfMemory),
        }
    }

    // The name of a session, if there is one.
    fn name(&self, sid: Option<Sid>) -> Option<Name>
        ensures { (m : KnownSessions) → self.now.names ≡ naming 115 m → unwrap_or result [] ≡ option_map_or (session_name 115 m) sid [] }
    {
        match sid {
            Some(sid) => self.names.name_of(&sid),
            None => None,
        }
    }
}

// The bytes of a name, none if there is none.
fn bytes_of(name: &Option<Name>) -> &[u8]
    ensures { result.now ≡ unwrap_or name.now [] }
{
    match name {
        Some(name) => name.as_bytes(),
        None => &[],
    }
}

// The next step's number.
fn next_step(steps: u64) -> u64
    ensures { result ≡ counted (steps + 1) }
{
    steps.saturating_add(1)
}

// The session that a line names: that of the outcome's event, or the one that was left.
fn session_of(left: Option<Sid>, outcome: &Outcome<'_>) -> Option<Sid>
    ensures { result ≡ session_reported left (outcome_of outcome.now) }
{
    match outcome {
        Outcome::Abandoned => left,
        _ => sid_reported(outcome),
    }
}
