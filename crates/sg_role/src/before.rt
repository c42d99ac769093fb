//! What a role keeps before what comes next.
ghost use Rattle.std.specs.Prelude.{◌≡◌, length, get_or, IfOk, IsTrue, None, ◌↔◌};
ghost use Rattle.std.specs.Option.{option_copied};
ghost use Rattle.sg_vis.specs.Model.{origin_of};
ghost use Rattle.sg_protocol.specs.Reachable.{IsReachableBefore};
ghost use Rattle.sg_protocol.specs.Frame.{IsCastOf};
ghost use Rattle.sg_protocol.specs.IsSchedule.{IsProgram};
ghost use Rattle.sg_protocol.specs.Representation.{nothing_kept};
ghost use Rattle.sg_protocol.specs.TextLaws.{IsVersion};
ghost use Rattle.sg_protocol.specs.Texts.{real, session_id};

use crate::kept_state::{KeptState, shared};
use sg_base::{OutOfMemory, Role, Sid, Time, Var};
use sg_cache::Ticket;
use sg_crypt::{Cast, session_id};
use sg_program::Program;
use sg_vis::Origin;
use std::alloc::Global;
use std::marker::Model;
use std::rc::Rc;

/// What a role keeps of a session that is new, or that ends with its own step. A clause sees its program and what it holds.
#[derive(Drop)]
pub struct Before<'p> {
    pub(crate) kept: Rc<KeptState<'p>>,
}

impl<'p> Model for Before<'p> {
    ghost use Rattle.sg_role.specs.Model.{RoleState};

    ghost Value = { RoleState };

    ghost use Rattle.sg_role.specs.Model.{state_of};
    ghost use Rattle.sg_role.specs.Invariant.{HoldsBefore};

    ghost view = { λ b. state_of b.kept.value };

    ghost invariant = { λ b. HoldsBefore (state_of b.kept.value) };
}

impl<'p> Before<'p> {
    /// What the program's role keeps of a new session of the cast: nothing yet.
    pub fn start(alloc: Global, program: &'p Program, cast: Cast) -> Result<Before<'p>, OutOfMemory>
        requires graph { cast.graph ≡ program.now.digest }
        requires count { length cast.names ≡ length program.now.graph.roles }
        ensures { IfOk result (λ b. b ≡ record {
          program = program.entry.now;
          held = record { sid = session_id real cast; cast = cast; role = program.entry.now.role; kept = nothing_kept program.entry.now.graph };
        }) }
    {
        let sid = session_id(&cast);
        Before::with_sid(alloc, program, cast, sid)
    }

    /// The same of a cast whose session's identifier is known.
    pub fn with_sid(
        alloc: Global,
        program: &'p Program,
        cast: Cast,
        sid: Sid,
    ) -> Result<Before<'p>, OutOfMemory>
        requires graph { cast.graph ≡ program.now.digest }
        requires count { length cast.names ≡ length program.now.graph.roles }
        requires sid { sid ≡ session_id real cast }
        ensures { IfOk result (λ b. b ≡ record {
          program = program.entry.now;
          held = record { sid = session_id real cast; cast = cast; role = program.entry.now.role; kept = nothing_kept program.entry.now.graph };
        }) }
    {
        facts(program, &cast);
        let new = KeptState::new(alloc, program, cast, sid)?;
        let kept = shared(alloc, new)?;
        Ok(Before { kept })
    }

    /// The session. It takes no memory.
    pub fn sid(&self) -> Sid
        ensures { result ≡ self.now.held.sid }
    {
        self.kept.sid
    }

    /// The program of the role. It takes no memory.
    pub fn program(&self) -> &'p Program
        ensures { result.now ≡ self.now.program }
    {
        self.kept.program
    }

    /// The role. It takes no memory.
    pub fn role(&self) -> Role
        ensures role { result ≡ self.now.held.role }
        ensures reachable { IsReachableBefore real self.now.program self.now.held }
    {
        self.kept.program.role()
    }

    /// The cast. It takes no memory.
    pub fn cast(&self) -> &Cast
        ensures cast { result.now ≡ self.now.held.cast }
        ensures counted { length self.now.held.cast.names ≡ length self.now.program.graph.roles }
    {
        self.kept.cast.get()
    }

    /// The role's own last label, or the start. It takes no memory.
    pub fn from(&self) -> Origin
        ensures { origin_of result ≡ self.now.held.kept.origin }
    {
        self.kept.from
    }

    /// The time of the role's own last step, 0 before the first. It takes no memory.
    pub fn time(&self) -> Time
        ensures { result ≡ self.now.held.kept.own_time }
    {
        self.kept.own_time
    }

    /// The current commitment of a variable, if it was written. It takes no memory.
    pub fn commitment(&self, var: Var) -> Option<&[u8; 32]>
        ensures { option_copied result ≡ get_or self.now.held.kept.commitments var None }
    {
        match self.kept.commitments.get(var.0 as usize) {
            Some(Some(commitment)) => Some(commitment),
            _ => None,
        }
    }
}

// What the types say of these.
fn facts(program: &Program, cast: &Cast)
    ensures program { IsProgram real program.now }
    ensures version { IsVersion cast.now.version }
    ensures cast { IsCastOf cast.now.version cast.now }
{
    let _ = program.role();
    let _ = cast.version();
}

/// Whether the ticket is of this session and role, and the role has sent nothing.
pub(crate) fn fits(ticket: &Ticket, before: &Before) -> bool
    ensures { IsTrue result ↔ ((ticket.now ≡ (before.now.held.sid, before.now.held.role)) × (before.now.held.kept.origin ≡ None)) }
{
    ticket.sid() == before.kept.sid
        && ticket.role() == before.kept.program.role()
        && before.kept.from == Origin::Start
}
