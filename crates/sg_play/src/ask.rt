//! What the node is asked, and the outcome.
ghost use Rattle.std.specs.Prelude.{◌≡◌, ◌+◌, ℕ, length, None, IfOk, IfErr};
ghost use Rattle.sg_protocol.specs.Calls.{Start, Act, Abandon, Deliver};
ghost use Rattle.sg_protocol.specs.NodeStates.{RepresentsPast};
ghost use Rattle.sg_protocol.specs.Past.{Past};
ghost use Rattle.sg_walk.specs.Model.{values_of};
ghost use Rattle.sg_play.specs.Asking.{IsAsked, IsAskedWithFrames, addressed};
ghost use Rattle.sg_play.specs.Posting.{frames_made};
ghost use Rattle.sg_play.specs.Steps.{counted};

use crate::PlayFault;
use crate::facts::facts_of_cast;
use sg_base::{Addr, Label, Sealed, Sid, Value, Var, facts_of_bytes};
use sg_crypt::{Cast, Notes};
use sg_keys::Keyring;
use sg_node::Node;
use sg_report::Outcome;
use sg_role::facts_of_values;
use std::alloc::Global;

/// Starts a session.
pub(crate) fn ask_start<'p>(
    alloc: Global,
    node: &mut Node<'p>,
    cast: Cast,
) -> Result<Outcome<'p>, PlayFault>
    ensures is_asked { (number : ℕ) (past : Past) → RepresentsPast node.old past → IfOk result (λ o. IsAsked number node.old node.new past (Start cast) o None) }
    ensures memory { IfErr result (λ e. e ≡ PlayFault.OutOfMemory) }
{
    facts_of_cast(&cast);
    let mut notes = Notes::new(alloc);
    match node.begin(cast, &mut notes) {
        Ok(answer) => Ok(Outcome::of_start(answer)),
        Err(_) => Err(PlayFault::OutOfMemory),
    }
}

/// Takes a delivery.
pub(crate) fn ask_deliver<'p>(
    alloc: Global,
    node: &mut Node<'p>,
    bytes: &[u8],
) -> Result<Outcome<'p>, PlayFault>
    ensures is_asked { (number : ℕ) (past : Past) → RepresentsPast node.old past → IfOk result (λ o. IsAsked number node.old node.new past (Deliver bytes.now) o None) }
    ensures memory { IfErr result (λ e. e ≡ PlayFault.OutOfMemory) }
{
    facts_of_bytes(bytes);
    let mut notes = Notes::new(alloc);
    match node.receive(bytes, &mut notes) {
        Ok(answer) => Ok(Outcome::of_delivery(answer)),
        Err(_) => Err(PlayFault::OutOfMemory),
    }
}

/// Leaves a session.
pub(crate) fn ask_abandon<'p>(node: &mut Node<'p>, sid: Sid) -> Outcome<'p>
    ensures { (number : ℕ) (past : Past) → RepresentsPast node.old past → IsAsked number node.old node.new past (Abandon sid) result None }
{
    match node.abandon(sid) {
        Ok(()) => Outcome::Abandoned,
        Err(_) => Outcome::NotAbandoned,
    }
}

/// Acts in a session. The frame that is made has the next number and the address that the keyring has for its receiver, and is counted.
pub(crate) fn ask_act<'p>(
    alloc: Global,
    node: &mut Node<'p>,
    keys: &Keyring,
    frames: &mut u64,
    sid: Sid,
    label: Label,
    values: &[(Var, Value)],
    confounders: &[[u8; 16]],
) -> Result<(Outcome<'p>, Option<(Addr, Sealed)>), PlayFault>
    requires { length confounders.now ≡ length values.now }
    ensures is_asked { (past : Past) → RepresentsPast node.old past
        → IfOk result (λ r. IsAskedWithFrames keys.now frames.old frames.new node.old node.new past (Act sid label (values_of values.now) confounders.now) r.0 r.1) }
    ensures memory { IfErr result (λ e. e ≡ PlayFault.OutOfMemory) }
{
    let count = *frames;
    let number = next_frame(count);
    match ask_numbered(alloc, node, sid, label, values, confounders, number) {
        Ok((outcome, sealed)) => {
            let frame = addressed(keys, sealed);
            *frames = with_made(count, &frame);
            Ok((outcome, frame))
        }
        Err(fault) => Err(fault),
    }
}

// The next frame's number.
fn next_frame(frames: u64) -> u64
    ensures { result ≡ counted (frames + 1) }
{
    frames.saturating_add(1)
}

// The count of frames with the one that was made, if one was.
fn with_made(frames: u64, made: &Option<(Addr, Sealed)>) -> u64
    ensures { result ≡ counted (frames + length (frames_made made.now)) }
{
    match made {
        Some(_) => next_frame(frames),
        None => frames,
    }
}

// A made frame for the address that the keyring has for its receiver.
fn addressed(keys: &Keyring, sealed: Option<Sealed>) -> Option<(Addr, Sealed)>
    ensures { result ≡ addressed keys.now sealed }
{
    let Some(sealed) = sealed else {
        return None;
    };
    match keys.addr(&sealed.to()) {
        Some(at) => Some((at, sealed)),
        None => {
            let _ = sealed.release();
            None
        }
    }
}

// Acts in a session. The frame that is made is to have this number.
fn ask_numbered<'p>(
    alloc: Global,
    node: &mut Node<'p>,
    sid: Sid,
    label: Label,
    values: &[(Var, Value)],
    confounders: &[[u8; 16]],
    number: u64,
) -> Result<(Outcome<'p>, Option<Sealed>), PlayFault>
    requires { length confounders.now ≡ length values.now }
    ensures is_asked { (past : Past) → RepresentsPast node.old past
        → IfOk result (λ r. IsAsked number node.old node.new past (Act sid label (values_of values.now) confounders.now) r.0 r.1) }
    ensures memory { IfErr result (λ e. e ≡ PlayFault.OutOfMemory) }
{
    facts_of_values(values, confounders);
    let mut notes = Notes::new(alloc);
    match node.send(sid, label, values, confounders, &mut notes) {
        Ok(Ok((sent, sealed))) => {
            let to = sealed.to();
            let outcome = Outcome::Sent {
                sent,
                to,
                frame: number,
            };
            Ok((outcome, Some(sealed)))
        }
        Ok(Err(refusal)) => Ok((Outcome::NotActed(refusal), None)),
        Err(_) => Err(PlayFault::OutOfMemory),
    }
}
