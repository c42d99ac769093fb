//! How a frame goes out over a connection of its own.
ghost use Rattle.std.specs.Prelude.{◌≡◌, ◌<◌, ◌≤◌, ℕ, [], ◌∷◌, length, take, OnErr, OnOk};
ghost use Rattle.std.specs.Option.{option_map};
ghost use Rattle.sg_base.specs.Outside.{HasRisen, Appends};
ghost use Rattle.sg_stream.specs.Counts.{total};
ghost use Rattle.sg_stream.specs.Framed.{IsFrame, message};
ghost use Rattle.sg_stream.specs.Link.{Unread, to_come, sent_of, GavePrefix, WroteIfHeld, WrotePrefix};
ghost use Rattle.sg_stream.specs.Traffic.{after_give};

use crate::Conns;
use sg_base::{Addr, Failed};

/// Connects to an address, gives the message of a frame, and closes the connection, whether all was given or not. It takes no memory.
pub(crate) fn post<C: Conns>(conns: &mut C, to: Addr, frame: &[u8]) -> Result<(), Failed>
    requires { IsFrame frame.now }
    ensures never_falls { total (C.faults conns.old) ≤ total (C.faults conns.new) }
    ensures failed { OnErr result (HasRisen (total (C.faults conns.old)) (total (C.faults conns.new))) }
    ensures counted { C.faults conns.new ≡ record (C.faults conns.old) { connects = (C.faults conns.new).connects; gives = (C.faults conns.new).gives } }
    ensures kept_bound { C.bound conns.new ≡ C.bound conns.old }
    ensures kept { (u : Unread) → to_come u (C.held conns.new) ≡ to_come u (C.held conns.old) }
    ensures wrote { OnOk result (WroteIfHeld to (message frame.now) (C.held conns.old) (C.held conns.new)) }
    ensures prefix { OnErr result (WrotePrefix to (message frame.now) (C.held conns.old) (C.held conns.new)) }
    ensures posted { OnOk result (Appends (sent_of (C.held conns.old)) (sent_of (C.held conns.new)) ((to, frame.now) ∷ [])) }
    ensures kept_sent { OnErr result (sent_of (C.held conns.new) ≡ sent_of (C.held conns.old)) }
{
    let conn = conns.connect(to)?;
    let given = give_message(conns, conn, frame);
    conns.close(conn);
    given
}

// Gives the message of a frame to a connection.
fn give_message<C: Conns>(conns: &mut C, conn: u8, frame: &[u8]) -> Result<(), Failed>
    requires { IsFrame frame.now }
    ensures never_falls { total (C.faults conns.old) ≤ total (C.faults conns.new) }
    ensures failed { OnErr result (HasRisen (total (C.faults conns.old)) (total (C.faults conns.new))) }
    ensures counted { C.faults conns.new ≡ record (C.faults conns.old) { gives = (C.faults conns.new).gives } }
    ensures kept_bound { C.bound conns.new ≡ C.bound conns.old }
    ensures whole { OnOk result (C.held conns.new ≡ option_map (after_give conn (message frame.now)) (C.held conns.old)) }
    ensures prefix { OnErr result (GavePrefix conn (message frame.now) (C.held conns.old) (C.held conns.new)) }
{
    let len = (frame.len() as u32).to_be_bytes();
    match give_all(conns, conn, &len) {
        Ok(()) => give_all(conns, conn, frame),
        Err(failed) => Err(failed),
    }
}

// Gives a whole piece to a connection, in as many calls as it takes.
fn give_all<C: Conns>(conns: &mut C, conn: u8, bytes: &[u8]) -> Result<(), Failed>
    ensures never_falls { total (C.faults conns.old) ≤ total (C.faults conns.new) }
    ensures failed { OnErr result (HasRisen (total (C.faults conns.old)) (total (C.faults conns.new))) }
    ensures counted { C.faults conns.new ≡ record (C.faults conns.old) { gives = (C.faults conns.new).gives } }
    ensures kept_bound { C.bound conns.new ≡ C.bound conns.old }
    ensures whole { OnOk result (C.held conns.new ≡ option_map (after_give conn bytes.now) (C.held conns.old)) }
    ensures prefix { OnErr result (GavePrefix conn bytes.now (C.held conns.old) (C.held conns.new)) }
{
    let mut at = 0usize;
    while at < bytes.len() {
        at += conns.give(conn, &bytes[at..])?;
    }
    Ok(())
}
