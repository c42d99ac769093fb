//! A link over connections.
ghost use Rattle.std.specs.Prelude.{◌≡◌, ◌≢◌, ◌⊎◌, ◌≤◌, [], ◌∷◌, List, replicate, IfOk, IfErr, IfSome, IfNone, OnErr, OnOk, Err, Some, ℕ};
ghost use Rattle.sg_stream.specs.Counts.{total};
ghost use Rattle.sg_stream.specs.Arrivals.{arrivals};
ghost use Rattle.sg_base.specs.Memory.{one_more};
ghost use Rattle.sg_base.specs.Outside.{HasRisen, Appends, TakesFirst};
ghost use Rattle.sg_stream.specs.Framed.{IsFrame, message};
ghost use Rattle.sg_stream.specs.Link.{Unread, IsIdle, pieces_of, to_come, sent_of, TakenOff, WroteIfHeld, WrotePrefix};
ghost use Rattle.sg_stream.specs.Traffic.{IfHeld};

use crate::Conns;
use crate::incoming::{Incoming, Unwhole};
use crate::sending::post;
use sg_base::{Addr, Failed, Link, LinkFault, OutOfMemory, Sealed};
use std::alloc::{AllocError, Global};
use std::marker::Model;

/// After this many pieces without a whole message no more are taken in one call.
const MOST_PIECES: u32 = 1_000_000;

// Why there is no frame.
#[derive(Clone, Copy, PartialEq, Eq)]
enum NoFrame {
    // The connections failed.
    Failed,
    // 1,000,000 pieces were taken, and no message became whole.
    TooManyPieces,
    OutOfMemory,
}

/// A link over connections, which it owns. Each frame goes out over a connection of its own, as one message. A frame that comes in is a
/// delivery from the moment on at which its message is whole, and those of one piece come in their order.
///
/// A connection with a bad length is closed. What is left of one that has ended is dropped. A piece that finds no memory is kept, and the
/// next `recv` begins with it. The count of faults is that of the connections and one of its own, which counts the calls of `recv` that took
/// 1,000,000 pieces without a whole message.
#[derive(Drop)]
pub struct StreamLink<C> {
    conns: C,
    incoming: Incoming,
    faults: u64,
}

impl<C> Model for StreamLink<C> {
    ghost use Rattle.sg_stream.specs.Link.{StreamHeld};

    ghost Value = { StreamHeld C };

    ghost view = { λ l. record { conns = l.conns; unread = l.incoming; faults = l.faults } };
}

impl<C: Conns> StreamLink<C> {
    /// A link over connections, with slots for 256 of them and a count of its own of 0. If memory runs out, the connections come back.
    pub fn new(alloc: Global, conns: C) -> Result<StreamLink<C>, (C, OutOfMemory)>
        ensures link { IfOk result (λ l. l ≡ record { conns = conns; unread = record { lefts = replicate 256 []; kept = [] }; faults = 0 }) }
        ensures back { IfErr result (λ e. e.0 ≡ conns) }
    {
        match Incoming::new(alloc) {
            Ok(incoming) => Ok(StreamLink {
                conns,
                incoming,
                faults: 0,
            }),
            Err(fault) => Err((conns, fault)),
        }
    }

    /// Its connections.
    pub fn conns(&self) -> &C
        ensures { result.now ≡ self.now.conns }
    {
        &self.conns
    }
}

impl<C: Conns> Link for StreamLink<C> {
    ghost use Rattle.std.specs.Prelude.{◌+◌};
    ghost use Rattle.sg_stream.specs.Link.{to_come, sent_of};

    ghost faults = { λ l. total (C.faults l.conns) + l.faults };

    ghost bound = { λ l. C.bound l.conns };

    ghost deliveries = { λ l. to_come l.unread (C.held l.conns) };

    ghost sent = { λ l. sent_of (C.held l.conns) };

    fn open(&mut self, at: Addr) -> Result<(), Failed>
        ensures never_falls { total (C.faults self.old.conns) ≤ total (C.faults self.new.conns) }
        ensures counted { C.faults self.new.conns ≡ record (C.faults self.old.conns) { opens = (C.faults self.new.conns).opens } }
        ensures failed { OnErr result (HasRisen (total (C.faults self.old.conns)) (total (C.faults self.new.conns))) }
        ensures waits { OnOk result (C.bound self.new.conns ≡ Some at) }
        ensures kept_bound { OnErr result (C.bound self.new.conns ≡ C.bound self.old.conns) }
        ensures held { C.held self.new.conns ≡ C.held self.old.conns }
        ensures kept { self.new.unread ≡ self.old.unread }
        ensures own { self.new.faults ≡ self.old.faults }
    {
        self.conns.open(at)
    }

    /// The next frame. It takes pieces until a message is whole, none if one is whole already, and gives `None` at the end of all. It
    /// fails if the connections fail, and if 1,000,000 pieces were taken and no message became whole.
    fn recv(&mut self, alloc: Global) -> Result<Option<Vec<u8>>, LinkFault>
        ensures never_falls { total (C.faults self.old.conns) ≤ total (C.faults self.new.conns) }
        ensures counted { C.faults self.new.conns ≡ record (C.faults self.old.conns) { takes = (C.faults self.new.conns).takes } }
        ensures kept_bound { C.bound self.new.conns ≡ C.bound self.old.conns }
        ensures own { (self.new.faults ≡ self.old.faults) ⊎ ((result ≡ Err LinkFault.Failed) × (self.new.faults ≡ one_more self.old.faults) × TakenOff 1000000 (C.held self.old.conns) (C.held self.new.conns) × IsIdle self.new.unread) }
        ensures failed { result ≡ Err LinkFault.Failed → HasRisen (total (C.faults self.old.conns)) (total (C.faults self.new.conns)) ⊎ ((self.new.faults ≡ one_more self.old.faults) × TakenOff 1000000 (C.held self.old.conns) (C.held self.new.conns) × IsIdle self.new.unread) }
        ensures frame { IfOk result (λ found. IfSome found (λ f. IsFrame f.items)) }
        ensures first { IfOk result (λ found. IfSome found (λ f. TakesFirst (to_come self.old.unread (C.held self.old.conns)) (to_come self.new.unread (C.held self.new.conns)) f.items)) }
        ensures at_end { IfOk result (λ found. IfNone found (IfHeld (C.held self.new.conns) (λ t. t.coming ≡ []))) }
        ensures idle_at_end { IfOk result (λ found. IfNone found (IsIdle self.new.unread)) }
        ensures none { IfOk result (λ found. IfNone found ((all : List (List ℕ)) → to_come self.old.unread (C.held self.old.conns) ≡ Some all → all ≡ [])) }
        ensures kept_at_end { IfOk result (λ found. IfNone found (to_come self.new.unread (C.held self.new.conns) ≡ to_come self.old.unread (C.held self.old.conns))) }
        ensures kept { OnErr result (to_come self.new.unread (C.held self.new.conns) ≡ to_come self.old.unread (C.held self.old.conns)) }
        ensures ready { arrivals (pieces_of self.old.unread) ≢ [] → C.held self.new.conns ≡ C.held self.old.conns }
        ensures kept_sent { sent_of (C.held self.new.conns) ≡ sent_of (C.held self.old.conns) }
    {
        match next_frame(alloc, &mut self.conns, &mut self.incoming) {
            Ok(Some(frame)) => Ok(Some(frame)),
            Ok(None) => Ok(None),
            Err(NoFrame::Failed) => Err(LinkFault::Failed),
            Err(NoFrame::TooManyPieces) => {
                self.faults = self.faults.saturating_add(1);
                Err(LinkFault::Failed)
            }
            Err(NoFrame::OutOfMemory) => Err(LinkFault::OutOfMemory),
        }
    }

    /// Connects to the address, writes one message, and closes the connection, after a fault too. It takes no memory.
    fn send(&mut self, to: Addr, frame: Sealed) -> Result<(), (Sealed, Failed)>
        ensures never_falls { total (C.faults self.old.conns) ≤ total (C.faults self.new.conns) }
        ensures counted { C.faults self.new.conns ≡ record (C.faults self.old.conns) { connects = (C.faults self.new.conns).connects; gives = (C.faults self.new.conns).gives } }
        ensures failed { OnErr result (HasRisen (total (C.faults self.old.conns)) (total (C.faults self.new.conns))) }
        ensures kept_bound { C.bound self.new.conns ≡ C.bound self.old.conns }
        ensures wrote { OnOk result (WroteIfHeld to (message frame.1) (C.held self.old.conns) (C.held self.new.conns)) }
        ensures prefix { OnErr result (WrotePrefix to (message frame.1) (C.held self.old.conns) (C.held self.new.conns)) }
        ensures posted { OnOk result (Appends (sent_of (C.held self.old.conns)) (sent_of (C.held self.new.conns)) ((to, frame.1) ∷ [])) }
        ensures back { IfErr result (λ e. e.0 ≡ frame) }
        ensures kept { self.new.unread ≡ self.old.unread }
        ensures same { to_come self.new.unread (C.held self.new.conns) ≡ to_come self.old.unread (C.held self.old.conns) }
        ensures own { self.new.faults ≡ self.old.faults }
        ensures kept_sent { OnErr result (sent_of (C.held self.new.conns) ≡ sent_of (C.held self.old.conns)) }
    {
        match post(&mut self.conns, to, frame.bytes()) {
            Ok(()) => {
                let _ = frame.release();
                Ok(())
            }
            Err(failed) => Err((frame, failed)),
        }
    }
}

// The next frame, or `None` at the end of all.
fn next_frame<C: Conns>(
    alloc: Global,
    conns: &mut C,
    incoming: &mut Incoming,
) -> Result<Option<Vec<u8>>, NoFrame>
    ensures never_falls { total (C.faults conns.old) ≤ total (C.faults conns.new) }
    ensures counted { C.faults conns.new ≡ record (C.faults conns.old) { takes = (C.faults conns.new).takes } }
    ensures kept_bound { C.bound conns.new ≡ C.bound conns.old }
    ensures failed { result ≡ Err NoFrame.Failed → HasRisen (total (C.faults conns.old)) (total (C.faults conns.new)) }
    ensures too_many { result ≡ Err NoFrame.TooManyPieces → TakenOff 1000000 (C.held conns.old) (C.held conns.new) × IsIdle incoming.new }
    ensures frame { IfOk result (λ found. IfSome found (λ f. IsFrame f.items)) }
    ensures first { IfOk result (λ found. IfSome found (λ f. TakesFirst (to_come incoming.old (C.held conns.old)) (to_come incoming.new (C.held conns.new)) f.items)) }
    ensures at_end { IfOk result (λ found. IfNone found (IfHeld (C.held conns.new) (λ t. t.coming ≡ []))) }
    ensures idle_at_end { IfOk result (λ found. IfNone found (IsIdle incoming.new)) }
    ensures kept_at_end { IfOk result (λ found. IfNone found (to_come incoming.new (C.held conns.new) ≡ to_come incoming.old (C.held conns.old))) }
    ensures kept { OnErr result (to_come incoming.new (C.held conns.new) ≡ to_come incoming.old (C.held conns.old)) }
    ensures ready { arrivals (pieces_of incoming.old) ≢ [] → C.held conns.new ≡ C.held conns.old }
    ensures kept_sent { sent_of (C.held conns.new) ≡ sent_of (C.held conns.old) }
{
    match whole_frame(alloc, conns, incoming) {
        Ok(None) => {}
        Ok(Some(frame)) => return Ok(Some(frame)),
        Err(_) => return Err(NoFrame::OutOfMemory),
    }
    for _ in 0..MOST_PIECES {
        match take_piece(alloc, conns, incoming) {
            Ok(Some(Some(frame))) => return Ok(Some(frame)),
            Ok(Some(None)) => {}
            Ok(None) => return Ok(None),
            Err(LinkFault::Failed) => return Err(NoFrame::Failed),
            Err(LinkFault::OutOfMemory) => return Err(NoFrame::OutOfMemory),
        }
    }
    Err(NoFrame::TooManyPieces)
}

// The next frame that is whole among what was taken, or `None`. A connection with a bad length is closed.
fn whole_frame<C: Conns>(
    alloc: Global,
    conns: &mut C,
    incoming: &mut Incoming,
) -> Result<Option<Vec<u8>>, OutOfMemory>
    ensures no_fault { C.faults conns.new ≡ C.faults conns.old }
    ensures kept_bound { C.bound conns.new ≡ C.bound conns.old }
    ensures frame { IfOk result (λ found. IfSome found (λ f. IsFrame f.items)) }
    ensures first { IfOk result (λ found. IfSome found (λ f. TakesFirst (to_come incoming.old (C.held conns.old)) (to_come incoming.new (C.held conns.new)) f.items)) }
    ensures idle { IfOk result (λ found. IfNone found (IsIdle incoming.new)) }
    ensures same { IfOk result (λ found. IfNone found (to_come incoming.new (C.held conns.new) ≡ to_come incoming.old (C.held conns.old))) }
    ensures memory { OnErr result (to_come incoming.new (C.held conns.new) ≡ to_come incoming.old (C.held conns.old)) }
    ensures none { IfOk result (λ found. IfNone found (arrivals (pieces_of incoming.old) ≡ [])) }
    ensures ready { arrivals (pieces_of incoming.old) ≢ [] → C.held conns.new ≡ C.held conns.old }
    ensures kept_sent { sent_of (C.held conns.new) ≡ sent_of (C.held conns.old) }
    ensures pieces { TakenOff 0 (C.held conns.old) (C.held conns.new) }
{
    match incoming.next(alloc) {
        Ok(found) => Ok(found),
        Err(Unwhole::BadLength { conn }) => {
            conns.close(conn);
            Ok(None)
        }
        Err(Unwhole::OutOfMemory) => Err(AllocError),
    }
}

// Takes the next piece, and then the next frame that is whole: `None` if there was no piece, and `Some(None)` if no frame is whole yet.
fn take_piece<C: Conns>(
    alloc: Global,
    conns: &mut C,
    incoming: &mut Incoming,
) -> Result<Option<Option<Vec<u8>>>, LinkFault>
    requires { IsIdle incoming.old }
    ensures never_falls { total (C.faults conns.old) ≤ total (C.faults conns.new) }
    ensures counted { C.faults conns.new ≡ record (C.faults conns.old) { takes = (C.faults conns.new).takes } }
    ensures kept_bound { C.bound conns.new ≡ C.bound conns.old }
    ensures failed { result ≡ Err LinkFault.Failed → HasRisen (total (C.faults conns.old)) (total (C.faults conns.new)) }
    ensures frame { IfOk result (λ taken. IfSome taken (λ found. IfSome found (λ f. IsFrame f.items))) }
    ensures first { IfOk result (λ taken. IfSome taken (λ found. IfSome found (λ f. TakesFirst (to_come incoming.old (C.held conns.old)) (to_come incoming.new (C.held conns.new)) f.items))) }
    ensures idle { IfOk result (λ taken. IfSome taken (λ found. IfNone found (IsIdle incoming.new))) }
    ensures pieces { IfOk result (λ taken. IfSome taken (λ found. IfNone found (TakenOff 1 (C.held conns.old) (C.held conns.new)))) }
    ensures same { IfOk result (λ taken. IfSome taken (λ found. IfNone found (to_come incoming.new (C.held conns.new) ≡ to_come incoming.old (C.held conns.old)))) }
    ensures at_end { IfOk result (λ taken. IfNone taken (IfHeld (C.held conns.new) (λ t. t.coming ≡ []))) }
    ensures kept_at_end { IfOk result (λ taken. IfNone taken ((incoming.new ≡ incoming.old) × (C.held conns.new ≡ C.held conns.old))) }
    ensures kept { OnErr result (to_come incoming.new (C.held conns.new) ≡ to_come incoming.old (C.held conns.old)) }
    ensures kept_sent { sent_of (C.held conns.new) ≡ sent_of (C.held conns.old) }
{
    match conns.take(alloc) {
        Ok(Some((conn, piece))) => {
            incoming.put(alloc, conn, piece);
            match whole_frame(alloc, conns, incoming) {
                Ok(found) => Ok(Some(found)),
                Err(_) => Err(LinkFault::OutOfMemory),
            }
        }
        Ok(None) => Ok(None),
        Err(fault) => Err(fault),
    }
}
