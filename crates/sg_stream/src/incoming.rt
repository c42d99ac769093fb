//! What a link over connections took and did not give yet.
ghost use Rattle.std.specs.Prelude.{◌≡◌, ℕ, List, [], ◌∷◌, ◌++◌, replicate, length, IfOk, IfSome, IfNone, OnErr, OnOk, Err};
ghost use Rattle.sg_stream.specs.Arrivals.{arrivals};
ghost use Rattle.sg_stream.specs.Framed.{IsFrame};
ghost use Rattle.sg_stream.specs.Link.{pieces_of, IsIdle};
ghost use Rattle.sg_stream.specs.Traffic.{without};

use crate::{StreamFault, StreamReader};
use sg_base::OutOfMemory;
use std::alloc::{AllocError, Global};
use std::marker::Model;

/// Why no frame was given.
#[derive(Clone, Copy, PartialEq, Eq)]
pub(crate) enum Unwhole {
    /// A connection has a bad length, and nothing of it was kept.
    BadLength {
        /// The connection's number.
        conn: u8,
    },
    /// Out of memory.
    OutOfMemory,
}

/// What each connection has left, by its number, and a piece that found no memory. Whole messages and a bad length are there only of the
/// connection whose piece came last.
#[derive(Drop)]
pub(crate) struct Incoming {
    readers: Vec<StreamReader>,
    last: u8,
    // Of the connection whose piece came last.
    kept: Vec<u8>,
}

impl Model for Incoming {
    ghost use Rattle.std.specs.Prelude.{◌≡◌, ◌≢◌, ◌<◌, ℕ, [], length, slice_index_or};
    ghost use Rattle.sg_stream.specs.Link.{Unread, IsPart, kept_piece};

    ghost Value = { Unread };

    ghost view = { λ c. record { lefts = c.readers.items; kept = kept_piece c.last c.kept.items } };

    ghost invariant = { λ c. (length c.readers.items ≡ 256) × (c.last < 256) × ((conn : ℕ) → conn ≢ c.last → IsPart (slice_index_or c.readers.items conn [])) × (c.kept.items ≢ [] → IsPart (slice_index_or c.readers.items c.last [])) };
}

impl Incoming {
    /// Slots for 256 connections, with nothing in them.
    pub(crate) fn new(alloc: Global) -> Result<Incoming, OutOfMemory>
        ensures { IfOk result (λ c. c ≡ record { lefts = replicate 256 []; kept = [] }) }
    {
        Ok(Incoming {
            readers: empty_readers(alloc)?,
            last: 0,
            kept: Vec::new(alloc),
        })
    }

    /// Takes the next frame that is whole, or gives `None` if none is. A connection with a bad length is reported, and what it has left is
    /// dropped. If memory runs out, what was kept stays.
    pub(crate) fn next(&mut self, alloc: Global) -> Result<Option<Vec<u8>>, Unwhole>
        ensures frame { IfOk result (λ found. IfSome found (λ f. IsFrame f.items)) }
        ensures first { IfOk result (λ found. IfSome found (λ f. (ps : List (ℕ × List ℕ)) → arrivals (pieces_of self.old ++ ps) ≡ f.items ∷ arrivals (pieces_of self.new ++ ps))) }
        ensures same { IfOk result (λ found. IfNone found ((ps : List (ℕ × List ℕ)) → arrivals (pieces_of self.new ++ ps) ≡ arrivals (pieces_of self.old ++ ps))) }
        ensures idle { IfOk result (λ found. IfNone found (IsIdle self.new)) }
        ensures bad { (conn : ℕ) → result ≡ Err (Unwhole.BadLength conn) → (ps : List (ℕ × List ℕ)) → arrivals (pieces_of self.new ++ without conn ps) ≡ arrivals (pieces_of self.old ++ ps) }
        ensures idle_bad { (conn : ℕ) → result ≡ Err (Unwhole.BadLength conn) → IsIdle self.new }
        ensures memory { result ≡ Err Unwhole.OutOfMemory → (ps : List (ℕ × List ℕ)) → arrivals (pieces_of self.new ++ ps) ≡ arrivals (pieces_of self.old ++ ps) }
    {
        if self.feed_kept().is_err() {
            return Err(Unwhole::OutOfMemory);
        }
        self.next_left(alloc)
    }

    /// Takes a piece in, if nothing is left to give. An empty one ends its connection, and what that has left is dropped. It takes no
    /// memory.
    pub(crate) fn put(&mut self, alloc: Global, conn: u8, piece: Vec<u8>)
        requires { IsIdle self.old }
        ensures { (ps : List (ℕ × List ℕ)) → arrivals (pieces_of self.new ++ ps) ≡ arrivals (pieces_of self.old ++ (conn, piece.items) ∷ ps) }
    {
        if piece.as_slice().is_empty() {
            self.readers[conn as usize] = StreamReader::new(alloc);
        } else {
            self.last = conn;
            self.kept = piece;
        }
    }

    // Gives the piece that was kept to its connection's reader.
    fn feed_kept(&mut self) -> Result<(), OutOfMemory>
        ensures fed { OnOk result (self.new.kept ≡ []) }
        ensures same { (ps : List (ℕ × List ℕ)) → arrivals (pieces_of self.new ++ ps) ≡ arrivals (pieces_of self.old ++ ps) }
    {
        let piece = self.kept.as_slice();
        if piece.is_empty() {
            return Ok(());
        }
        match self.readers[self.last as usize].feed(piece) {
            Ok(()) => {
                self.kept.clear();
                Ok(())
            }
            Err(_) => Err(AllocError),
        }
    }

    // Takes the next frame of the connection whose piece came last.
    fn next_left(&mut self, alloc: Global) -> Result<Option<Vec<u8>>, Unwhole>
        requires { self.old.kept ≡ [] }
        ensures frame { IfOk result (λ found. IfSome found (λ f. IsFrame f.items)) }
        ensures first { IfOk result (λ found. IfSome found (λ f. (ps : List (ℕ × List ℕ)) → arrivals (pieces_of self.old ++ ps) ≡ f.items ∷ arrivals (pieces_of self.new ++ ps))) }
        ensures kept { IfOk result (λ found. IfNone found (self.new ≡ self.old)) }
        ensures idle { IfOk result (λ found. IfNone found (IsIdle self.new)) }
        ensures bad { (conn : ℕ) → result ≡ Err (Unwhole.BadLength conn) → (ps : List (ℕ × List ℕ)) → arrivals (pieces_of self.new ++ without conn ps) ≡ arrivals (pieces_of self.old ++ ps) }
        ensures idle_bad { (conn : ℕ) → result ≡ Err (Unwhole.BadLength conn) → IsIdle self.new }
        ensures memory { result ≡ Err Unwhole.OutOfMemory → self.new ≡ self.old }
    {
        match self.readers[self.last as usize].next(alloc) {
            Ok(Some(frame)) => Ok(Some(frame)),
            Ok(None) => Ok(None),
            Err(StreamFault::BadLength { len: _ }) => {
                self.readers[self.last as usize] = StreamReader::new(alloc);
                Err(Unwhole::BadLength { conn: self.last })
            }
            Err(StreamFault::OutOfMemory) => Err(Unwhole::OutOfMemory),
        }
    }
}

// A reader for each number that a connection may have.
fn empty_readers(alloc: Global) -> Result<Vec<StreamReader>, OutOfMemory>
    ensures { IfOk result (λ readers. readers.items ≡ replicate 256 []) }
{
    let mut readers = Vec::with_capacity(alloc, 256)?;
    for _ in 0..256u32 {
        readers.push(StreamReader::new(alloc))?;
    }
    Ok(readers)
}
