//! A run: all lines of the input.
ghost use Rattle.std.specs.Prelude.{◌≡◌, ◌≤◌, ◌≢◌, List, ℕ, false, Err, Some, IfSome, IsNone, OnOk, is_some};
ghost use Rattle.std.specs.Option.{option_copied};
ghost use Rattle.sg_base.specs.Outside.{HasRisen};
ghost use Rattle.sg_input.specs.Lines.{Line, lines_left, lines_of};
ghost use Rattle.sg_joins.specs.Images.{AllRepresent};
ghost use Rattle.sg_protocol.specs.NodeStates.{new_state};
ghost use Rattle.sg_serve.specs.Faults.{CountsFaults};
ghost use Rattle.sg_serve.specs.Lines.{Run};
ghost use Rattle.sg_serve.specs.Served.{Agrees, Outside, Served, images_if, joins_kept, opening};
ghost use Rattle.sg_serve.specs.Representation.{Answered, HoldsJoins, RepresentsServing, found_line, line_read};
ghost use Rattle.sg_wait.specs.declared.coming.Coming.{Coming};

use crate::ServeFault;
use crate::server::Server;
use sg_base::{Fresh, Sink};
use sg_input::{Input, InputFault, LineFound, LineReader};
use sg_keys::Keyring;
use sg_ledger::{Disk, Ledger};
use sg_node::Node;
use sg_program::Programs;
use sg_wait::TimedLink;
use std::alloc::Global;

impl<'p> Server<'p> {
    // Answers each line of an input of which nothing was read yet, in order, up to that which asks for the end or the end of the input, and no
    // more than `u64::MAX` lines.
    fn serve_input<I: Input, L: TimedLink, R: Fresh, O: Sink, D: Disk>(
        &mut self,
        input: &mut I,
        link: &mut L,
        fresh: &mut R,
        out: &mut O,
        disk: &mut D,
    ) -> Result<(), ServeFault>
        requires holds { HoldsJoins self.old (D.may_leave disk.old) }
        ensures link_bound { L.bound link.new ≡ L.bound link.old }
        ensures disk_bound { D.bound disk.new ≡ D.bound disk.old }
        ensures faults { CountsFaults (record { link = L.faults link.old; out = O.faults out.old; disk = D.faults disk.old })
            (record { link = L.faults link.new; out = O.faults out.new; disk = D.faults disk.new }) result }
        ensures untouched { IsNone self.old.ledger → disk.new ≡ disk.old }
        ensures input_falls { I.faults input.old ≤ I.faults input.new }
        ensures input_failed { result ≡ Err ServeFault.InputFailed → HasRisen (I.faults input.old) (I.faults input.new) }
        ensures served { (r : Run) (bytes : List ℕ) → RepresentsServing self.old r.serving → I.coming input.old ≡ Some bytes
            → Agrees (record { written = O.written out.old; sent = L.sent link.old; coming = L.coming link.old; failed = L.faults link.old })
            (record { written = O.written out.old; sent = L.sent link.old; coming = L.coming link.old; failed = L.faults link.old }) (R.random fresh.old) r
            → Served (record { written = O.written out.old; sent = L.sent link.old; coming = L.coming link.old; failed = L.faults link.old })
            (record { written = O.written out.new; sent = L.sent link.new; coming = L.coming link.new; failed = L.faults link.new }) (R.random fresh.new)
            (images_if (is_some self.old.ledger) (D.may_leave disk.new)) r (lines_of bytes) result }
    {
        let Ok(mut reader) = LineReader::new(self.alloc) else {
            return Err(ServeFault::OutOfMemory);
        };
        self.serve_all(&mut reader, input, link, fresh, out, disk)
    }

    // Answers each line that a reader finds, in order, up to that which asks for the end or the end of the input, and no more than
    // `u64::MAX` lines.
    fn serve_all<I: Input, L: TimedLink, R: Fresh, O: Sink, D: Disk>(
        &mut self,
        reader: &mut LineReader,
        input: &mut I,
        link: &mut L,
        fresh: &mut R,
        out: &mut O,
        disk: &mut D,
    ) -> Result<(), ServeFault>
        requires holds { HoldsJoins self.old (D.may_leave disk.old) }
        ensures link_bound { L.bound link.new ≡ L.bound link.old }
        ensures disk_bound { D.bound disk.new ≡ D.bound disk.old }
        ensures faults { CountsFaults (record { link = L.faults link.old; out = O.faults out.old; disk = D.faults disk.old })
            (record { link = L.faults link.new; out = O.faults out.new; disk = D.faults disk.new }) result }
        ensures untouched { IsNone self.old.ledger → disk.new ≡ disk.old }
        ensures input_falls { I.faults input.old ≤ I.faults input.new }
        ensures input_failed { result ≡ Err ServeFault.InputFailed → HasRisen (I.faults input.old) (I.faults input.new) }
        ensures served { (r : Run) (lines : List Line) → RepresentsServing self.old r.serving → lines_left reader.old.unread (I.coming input.old) ≡ Some lines
            → Agrees (record { written = O.written out.old; sent = L.sent link.old; coming = L.coming link.old; failed = L.faults link.old })
            (record { written = O.written out.old; sent = L.sent link.old; coming = L.coming link.old; failed = L.faults link.old }) (R.random fresh.old) r
            → Served (record { written = O.written out.old; sent = L.sent link.old; coming = L.coming link.old; failed = L.faults link.old })
            (record { written = O.written out.new; sent = L.sent link.new; coming = L.coming link.new; failed = L.faults link.new }) (R.random fresh.new)
            (images_if (is_some self.old.ledger) (D.may_leave disk.new)) r lines result }
    {
        for _line in 0..u64::MAX {
            let found = match reader.next(input) {
                Ok(Some(found)) => found,
                Ok(None) => return Ok(()),
                Err(InputFault::Failed) => return Err(ServeFault::InputFailed),
                Err(InputFault::OutOfMemory) => return Err(ServeFault::OutOfMemory),
            };
            match self.serve_line(line_found(reader, found), link, fresh, out, disk) {
                Ok(true) => {}
                Ok(false) => return Ok(()),
                Err(fault) => return Err(fault),
            }
        }
        Ok(())
    }

    // Answers a line, given without its line feed, or as nothing if it is too long, and says whether it is another than one that asks for
    // the end.
    fn serve_line<L: TimedLink, R: Fresh, O: Sink, D: Disk>(
        &mut self,
        line: Option<&[u8]>,
        link: &mut L,
        fresh: &mut R,
        out: &mut O,
        disk: &mut D,
    ) -> Result<bool, ServeFault>
        requires holds { HoldsJoins self.old (D.may_leave disk.old) }
        ensures link_bound { L.bound link.new ≡ L.bound link.old }
        ensures disk_bound { D.bound disk.new ≡ D.bound disk.old }
        ensures faults { CountsFaults (record { link = L.faults link.old; out = O.faults out.old; disk = D.faults disk.old })
            (record { link = L.faults link.new; out = O.faults out.new; disk = D.faults disk.new }) result }
        ensures untouched { IsNone self.old.ledger → disk.new ≡ disk.old }
        ensures causes { result ≢ Err ServeFault.InputFailed }
        ensures same { OnOk result (is_some self.new.ledger ≡ is_some self.old.ledger) }
        ensures holds { OnOk result (HoldsJoins self.new (D.may_leave disk.new)) }
        ensures answered { (r : Run) (start : Outside) → RepresentsServing self.old r.serving
            → Agrees start (record { written = O.written out.old; sent = L.sent link.old; coming = L.coming link.old; failed = L.faults link.old }) (R.random fresh.old) r
            → Answered start (record { written = O.written out.new; sent = L.sent link.new; coming = L.coming link.new; failed = L.faults link.new }) (R.random fresh.new)
            (images_if (is_some self.old.ledger) (D.may_leave disk.new)) self.new r (found_line (option_copied line.entry)) result }
    {
        match self.answer(line, link, fresh, disk) {
            Ok(Some(reply)) => match reply.give(link, out) {
                Ok(()) => Ok(true),
                Err(fault) => Err(fault),
            },
            Ok(None) => Ok(false),
            Err(fault) => Err(fault),
        }
    }
}

// The line that a reader has found, if it isn't too long.
fn line_found(reader: &LineReader, found: LineFound) -> Option<&[u8]>
    ensures { found_line (option_copied result) ≡ line_read found reader.now.line }
{
    match found {
        LineFound::Line => Some(reader.line()),
        LineFound::TooLong => None,
    }
}

/// Serves an application over a link: answers each line of its input in order, each before it reads the next one, up to the line that asks
/// for the end or the end of the input, and 18,446,744,073,709,551,615 lines at most. The node was made with these keys and programs, and
/// with the joins of the ledger, if there is one, which was opened from this disk; it was not asked anything yet. Each pair that it joins
/// is added to the ledger before anything of it is written or sent. It ends early if the input fails, an answer is not written whole, the
/// disk fails or memory runs out; a link that fails is an answer.
pub fn serve<'p, I: Input, L: TimedLink, R: Fresh, O: Sink, D: Disk>(
    alloc: Global,
    node: Node<'p>,
    keys: &'p Keyring,
    programs: &'p Programs,
    ledger: Option<Ledger>,
    input: &mut I,
    link: &mut L,
    fresh: &mut R,
    out: &mut O,
    disk: &mut D,
) -> Result<(), ServeFault>
    requires node { node ≡ new_state keys.now programs.now (joins_kept ledger) }
    requires working { IfSome ledger (λ l. l.failed ≡ false) }
    requires represents { AllRepresent (images_if (is_some ledger) (D.may_leave disk.old)) (joins_kept ledger) }
    ensures link_bound { L.bound link.new ≡ L.bound link.old }
    ensures disk_bound { D.bound disk.new ≡ D.bound disk.old }
    ensures faults { CountsFaults (record { link = L.faults link.old; out = O.faults out.old; disk = D.faults disk.old })
        (record { link = L.faults link.new; out = O.faults out.new; disk = D.faults disk.new }) result }
    ensures input_falls { I.faults input.old ≤ I.faults input.new }
    ensures input_failed { result ≡ Err ServeFault.InputFailed → HasRisen (I.faults input.old) (I.faults input.new) }

    // Without a ledger nothing is asked of the disk.
    ensures untouched { IsNone ledger → disk.new ≡ disk.old }

    // If it is known what is to come of the input, the link and the source: what was written and sent is what the lines of the input come to, up to
    // where it ended, and what a crash leaves of the disk is the ledger with the joins of their calls.
    ensures served { (bytes : List ℕ) (coming : List Coming) (random : List (List ℕ)) → I.coming input.old ≡ Some bytes → L.coming link.old ≡ Some coming → R.random fresh.old ≡ Some random
        → Served (record { written = O.written out.old; sent = L.sent link.old; coming = L.coming link.old; failed = L.faults link.old })
        (record { written = O.written out.new; sent = L.sent link.new; coming = L.coming link.new; failed = L.faults link.new }) (R.random fresh.new)
        (images_if (is_some ledger) (D.may_leave disk.new)) (opening keys.entry.now programs.entry.now (joins_kept ledger) coming random) (lines_of bytes) result }
{
    match Server::new(alloc, node, keys, programs, ledger) {
        Ok(mut server) => {
            let came = server.serve_input(input, link, fresh, out, disk);
            drop(server);
            came
        }
        Err(fault) => Err(fault),
    }
}
