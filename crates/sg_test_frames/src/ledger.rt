//! Ledgers: what a crash leaves, slots, and a file of the system.
use sg_base::{ByteOut, Failed, OutOfMemory, Role, Sid};
use sg_ledger::{AddJoinFault, Disk, FileDisk, Ledger, MemDisk, OpenFault};
use sg_table::{Args, Calls, Target, answers, fixed, hold, number, text};
use std::alloc::Global;
use std::fs;
use std::test::Fail;

const JOIN: (Sid, Role) = (Sid([7; 32]), Role(1));

struct Ledgers;

impl Calls for Ledgers {
    fn answer(&self, alloc: Global, call: &str, words: &[Vec<u8>]) -> Option<Vec<u8>> {
        if call == "adds" {
            return adds(alloc, words);
        }
        let mut args = Args::new(words);
        let answer = match call {
            "crash" => crashed(alloc, args.number(), args.word()),
            _ => opened(alloc, args.word()),
        };
        args.gives(answer)
    }
}

// Opens a ledger that has these slots.
fn opened(alloc: Global, slots: &[u8]) -> Option<Vec<u8>> {
    count_of(alloc, Ledger::open(alloc, &mut disk_with(alloc, slots)?))
}

// Adds joins to so many.
fn adds(alloc: Global, words: &[Vec<u8>]) -> Option<Vec<u8>> {
    let (count, joins) = words.split_first()?;
    let mut slots = ByteOut::new(alloc);
    put_many(&mut slots, number(count)?).ok()?;
    let disk = disk_with(alloc, &slots.done())?;
    answers(alloc, &mut Joins { disk }, joins)
}

// Opens a ledger and adds the join of a session.
fn added<D: Disk>(alloc: Global, disk: &mut D, sid: Sid) -> Option<Result<(), AddJoinFault>> {
    let mut ledger = Ledger::open(alloc, disk).ok()?;
    Some(ledger.add(disk, sid, JOIN.1))
}

// Makes a ledger, opens it and adds a join.
fn made<D: Disk>(alloc: Global, disk: &mut D) -> Option<Result<(), AddJoinFault>> {
    Ledger::create(alloc, disk).ok()?;
    added(alloc, disk, JOIN.0)
}

// How many joins a ledger has, or why it isn't opened.
fn count_of(alloc: Global, ledger: Result<Ledger, OpenFault>) -> Option<Vec<u8>> {
    match ledger {
        Ok(ledger) => text(alloc, &ledger.joins().len()),
        Err(fault) => text(alloc, &fault),
    }
}

// The same after a crash that comes after so many calls of a disk within `add`, and leaves these bytes of what was written. There is no other
// join than the one that was added.
fn crashed(alloc: Global, calls: u32, picks: &[u8]) -> Option<Vec<u8>> {
    let stop = Some(calls.saturating_add(6));
    let mut disk = MemDisk::new(alloc, 2_300_000, 20, Vec::new(alloc), stop).ok()?;
    let _ = made(alloc, &mut disk)?;
    let ledger = Ledger::open(alloc, &mut disk.crash(picks));
    if let Ok(ledger) = &ledger {
        if !ledger.joins().iter().all(|join| *join == JOIN) {
            return None;
        }
    }
    count_of(alloc, ledger)
}

// A disk whose file has the head and the length of a ledger, and these slots first.
fn disk_with(alloc: Global, slots: &[u8]) -> Option<MemDisk> {
    let mut file = Vec::new(alloc);
    file.extend_from_slice(b"SGLEDG01").ok()?;
    file.extend_from_slice(slots).ok()?;
    file.resize(2_228_232, 0).ok()?;
    let mut disk = MemDisk::new(alloc, 2_300_000, 20, Vec::new(alloc), None).ok()?;
    disk.write(0, &file).ok()?;
    Some(disk)
}

// Puts so many slots, of sessions that begin with their number.
fn put_many(out: &mut ByteOut, count: u32) -> Result<(), OutOfMemory> {
    for number in 0..count {
        out.u8(1)?;
        out.u32(number)?;
        out.bytes(&[0; 28])?;
        out.u8(1)?;
    }
    Ok(())
}

// A disk with a ledger, to which joins are added.
#[derive(Drop)]
struct Joins {
    disk: MemDisk,
}

// A call opens the ledger and adds the join of a session.
impl Target for Joins {
    fn call(&mut self, alloc: Global, out: &mut ByteOut, word: &[u8]) -> Option<()> {
        match added(alloc, &mut self.disk, Sid(fixed(word)?))? {
            Ok(()) => out.bytes(b"added,").ok(),
            Err(fault) => write!(out, "{fault},").ok(),
        }
    }
}

#[test]
fn a_crash_within_add(rt: HostRuntime) -> Result<(), &'static str> {
    hold(rt.alloc(), &Ledgers, &[CRASHES])
}

const CRASHES: &str = "
# How many joins a ledger has after a crash within the first `add`, after so many of its calls of the disk, if these bytes are left of what was
# written. The write of the pair may leave any bytes behind the gate.

crash '1 ' '0
crash '1 33*01 '0
crash '2 33*01 '0

# The write of the gate may leave any byte for it.

crash '3 00 '0
crash '3 02 '0
crash '3 01 '1
crash '4 00 '1
";

#[test]
fn slots_that_no_ledger_has_and_the_last_one(rt: HostRuntime) -> Result<(), &'static str> {
    hold(rt.alloc(), &Ledgers, &[SLOTS])
}

const SLOTS: &str = "
# How many joins a ledger has that begins with two slots: gate, session and role, each.

let SEVEN 0007+30*00
let EIGHT 0008+30*00
slots 01+$SEVEN+0f+01+$SEVEN+0e '2
slots 01+$SEVEN+0f+01+$EIGHT+0f '2
slots 01+$SEVEN+0f+02+$SEVEN+10 '1
slots 01+$SEVEN+10+01+$EIGHT+0f 'slot_0
slots 01+$SEVEN+0f+01+$EIGHT+10 'slot_1
slots 01+$SEVEN+0f+01+$SEVEN+0f 'slot_1
slots 02+$SEVEN+0f+01+$EIGHT+0f 'slot_1

# The last place is taken, and then no other join has one. There are 65,535 of sessions that are numbers.

adds '65535 32*00 32*07 32*07 32*00 32*08 'joined_already,added,joined_already,joined_already,the_ledger_is_full,
";

// Makes a ledger in the file "book", and returns whether a disk fails before it is opened, the ledger is made, and a second disk doesn't get
// the file while the first one has it.
fn is_made_for_one(rt: &HostRuntime) -> Result<bool, Fail> {
    let mut disk = FileDisk::new(rt.clone()?);
    let fails = disk.size() == Err(Failed);
    disk.open("book")?;
    let is_made = made(rt.alloc(), &mut disk) == Some(Ok(()));
    let mut second = FileDisk::new(rt.clone()?);
    let waits = second.open("./book") == Err(Failed);
    Ok(fails && is_made && waits)
}

#[test]
fn a_ledger_in_a_file(rt: HostRuntime) -> Result<(), Fail> {
    assert!(rt; is_made_for_one(&rt)?);
    let mut again = FileDisk::new(rt.clone()?);
    again.open("./book")?;
    let ledger = Ledger::open(rt.alloc(), &mut again)?;
    assert!(rt; ledger.joins() == [JOIN].as_slice());
    fs::remove_file(&rt, "book")?;
    Ok(())
}
