//! Files and writers of the system.
use super::memory::put_read;
use sg_base::{ByteOut, Failed, StdFiles, StdSink, write_all};
use sg_table::{Calls, Target, answers, hold, number};
use std::alloc::Global;
use std::test::Fail;
use std::{fs, str};

#[derive(Drop)]
struct System {
    rt: HostRuntime,
}

impl Calls for System {
    // A file of this name and these bytes is there meanwhile.
    fn answer(&self, alloc: Global, call: &str, args: &[Vec<u8>]) -> Option<Vec<u8>> {
        let (bytes, words) = args.split_first()?;
        fs::write(&self.rt, call, bytes).ok()?;
        let files = StdFiles::new(self.rt.clone().ok()?);
        let answer = answers(alloc, &mut OnFiles { files }, words)?;
        fs::remove_file(&self.rt, call).ok()?;
        Some(answer)
    }
}

#[derive(Drop)]
struct OnFiles {
    files: StdFiles<HostRuntime>,
}

// A call has the most bytes that are asked for, in a digit, and the name of a file.
impl Target for OnFiles {
    fn call(&mut self, alloc: Global, out: &mut ByteOut, word: &[u8]) -> Option<()> {
        let (most, name) = word.split_first_chunk::<1>()?;
        let name = str::from_utf8(name).ok()?;
        put_read(alloc, &mut self.files, out, name, number(most)?)
    }
}

#[test]
fn files_of_the_system(rt: HostRuntime) -> Result<(), &'static str> {
    let alloc = rt.alloc();
    hold(alloc, &System { rt }, &[LINES])
}

const LINES: &str = "
# A file of four bytes, read with room for so many; one that isn't there; and a file that is no folder.

four 'abcd '4four '3four '4none '4four/five 'abcd,the_file_is_too_long,none,the_file_could_not_be_read,
";

// Whether all of a text goes into a new file, and none into one that is open for reading.
fn is_written(rt: &HostRuntime, name: &str) -> Result<bool, Fail> {
    let mut made = StdSink::new(fs::create(rt, name)?);
    let is_taken = write_all(&mut made, b"abc") == Ok(());
    let is_there = fs::read(rt, name)?.as_slice() == b"abc".as_slice();
    let mut shut = StdSink::new(fs::open(rt, name)?);
    let is_refused = write_all(&mut shut, b"abc") == Err(Failed);
    Ok(is_taken && is_there && is_refused)
}

#[test]
fn writers_of_the_system(rt: HostRuntime) -> Result<(), Fail> {
    assert!(rt; is_written(&rt, "three_bytes")?);
    fs::remove_file(&rt, "three_bytes")?;
    Ok(())
}
