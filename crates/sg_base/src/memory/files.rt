//! Files in memory.
ghost use Rattle.std.specs.Prelude.{◌≡◌, ◌↔◌, ◌<◌, ◌≤◌, if◌then◌else◌, map, string_bytes, length, IfOk, IfSome, IfNone, IsSomeAnd, IsTrue, None, Some};
ghost use Rattle.sg_model.specs.Lists.{all_differ};
ghost use Rattle.std.specs.Option.{option_map};
ghost use Rattle.sg_base.specs.Outside.{as_path, file_at};
ghost use Rattle.sg_base.specs.Memory.{new_plan, fails_next, counted, failed};

use super::plan::FaultPlan;
use crate::last_path::LastPath;
use crate::{FileFault, Files, OutOfMemory};
use std::alloc::Global;
use std::marker::Model;

/// Files in memory, of names that differ. Its calls are counted from 1, and those of a given list fail.
#[derive(Drop)]
pub struct MemFiles {
    files: Vec<(String, Vec<u8>)>,
    plan: FaultPlan,
    last: LastPath,
}

impl Model for MemFiles {
    ghost use Rattle.std.specs.Prelude.{map, string_bytes};
    ghost use Rattle.sg_base.specs.Memory.{FilesHeld};

    ghost Value = { FilesHeld };

    ghost view = { λ f. record { files = map (λ p. (string_bytes p.0, p.1.items)) f.files.items; plan = f.plan; last = f.last } };
}

impl MemFiles {
    /// The files of a list, each its name and its bytes, with the numbers of the calls that are to fail.
    pub fn new(files: Vec<(String, Vec<u8>)>, fails: Vec<u32>) -> MemFiles
        requires { IsTrue (all_differ (map (λ f. string_bytes f.0) files.items)) }
        ensures { result ≡ record { files = map (λ f. (string_bytes f.0, f.1.items)) files.items; plan = new_plan fails.items; last = None } }
    {
        MemFiles {
            files,
            plan: FaultPlan::new(fails),
            last: LastPath::new(),
        }
    }
}

impl Files for MemFiles {
    ghost use Rattle.std.specs.Prelude.{Some};

    ghost faults = { λ f. record { count = f.plan.faults; last = f.last } };

    ghost held = { λ f. Some f.files };

    /// It fails at the calls that are to fail.
    fn read(&mut self, alloc: Global, name: &str, max: u32) -> Result<Option<Vec<u8>>, FileFault>
        ensures cause { IsTrue (fails_next self.old.plan) ↔ (result ≡ Err FileFault.Failed) }
        ensures whole { IfOk result (λ found. IfSome found (λ bytes. file_at self.old.files name.now ≡ Some bytes.items)) }
        ensures fits { IfOk result (λ found. IfSome found (λ bytes. length bytes.items ≤ max)) }
        ensures missing { IfOk result (λ found. IfNone found (file_at self.old.files name.now ≡ None)) }
        ensures too_long { result ≡ Err FileFault.TooLong → IsSomeAnd (file_at self.old.files name.now) (λ bytes. max < length bytes) }
        ensures files { self.new.files ≡ self.old.files }
        ensures plan { self.new.plan ≡ (if fails_next self.old.plan then failed self.old.plan else counted self.old.plan) }
        ensures last { self.new.last ≡ (if fails_next self.old.plan then Some (as_path name.now) else self.old.last) }
    {
        if self.plan.call(true).is_err() {
            self.last.put(name);
            return Err(FileFault::Failed);
        }
        let Some(bytes) = find_bytes(&self.files, name) else {
            return Ok(None);
        };
        if bytes.len() > max as usize {
            return Err(FileFault::TooLong);
        }
        match copied(alloc, bytes) {
            Ok(copy) => Ok(Some(copy)),
            Err(_) => Err(FileFault::OutOfMemory),
        }
    }
}

// The bytes of the first file with a name.
fn find_bytes<'a>(files: &'a [(String, Vec<u8>)], name: &str) -> Option<&'a [u8]>
    ensures { option_map (λ bytes. bytes.now) result ≡ file_at (map (λ f. (string_bytes f.0, f.1.items)) files.now) name.now }
{
    for file in files {
        if file.0.as_str() == name {
            return Some(file.1.as_slice());
        }
    }
    None
}

fn copied(alloc: Global, bytes: &[u8]) -> Result<Vec<u8>, OutOfMemory>
    ensures { IfOk result (λ copy. copy.items ≡ bytes.now) }
{
    let mut copy = Vec::new(alloc);
    copy.extend_from_slice(bytes)?;
    Ok(copy)
}
