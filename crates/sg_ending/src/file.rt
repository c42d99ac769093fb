//! The files that the arguments name.
ghost use Rattle.std.specs.Prelude.{◌≡◌, ◌≤◌, Some, IfErr, IfOk, OnOk, length};
ghost use Rattle.sg_ending.specs.Files.{Has, IsUnread};
ghost use Rattle.sg_ending.specs.Model.{ending_held};

use crate::ending::Ending;
use sg_base::{FileFault, Files};
use std::alloc::Global;

/// The bytes of a file, which has at most `most`, or how the program ends without them.
pub fn read_file<'w, F: Files>(
    alloc: Global,
    file: &'w str,
    files: &mut F,
    most: u32,
) -> Result<Vec<u8>, Ending<'w>>
    ensures few { IfOk result (λ bytes. length bytes.items ≤ most) }
    ensures found { IfOk result (λ bytes. Has (F.held files.old) file.now (Some bytes.items)) }
    ensures unread { IfErr result (λ ending. IsUnread most file.now (F.held files.old) (F.faults files.old) (F.faults files.new) (ending_held ending)) }
    ensures kept { F.held files.new ≡ F.held files.old }
    ensures no_fault { OnOk result (F.faults files.new ≡ F.faults files.old) }
{
    match files.read(alloc, file, most) {
        Ok(Some(bytes)) => Ok(bytes),
        Ok(None) => Err(Ending::NoSuchFile { file }),
        Err(FileFault::Failed) => Err(Ending::FileFailed { file }),
        Err(FileFault::TooLong) => Err(Ending::TooLarge { what: file }),
        Err(FileFault::OutOfMemory) => Err(Ending::NoMemory),
    }
}
