//! The data of a TOML text.
ghost use Rattle.std.specs.Prelude.{◌≡◌, Ok, None, IfOk, IsUtf8, option_map};
ghost use Rattle.toml.specs.View.{table_view};
ghost use Rattle.sg_keys.specs.KeyFile.{document};

use sg_base::OutOfMemory;
use std::alloc::{AllocError, Global};
use std::str;
use toml::Table;

/// The table that the bytes say as TOML, or `None` if they are not TOML. Bytes that are no UTF-8 are refused before any memory is taken.
#[tactic(auto, unfolding(crate::specs::KeyFile::document))]
pub fn read_document(alloc: Global, bytes: &[u8]) -> Result<Option<Table>, OutOfMemory>
    ensures table { IfOk result (λ o. option_map table_view o ≡ document bytes.now) }
    // Memory never runs out for bytes that are no text.
    ensures not_text { ¬ IsUtf8 bytes.now → result ≡ Ok None }
{
    if str::from_utf8(bytes).is_err() {
        return Ok(None);
    }
    match toml::table_from_slice(alloc, bytes) {
        Ok(table) => Ok(Some(table)),
        Err(fault) => {
            if fault.is_memory() {
                Err(AllocError)
            } else {
                Ok(None)
            }
        }
    }
}
