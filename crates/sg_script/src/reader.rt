//! The reader of scripts.
ghost use Rattle.std.specs.Prelude.{◌≡◌, ◌≢◌, ◌⊎◌, map, option_map, Ok, Err, IfErr, IfOk, IsUtf8};
ghost use Rattle.toml.specs.View.{view, table_view};
ghost use Rattle.sg_script.specs.Format.{answer_to_table, script_file, starts_of, SpellsScript};
ghost use Rattle.sg_script.specs.Script.{IsScript, Script};

use crate::entry::read_entries;
use crate::{Script, ScriptFault};
use sg_keys::{has_keys_alone, read_document, tables_at};
use sg_program::Programs;
use std::alloc::Global;
use toml::{Table, Value};

/// The script that the bytes spell beside the programs, or its first fault: what stands beside `start` and `choice`, or a `start` that
/// is no list of tables; then the starts in order; then a `choice` that is no list of tables; then the choices in order. Bytes that
/// are no UTF-8 are refused before any memory is taken.
pub fn read_script(alloc: Global, bytes: &[u8], programs: &Programs) -> Result<Script, ScriptFault>
    ensures spelled { IfOk result (SpellsScript programs.now bytes.now) }
    ensures each { (s : Script) → SpellsScript programs.now bytes.now s → (result ≡ Ok s) ⊎ (result ≡ Err ScriptFault.OutOfMemory) }
    ensures first_fault { IfErr result (λ e. e ≢ ScriptFault.OutOfMemory → script_file programs.now bytes.now ≡ Err e) }
    ensures script { IfOk result (IsScript programs.now) }
    // Memory never runs out for bytes that are no text.
    ensures not_text { ¬ IsUtf8 bytes.now → result ≡ Err ScriptFault.NotToml }
{
    answer(alloc, bytes, programs)
}

// The script or the first fault.
fn answer(alloc: Global, bytes: &[u8], programs: &Programs) -> Result<Script, ScriptFault>
    ensures answer { IfOk result (λ s. script_file programs.now bytes.now ≡ Ok s) }
    ensures fault { IfErr result (λ e. e ≢ ScriptFault.OutOfMemory → script_file programs.now bytes.now ≡ Err e) }
    ensures not_text { ¬ IsUtf8 bytes.now → result ≡ Err ScriptFault.NotToml }
{
    let Some(table) = read_document(alloc, bytes).map_err(|_| ScriptFault::OutOfMemory)? else {
        return Err(ScriptFault::NotToml);
    };
    read_table(alloc, &table, programs)
}

// The script of a table, or the first fault.
#[tactic(auto, unfolding(crate::specs::Format::start_of, crate::specs::Format::choice_of))]
fn read_table(alloc: Global, table: &Table, programs: &Programs) -> Result<Script, ScriptFault>
    ensures answer { IfOk result (λ s. answer_to_table programs.now (table_view table.now) ≡ Ok s) }
    ensures fault { IfErr result (λ e. e ≢ ScriptFault.OutOfMemory → answer_to_table programs.now (table_view table.now) ≡ Err e) }
{
    let starts = read_entries(alloc, programs, list_of_starts(table))?;
    let choices = read_entries(alloc, programs, tables_at(table, "choice"))?;
    Ok(Script { starts, choices })
}

// The tables at `start`, if nothing stands beside `start` and `choice`.
fn list_of_starts(table: &Table) -> Option<&[Value]>
    ensures { option_map (λ vs. map view vs.now) result ≡ starts_of (table_view table.now) }
{
    if has_keys_alone(table, &["start", "choice"]) {
        tables_at(table, "start")
    } else {
        None
    }
}
