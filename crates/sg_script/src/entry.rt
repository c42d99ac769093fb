//! The entries of a script: its starts and its choices.
ghost use Rattle.std.specs.Prelude.{◌≡◌, ◌≢◌, ℕ, ◌++◌, [], ◌∷◌, List, Option, Some, None, Err, Ok, map, option_and_then, option_map, IfErr, IfOk, OnOk};
ghost use Rattle.toml.specs.Data.{Members, as_table};
ghost use Rattle.toml.specs.View.{view, table_view};
ghost use Rattle.sg_protocol.specs.Keyring.{Program};
ghost use Rattle.sg_script.specs.Format.{each_from, entries};
ghost use Rattle.sg_script.specs.declared.fault.ScriptFault.{ScriptFault};

use crate::ScriptFault;
use sg_base::{OutOfMemory, Seq};
use sg_program::Programs;
use std::alloc::Global;
use toml::{Table, Value};

/// What each table of a list is: a start or a choice.
pub(crate) trait Entry: Sized {
    /// What a table is beside programs.
    ghost in_table: { List Program → Members → Option Self };

    /// The fault of the entry of a number.
    ghost fault_at: { ℕ → ScriptFault };

    /// What a table is.
    fn read(alloc: Global, programs: &Programs, table: &Table) -> Result<Option<Self>, OutOfMemory>
        ensures { IfOk result (λ o. o ≡ in_table programs.now (table_view table.now)) };

    /// The fault of the entry of this number, from 1 on, or of the list, by the number 0.
    fn fault(number: usize) -> ScriptFault
        ensures { result ≡ fault_at number };
}

/// The entries of a list of tables, or the first that is none. If there is no list, the fault has number 0.
pub(crate) fn read_entries<T: Entry + Drop>(
    alloc: Global,
    programs: &Programs,
    list: Option<&[Value]>,
) -> Result<Seq<T>, ScriptFault>
    ensures ok { IfOk result (λ xs. entries T.fault_at (λ d. option_and_then (T.in_table programs.now) (as_table d)) (option_map (λ vs. map view vs.now) list.entry) ≡ Ok xs) }
    ensures fault { IfErr result (λ e. e ≢ ScriptFault.OutOfMemory
        → entries T.fault_at (λ d. option_and_then (T.in_table programs.now) (as_table d)) (option_map (λ vs. map view vs.now) list.entry) ≡ Err e) }
{
    match list {
        Some(values) => each_entry(alloc, programs, values),
        None => Err(T::fault(0)),
    }
}

// The entry that each value is, or the first that is none.
fn each_entry<T: Entry + Drop>(
    alloc: Global,
    programs: &Programs,
    values: &[Value],
) -> Result<Seq<T>, ScriptFault>
    ensures ok { IfOk result (λ xs. each_from T.fault_at 1 (map (λ d. option_and_then (T.in_table programs.now) (as_table d)) (map view values.now)) ≡ Ok xs) }
    ensures fault { IfErr result (λ e. e ≢ ScriptFault.OutOfMemory → each_from T.fault_at 1 (map (λ d. option_and_then (T.in_table programs.now) (as_table d)) (map view values.now)) ≡ Err e) }
{
    let mut entries = Seq::new(alloc);
    for (at, value) in values.iter().enumerate() {
        let entry = entry_at(alloc, programs, at + 1, value)?;
        push(&mut entries, entry)?;
    }
    Ok(entries)
}

// The entry of this number.
fn entry_at<T: Entry + Drop>(
    alloc: Global,
    programs: &Programs,
    number: usize,
    value: &Value,
) -> Result<T, ScriptFault>
    ensures ok { IfOk result (λ x. option_and_then (T.in_table programs.now) (as_table (view value.now)) ≡ Some x) }
    ensures fault { IfErr result (λ e. e ≢ ScriptFault.OutOfMemory → (e ≡ T.fault_at number) × (option_and_then (T.in_table programs.now) (as_table (view value.now)) ≡ None)) }
{
    let Some(table) = value.as_table() else {
        return Err(T::fault(number));
    };
    match T::read(alloc, programs, table) {
        Ok(Some(entry)) => Ok(entry),
        Ok(None) => Err(T::fault(number)),
        Err(_) => Err(ScriptFault::OutOfMemory),
    }
}

// Puts one more at the end.
fn push<T: Drop>(list: &mut Seq<T>, value: T) -> Result<(), ScriptFault>
    ensures ok { OnOk result (list.new ≡ list.old ++ value ∷ []) }
    ensures err { IfErr result (λ e. e ≡ ScriptFault.OutOfMemory) }
{
    match list.push(value) {
        Ok(()) => Ok(()),
        Err(_) => Err(ScriptFault::OutOfMemory),
    }
}
