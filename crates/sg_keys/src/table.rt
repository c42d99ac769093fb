//! What the tables of a TOML text hold at their keys, and those of a key file.
ghost use Rattle.std.specs.Prelude.{◌≡◌, bytes_eq, is_some, map, string_bytes, option_map, option_and_then};
ghost use Rattle.std.specs.List.{list_all, list_any};
ghost use Rattle.std.specs.BTreeMap.{keys};
ghost use Rattle.toml.specs.Data.{as_str, as_array, as_table, get_member};
ghost use Rattle.toml.specs.View.{view, items_view, table_view};
ghost use Rattle.sg_keys.specs.KeyFile.{has_keys_alone, text_at, at, tables_in, tables_of};
ghost use Rattle.sg_base.specs.Words.{name, hex_bytes};
ghost use Rattle.sg_keys.specs.Words.{address};

use crate::word::read_address;
use sg_base::{Addr, Name, read_hex};
use toml::{Table, Value};

/// What stands at a key, or `None` if nothing does.
pub fn value_at<'a>(table: &'a Table, key: &str) -> Option<&'a Value>
    ensures { option_map (λ v. view v.now) result ≡ get_member key.now (table_view table.now) }
{
    table.get(key)
}

/// The text at a key, or `None` if there is none.
pub fn text_at<'a>(table: &'a Table, key: &str) -> Option<&'a str>
    ensures { option_map (λ s. s.now) result ≡ text_at key.now (table_view table.now) }
{
    match value_at(table, key) {
        Some(value) => value.as_str(),
        None => None,
    }
}

/// The name that the text at a key spells, or `None` if it spells none.
#[tactic(auto, unfolding(sg_base::specs::Words::name))]
pub fn name_at(table: &Table, key: &str) -> Option<Name>
    ensures { result ≡ at name key.now (table_view table.now) }
{
    Name::new(text_at(table, key)?.as_bytes())
}

/// The address that the text at a key spells.
pub(crate) fn address_at(table: &Table, key: &str) -> Option<Addr>
    ensures { result ≡ at address key.now (table_view table.now) }
{
    read_address(text_at(table, key)?.as_bytes())
}

/// The 32 bytes that the text at a key spells.
pub(crate) fn key_at(table: &Table, key: &str) -> Option<[u8; 32]>
    ensures { result ≡ at (hex_bytes 32) key.now (table_view table.now) }
{
    read_hex(text_at(table, key)?.as_bytes())
}

/// Whether each key of the table is one of these words.
pub fn has_keys_alone(table: &Table, words: &[&str]) -> bool
    ensures { result ≡ has_keys_alone (map (λ w. w.now) words.now) (table_view table.now) }
{
    are_words(table, words)
}

fn are_words(table: &Table, words: &[&str]) -> bool
    ensures { result ≡ list_all (λ k. list_any (λ w. bytes_eq (string_bytes k) w.now) words.now) (keys table.now) }
{
    table.keys().all(|key| is_one_of(key.as_str(), words))
}

fn is_one_of(key: &str, words: &[&str]) -> bool
    ensures { result ≡ list_any (λ w. bytes_eq key.now w.now) words.now }
{
    words.iter().any(|word| key == *word)
}

fn are_tables(values: &[Value]) -> bool
    ensures { result ≡ list_all (λ v. is_some (as_table (view v))) values.now }
{
    values.iter().all(|value| value.is_table())
}

// The values, if each is a table.
fn tables_in(values: &[Value]) -> Option<&[Value]>
    ensures { option_map (λ vs. map view vs.now) result ≡ tables_in (items_view values.now) }
{
    if are_tables(values) {
        Some(values)
    } else {
        None
    }
}

// The items of a list of tables.
fn tables_of(value: &Value) -> Option<&[Value]>
    ensures { option_map (λ vs. map view vs.now) result ≡ option_and_then tables_in (as_array (view value.now)) }
{
    match value.as_array() {
        Some(array) => tables_in(array.as_slice()),
        None => None,
    }
}

/// The tables of the list at a key, none if the key is missing; `None` if it is no list of tables.
pub fn tables_at<'a>(table: &'a Table, key: &str) -> Option<&'a [Value]>
    ensures { option_map (λ vs. map view vs.now) result ≡ tables_of (get_member key.now (table_view table.now)) }
{
    match value_at(table, key) {
        Some(value) => tables_of(value),
        None => Some(&[]),
    }
}
