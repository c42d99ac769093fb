//! What the tables of a script hold.
ghost use Rattle.std.specs.Prelude.{◌≡◌, option_and_then};
ghost use Rattle.toml.specs.Data.{as_str, as_integer, get_member};
ghost use Rattle.toml.specs.View.{view, table_view};
ghost use Rattle.sg_base.specs.Words.{name};
ghost use Rattle.sg_script.specs.Format.{between, number_or, name_of};

use sg_base::Name;
use sg_keys::value_at;
use toml::{Table, Value};

/// The name that a text is.
#[tactic(auto, unfolding(sg_base::specs::Words::name))]
pub(crate) fn read_name(text: &str) -> Option<Name>
    ensures { result ≡ name text.now }
{
    Name::new(text.as_bytes())
}

/// The name that a value is.
pub(crate) fn name_of(value: &Value) -> Option<Name>
    ensures { result ≡ name_of (view value.now) }
{
    read_name(value.as_str()?)
}

// The number, if it is neither too small nor too large.
fn between(least: u32, most: u32, number: i64) -> Option<u32>
    ensures { result ≡ between least most number }
{
    if number >= 0 && least as i64 <= number && number <= most as i64 {
        Some(number as u32)
    } else {
        None
    }
}

// The number that a value is, if it is neither too small nor too large.
fn number_in(least: u32, most: u32, value: &Value) -> Option<u32>
    ensures { result ≡ option_and_then (between least most) (as_integer (view value.now)) }
{
    between(least, most, value.as_integer()?)
}

/// The number at a key, or `missing` if there is none.
pub(crate) fn number_or(
    table: &Table,
    key: &str,
    missing: u32,
    least: u32,
    most: u32,
) -> Option<u32>
    ensures { result ≡ number_or missing least most (get_member key.now (table_view table.now)) }
{
    match value_at(table, key) {
        Some(value) => number_in(least, most, value),
        None => Some(missing),
    }
}
