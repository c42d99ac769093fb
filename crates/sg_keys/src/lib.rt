//! Whom a principal shares keys with.
//!
//! A keyring has a principal's name, the address at which it waits, and for each of its peers a name, an address and a key of 32
//! bytes that the two share. No two of these names are equal. Look-ups go by a hash table, so they take the same time however many
//! peers there are.
//!
//! A keyring is read from a key file in TOML, such as
//!
//! ```text
//! me = "a"
//! listen = "127.0.0.1:4001"
//! [[peer]]
//! name = "b"
//! addr = "127.0.0.1:4002"
//! key = "1111111111111111111111111111111111111111111111111111111111111111"
//! ```
//!
//! with exactly these keys. There may be no `peer` at all. `read_document` gives the table of a text, `has_keys_alone` tests its keys, and
//! `value_at`, `text_at`, `name_at` and `tables_at` read what stands at a key, for scripts too. `laws` says that bytes spell one keyring at most.
#![tactic(auto)]

mod document;
mod key_file;
mod keyring;
pub mod laws;
mod table;
mod word;

pub use document::read_document;
pub use key_file::KeyFault;
pub use keyring::{Keyring, PeerFault};
pub use table::{has_keys_alone, name_at, tables_at, text_at, value_at};
