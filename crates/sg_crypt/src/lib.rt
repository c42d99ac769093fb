//! Hashes, tags and the texts under them.
//!
//! Two principals share a key of 32 bytes; what one tags under it, by HMAC (RFC 2104) with SHA-256 (FIPS 180-4), the other can
//! check. A session has a version, 1 or 2: version 2 keeps the first sixteen bytes of each tag, and zeros for the others. What is
//! hashed is a graph, a session and an opening of a commitment; what is tagged is an item and a frame. Each of these texts begins with
//! a prefix of its own kind and version, so none is taken for another. Hashes and tags are fed piece by piece and take no memory.
#![tactic(auto)]

mod cast;
mod digest;
mod hashed;
mod hmac;
mod key;
mod note;
mod pair;
mod put;
mod shared;
mod text;

pub use cast::Cast;
pub use digest::{commit, graph_digest, session_id};
pub use hashed::Hashed;
pub use hmac::{cut, cut_matches, tag, tag_matches};
pub use key::Key;
pub use note::{Counts, Note, Notes};
pub use pair::Pair;
pub use put::{put_name, put_opening};
pub use shared::SharedCast;
pub use text::{commit_text, frame_text, graph_text, item_text, session_text};
