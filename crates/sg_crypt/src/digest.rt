//! What is hashed: graphs, sessions, and openings of commitments.
ghost use Rattle.std.specs.Prelude.{◌≡◌, ℕ, List, ◌++◌, codes};
ghost use Rattle.sha2.specs.Hashers.{Holds256};
ghost use Rattle.sg_base.specs.Model.{value_of};
ghost use Rattle.sg_protocol.specs.Graph.{Graph, canonical};
ghost use Rattle.sg_protocol.specs.Spelling.{u8, short_text, kind_code, sized, opening_bytes};
ghost use Rattle.sg_protocol.specs.Texts.{real, graph_digest, session_id, commitment};

use crate::cast::Cast;
use crate::text::{COMMIT, GRAPH, session_word};
use sg_base::{Name, Opening, Sid, Value};
use sha2::{Digest, Sha256};

/// The digest of a graph, with this canonical text. It takes no memory.
pub fn graph_digest(text: &[u8]) -> [u8; 32]
    ensures value { result ≡ real (codes "sg-graph-1" ++ text.now) }
    ensures graph { (g : Graph) → text.now ≡ canonical g → result ≡ graph_digest real g }
{
    let mut hasher = Sha256::new();
    hasher.update(GRAPH);
    hasher.update(text);
    hasher.finalize()
}

/// The identifier of a session: the SHA-256 of its text. It takes no memory.
pub fn session_id(cast: &Cast) -> Sid
    ensures { result ≡ session_id real cast.now }
{
    let mut hasher = Sha256::new();
    hasher.update(session_word(cast.version()));
    hasher.update(cast.graph());
    hasher.update(cast.nonce());
    hasher.update([cast.count()]);
    for name in cast.names() {
        take_name(&mut hasher, name);
    }
    Sid(hasher.finalize())
}

/// The commitment of a session to a value, by its opening. It takes no memory.
pub fn commit(sid: &Sid, opening: &Opening) -> [u8; 32]
    ensures { result ≡ commitment real sid.now opening.now }
{
    let mut hasher = Sha256::new();
    hasher.update(COMMIT);
    hasher.update(sid.0);
    take_opening(&mut hasher, opening);
    hasher.finalize()
}

fn take_name(hasher: &mut Sha256, name: &Name)
    ensures { (m : List ℕ) → Holds256 hasher.old m → Holds256 hasher.new (m ++ short_text name.now) }
{
    let bytes = name.as_bytes();
    hasher.update([bytes.len() as u8]);
    hasher.update(bytes);
}

fn take_opening(hasher: &mut Sha256, opening: &Opening)
    ensures { (m : List ℕ) → Holds256 hasher.old m → Holds256 hasher.new (m ++ opening_bytes opening.now) }
{
    hasher.update([opening.var.0]);
    hasher.update(opening.confounder);
    take_value(hasher, &opening.value);
}

fn take_value(hasher: &mut Sha256, value: &Value)
    ensures { (m : List ℕ) → Holds256 hasher.old m → Holds256 hasher.new (m ++ (u8 (kind_code (value_of value.now)) ++ sized (value_of value.now))) }
{
    match value {
        Value::Int(number) => {
            hasher.update([0, 0, 0, 0, 8]);
            hasher.update(number.to_be_bytes());
        }
        Value::Text(text) => {
            let bytes = text.as_bytes();
            hasher.update([1]);
            hasher.update((bytes.len() as u32).to_be_bytes());
            hasher.update(bytes);
        }
    }
}
