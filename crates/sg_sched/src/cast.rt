//! What a declared session's cast is made of.
ghost use Rattle.std.specs.Prelude.{◌≡◌, IfOk};
ghost use Rattle.sg_protocol.specs.Crafted.{nonce_of};
ghost use Rattle.sg_protocol.specs.Texts.{real, graph_digest};

use byteorder::{BigEndian, ByteOrder};
use sg_base::OutOfMemory;
use sg_crypt::graph_digest;
use sg_graph::{Graph, canonical_text};
use std::alloc::Global;

/// The digest of the graph's canonical text.
pub fn digest_of(alloc: Global, graph: &Graph) -> Result<[u8; 32], OutOfMemory>
    ensures { IfOk result (λ d. d ≡ graph_digest real graph.now) }
{
    let text = canonical_text(alloc, graph)?;
    Ok(graph_digest(&text))
}

/// Eight zeros, and the number in eight bytes, the greatest first.
pub fn nonce_bytes(number: u64) -> [u8; 16]
    ensures { result ≡ nonce_of number }
{
    let mut bytes = [0u8; 16];
    BigEndian::write_u64(&mut bytes[8..], number);
    bytes
}
