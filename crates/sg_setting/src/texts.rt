//! The texts under the digests of graphs, and the identifiers of sessions.
ghost use Rattle.std.specs.Prelude.{◌≡◌, map, IfOk};
ghost use Rattle.sg_protocol.specs.Texts.{graph_text_of, real, session_id as id_of};

use sg_base::{OutOfMemory, Sid};
use sg_crypt::{Hashed, graph_text, session_id};
use sg_graph::{Graph, canonical_text};
use sg_sched::NamedSession;
use std::alloc::Global;

/// The texts under the digests of these graphs, in order.
pub(crate) fn texts_of(alloc: Global, graphs: &[Graph]) -> Result<Vec<Hashed>, OutOfMemory>
    ensures { IfOk result (λ t. t.items ≡ map graph_text_of graphs.now) }
{
    let mut texts = Vec::new(alloc);
    for graph in graphs {
        texts.push(text_of(alloc, graph)?)?;
    }
    Ok(texts)
}

// The text under the digest of a graph.
fn text_of(alloc: Global, graph: &Graph) -> Result<Hashed, OutOfMemory>
    ensures { IfOk result (λ t. t ≡ graph_text_of graph.now) }
{
    let canonical = canonical_text(alloc, graph)?;
    let text = graph_text(alloc, canonical.as_slice())?;
    Ok(Hashed::new(text))
}

/// The identifiers of these sessions, in order.
pub(crate) fn sids_of(alloc: Global, sessions: &[NamedSession]) -> Result<Vec<Sid>, OutOfMemory>
    ensures { IfOk result (λ s. s.items ≡ map (λ d. id_of real d.cast) sessions.now) }
{
    let mut sids = Vec::new(alloc);
    for session in sessions {
        sids.push(session_id(&session.cast))?;
    }
    Ok(sids)
}
