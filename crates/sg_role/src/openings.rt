//! Whether the openings of a frame are right.
ghost use Rattle.std.specs.Prelude.{◌≡◌, ◌≢◌, ◌<◌, ◌++◌, Err, None, map, get_or, length, All, IfOk, IfErr};
ghost use Rattle.sg_model.specs.Lists.{same_text};
ghost use Rattle.sg_protocol.specs.Texts.{commitment_text_of};
ghost use Rattle.sg_protocol.specs.Verdict.{has_kind};
ghost use Rattle.sg_role.specs.Faults.{Refuses};
ghost use Rattle.sg_role.specs.Looking.{hashed_from, opening_row, KeepsNotes};

use crate::Refusal;
use crate::own::note_commitment;
use sg_base::{Opening, Sid};
use sg_crypt::Notes;
use sg_graph::Graph;
use std::alloc::Global;

/// Whether each opening is of its variable's type and opens the variable's commitment. What is hashed for it is noted.
pub(crate) fn check_openings(
    alloc: Global,
    graph: &Graph,
    sid: &Sid,
    commitments: &[Option<[u8; 32]>],
    openings: &[Opening],
    notes: &mut Notes,
) -> Result<(), Refusal>
    requires { All (λ o. o.variable < length graph.now.variables) openings.now }
    ensures right { IfOk result (λ u. opening_row graph.now sid.now commitments.now openings.now ≡ None) }
    ensures wrong { IfErr result (Refuses (opening_row graph.now sid.now commitments.now openings.now)) }
    ensures noted { result ≢ Err Refusal.OutOfMemory → notes.new ≡ record notes.old {
      hashed = notes.old.hashed ++ map (commitment_text_of sid.now) (hashed_from graph.now sid.now commitments.now openings.now);
    } }
    ensures keeps { KeepsNotes notes.old notes.new }
{
    for at in 0..openings.len() {
        let opening = &openings[at];
        if !has_kind(graph, opening) {
            return Err(Refusal::BadOpening { var: opening.var });
        }
        let commitment = note_commitment(alloc, sid, opening, notes)?;
        if !is_current(commitments, opening, &commitment) {
            return Err(Refusal::BadOpening { var: opening.var });
        }
    }
    Ok(())
}

// The opening is of its variable's type.
fn has_kind(graph: &Graph, opening: &Opening) -> bool
    requires { opening.now.variable < length graph.now.variables }
    ensures { result ≡ has_kind graph.now opening.now }
{
    graph.var_type(opening.var) == opening.value.kind()
}

// This is the current commitment of the opening's variable.
fn is_current(commitments: &[Option<[u8; 32]>], opening: &Opening, commitment: &[u8; 32]) -> bool
    ensures { result ≡ same_text (get_or commitments.now opening.now.variable None) commitment.now }
{
    match commitments.get(opening.var.0 as usize) {
        Some(Some(current)) => *current == *commitment,
        _ => false,
    }
}
