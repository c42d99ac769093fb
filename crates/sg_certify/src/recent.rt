//! What of a walk is new.
ghost use Rattle.std.specs.Prelude.{◌≡◌, ◌<◌, ◌==◌, ◌||◌, All, length};
ghost use Rattle.sg_law.specs.Explaining.{after_honest};
ghost use Rattle.sg_model.specs.Last.{after_last};
ghost use Rattle.sg_model.specs.Lists.{is_in};
ghost use Rattle.sg_model.specs.Shape.{sender};
ghost use Rattle.sg_protocol.specs.Graph.{shape};

use sg_base::{Label, Role, RoleSet};
use sg_graph::Graph;

/// The labels of a walk after the role's own last one, and of these the ones after the last of an honest sender. It takes no memory, and
/// reads no more of the walk than these labels and the one before them.
pub(crate) fn new_labels<'w>(
    graph: &Graph,
    honest: RoleSet,
    role: Role,
    walk: &'w [Label],
) -> &'w [Label]
    requires { All (λ e. e < length graph.now.edges) walk.now }
    ensures labels { result.now ≡ after_honest (shape graph.now) (λ r. is_in r honest) (after_last (sender (shape graph.now)) role walk.now) }
    ensures edges { All (λ e. e < length graph.now.edges) result.now }
{
    for back in 0..walk.len() {
        if is_known(graph, honest, role, walk[walk.len() - 1 - back]) {
            return &walk[walk.len() - back..];
        }
    }
    walk
}

// The label is the role's own or an honest sender's.
fn is_known(graph: &Graph, honest: RoleSet, role: Role, label: Label) -> bool
    requires { label < length graph.now.edges }
    ensures { result ≡ ((sender (shape graph.now) label == role) || is_in (sender (shape graph.now) label) honest) }
{
    let by = graph.sender(label);
    by == role || honest.has(by)
}
