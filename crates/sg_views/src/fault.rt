//! Why a role's views can't be listed.
ghost use Rattle.std.specs.Prelude.{◌≡◌, ◌++◌, OnOk};
ghost use Rattle.sg_protocol.specs.Graph.{role_name};
ghost use Rattle.sg_views.specs.FaultText.{views_text};

use crate::OpenView;
use sg_base::{ByteOut, OutOfMemory, Role, Seq};
use sg_graph::{Graph, put_role};
use sg_vis::View;
use thiserror::Error;

/// Why a role's views can't be listed.
#[derive(Debug, Drop, Error)]
pub enum ViewFault {
    /// More than 65,536 open views exist: these are 65,537 different ones.
    #[error("too many open views")]
    TooManyOpen { list: Seq<OpenView> },
    /// More than 4,096 views exist, and at most 65,536 open ones: these are 4,097 different views.
    #[error("too many views")]
    TooManyViews { list: Seq<View> },
    /// Out of memory.
    #[error("out of memory")]
    OutOfMemory,
}

impl ViewFault {
    /// Writes the fault of a role's views, by the role's name in the graph.
    pub fn put(&self, out: &mut ByteOut, graph: &Graph, role: Role) -> Result<(), OutOfMemory>
        ensures { OnOk result (out.new ≡ out.old ++ views_text graph.now role self.now) }
    {
        match self {
            ViewFault::TooManyOpen { .. } => put_many(
                out,
                graph,
                b"too many open views for ",
                role,
            ),
            ViewFault::TooManyViews { .. } => put_many(out, graph, b"too many views for ", role),
            ViewFault::OutOfMemory => out.bytes(b"out of memory"),
        }
    }
}

// Writes of which role there are too many.
fn put_many(out: &mut ByteOut, graph: &Graph, text: &[u8], role: Role) -> Result<(), OutOfMemory>
    ensures { OnOk result (out.new ≡ out.old ++ (text.now ++ role_name graph.now role)) }
{
    out.bytes(text)?;
    put_role(out, graph, role)
}
