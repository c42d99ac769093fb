//! Why a graph's writes and reads are refused.
ghost use Rattle.std.specs.Prelude.{◌≡◌, ◌++◌, OnOk};
ghost use Rattle.sg_know.specs.FaultText.{reads_text};

use sg_base::{ByteOut, Label, OutOfMemory, Seq, Var};
use sg_graph::{Graph, put_label_and_var, put_walk};
use thiserror::Error;

/// A write or a read that a graph may not have, by its label and its variable.
#[derive(Debug, Drop, Error)]
pub enum ReadFault {
    /// The edge writes a variable whose writing roles don't have its sender.
    #[error("not writer")]
    NotWriter {
        /// The edge's label.
        label: Label,
        /// The variable.
        var: Var,
    },
    /// The edge reads a variable whose only writing role is its receiver.
    #[error("reads own")]
    ReadsOwn {
        /// The edge's label.
        label: Label,
        /// The variable.
        var: Var,
    },
    /// The edge reads a variable that its sender doesn't know on this walk from the start, which ends with the edge.
    #[error("bad read")]
    BadRead {
        /// The edge's label.
        label: Label,
        /// The variable.
        var: Var,
        /// The walk.
        walk: Seq<Label>,
    },
    /// There was no memory for the states that walks lead to.
    #[error("out of memory")]
    OutOfMemory,
}

impl ReadFault {
    /// Writes the fault by the names of the graph that has it.
    pub fn put(&self, out: &mut ByteOut, graph: &Graph) -> Result<(), OutOfMemory>
        ensures { OnOk result (out.new ≡ out.old ++ reads_text graph.now self.now) }
    {
        match self {
            ReadFault::NotWriter { label, var } => {
                out.bytes(b"not writer ")?;
                put_label_and_var(out, graph, *label, *var)
            }
            ReadFault::ReadsOwn { label, var } => {
                out.bytes(b"reads own ")?;
                put_label_and_var(out, graph, *label, *var)
            }
            ReadFault::BadRead { label, var, walk } => {
                out.bytes(b"bad read ")?;
                put_label_and_var(out, graph, *label, *var)?;
                out.bytes(b" on")?;
                put_walk(out, graph, walk.as_slice())
            }
            ReadFault::OutOfMemory => out.bytes(b"out of memory"),
        }
    }
}
