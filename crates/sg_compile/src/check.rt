//! The check of a graph.
ghost use Rattle.std.specs.Prelude.{◌≡◌, ◌≤◌, ◌++◌, length, IfErr, OnOk};
ghost use Rattle.sg_protocol.specs.Accepted.{Accepted};
ghost use Rattle.sg_compile.specs.FaultText.{refusal_text};
ghost use Rattle.sg_compile.specs.Refused.{IsRefusal, reads_fault, blind_fault};

use sg_base::{ByteOut, OutOfMemory, Role};
use sg_check::{BlindFault, ShapeFault, check_blinding, check_shape};
use sg_graph::Graph;
use sg_know::{ReadFault, check_reads};
use sg_views::ViewFault;
use std::alloc::Global;
use thiserror::Error;

/// Why a graph isn't compiled: the first check that refuses it, with what it found.
#[derive(Debug, Drop, Error)]
pub enum CompileFault {
    /// Its shape is wrong.
    #[error("{0}")]
    Shape(ShapeFault),
    /// A write or a read is wrong. The fault isn't `OutOfMemory`.
    #[error("{0}")]
    Reads(ReadFault),
    /// A node blinds two roles. The fault isn't `OutOfMemory`.
    #[error("{0}")]
    Blinding(BlindFault),
    /// Too many views can reach the role. The fault isn't `OutOfMemory`.
    #[error("{fault}")]
    Views { role: Role, fault: ViewFault },
    /// Out of memory.
    #[error("out of memory")]
    OutOfMemory,
}

impl CompileFault {
    /// Writes the fault by the names of the graph that has it.
    pub fn put(&self, out: &mut ByteOut, graph: &Graph) -> Result<(), OutOfMemory>
        ensures { OnOk result (out.new ≡ out.old ++ refusal_text graph.now self.now) }
    {
        match self {
            CompileFault::Shape(fault) => fault.put(out, graph),
            CompileFault::Reads(fault) => fault.put(out, graph),
            CompileFault::Blinding(fault) => fault.put(out, graph),
            CompileFault::Views { role, fault } => fault.put(out, graph, *role),
            CompileFault::OutOfMemory => out.bytes(b"out of memory"),
        }
    }
}

/// Whether a graph is accepted: its shape is right, only writers write and what is read is known, and no node blinds two roles. The checks
/// are made in this order, and the first that refuses gives the fault. It takes memory for the walks that they follow.
pub fn check_graph(alloc: Global, graph: &Graph) -> Result<(), CompileFault>
    requires { 2 ≤ length graph.now.roles }
    ensures accepted { OnOk result (Accepted graph.now) }
    ensures refused { IfErr result (IsRefusal graph.now) }
    ensures accepts { Accepted graph.now → IfErr result (λ fault. fault ≡ CompileFault.OutOfMemory) }
{
    if let Err(fault) = check_shape(graph) {
        return Err(CompileFault::Shape(fault));
    }
    if let Err(fault) = check_reads(alloc, graph) {
        return Err(of_reads(fault));
    }
    if let Err(fault) = check_blinding(alloc, graph) {
        return Err(of_blinding(fault));
    }
    Ok(())
}

// A fault of what is written and read.
fn of_reads(fault: ReadFault) -> CompileFault
    ensures { result ≡ reads_fault fault }
{
    match fault {
        ReadFault::OutOfMemory => CompileFault::OutOfMemory,
        fault => CompileFault::Reads(fault),
    }
}

// A fault of blinding.
fn of_blinding(fault: BlindFault) -> CompileFault
    ensures { result ≡ blind_fault fault }
{
    match fault {
        BlindFault::OutOfMemory => CompileFault::OutOfMemory,
        fault => CompileFault::Blinding(fault),
    }
}
