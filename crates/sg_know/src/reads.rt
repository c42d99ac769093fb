//! The check of what edges write and read.
ghost use Rattle.std.specs.Prelude.{◌≡◌, ◌<◌, ◌↔◌, [], ◌∷◌, ℕ, length, IsTrue, IfErr, OnOk, MatchOption};
ghost use Rattle.sg_protocol.specs.Graph.{writers};
ghost use Rattle.sg_know.specs.Reads.{AcceptedReads, HasBadRead, IsFirstFault, IsNotWriter, IsNowhere, IsReadsOwn};
ghost use Rattle.sg_know.specs.declared.fault.ReadFault.TheVariants.{OutOfMemory as Memory};

use crate::ReadFault;
use crate::bad::first_bad_read;
use sg_base::{Label, Role, Var};
use sg_graph::Graph;
use std::alloc::Global;

/// Whether edges write and read as they may. A refusal is of the first kind that there is, in the order of the variants, and names the
/// least position of that kind: the least label, and with it the least variable. The clauses on the answers are mutually exclusive, so
/// each answer comes exactly if its clause holds, unless memory runs out.
///
/// It takes memory for the edges by the nodes that they leave, for the states of one variable and one role at a time, 768 at most, and
/// for two walks. Time is in proportion to the states and the edges that leave them, for each variable and each role that sends along an
/// edge that reads it.
pub fn check_reads(alloc: Global, graph: &Graph) -> Result<(), ReadFault>
    ensures ok { OnOk result (AcceptedReads graph.now) }
    ensures fault { IfErr result (IsFirstFault graph.now) }
    ensures accepts { AcceptedReads graph.now → IfErr result (λ fault. fault ≡ Memory) }
{
    check_writers(graph)?;
    check_own(graph)?;
    check_known(alloc, graph)
}

/// Whether only writers write.
fn check_writers(graph: &Graph) -> Result<(), ReadFault>
    ensures ok { OnOk result (IsNowhere (IsNotWriter graph.now)) }
    ensures fault { IfErr result (IsFirstFault graph.now) }
{
    for number in 0..graph.edges() {
        let label = Label(number);
        if let Some(var) = not_writer(graph, label) {
            return Err(ReadFault::NotWriter { label, var });
        }
    }
    Ok(())
}

/// The first variable that the edge writes and its sender may not.
fn not_writer(graph: &Graph, label: Label) -> Option<Var>
    requires { label < length graph.now.edges }
    ensures { MatchOption result ((x : ℕ) → IsNotWriter graph.now label x → ⊥) (λ x. IsNotWriter graph.now label x × ((y : ℕ) → y < x → IsNotWriter graph.now label y → ⊥)) }
{
    let sender = graph.sender(label);
    for number in 0..graph.vars() {
        let var = Var(number);
        if graph.edge(label).writes.has(var) && !graph.writers(var).has(sender) {
            return Some(var);
        }
    }
    None
}

/// Whether no variable's only writer receives it as read.
fn check_own(graph: &Graph) -> Result<(), ReadFault>
    requires { IsNowhere (IsNotWriter graph.now) }
    ensures ok { OnOk result (IsNowhere (IsReadsOwn graph.now)) }
    ensures fault { IfErr result (IsFirstFault graph.now) }
{
    for number in 0..graph.edges() {
        let label = Label(number);
        if let Some(var) = reads_own(graph, label) {
            return Err(ReadFault::ReadsOwn { label, var });
        }
    }
    Ok(())
}

/// The first variable that the edge reads and whose only writer is its receiver.
fn reads_own(graph: &Graph, label: Label) -> Option<Var>
    requires { label < length graph.now.edges }
    ensures { MatchOption result ((x : ℕ) → IsReadsOwn graph.now label x → ⊥) (λ x. IsReadsOwn graph.now label x × ((y : ℕ) → y < x → IsReadsOwn graph.now label y → ⊥)) }
{
    let receiver = graph.receiver(label);
    for number in 0..graph.vars() {
        let var = Var(number);
        if graph.edge(label).reads.has(var) && is_only_writer(graph, var, receiver) {
            return Some(var);
        }
    }
    None
}

/// Whether the role alone may write the variable.
fn is_only_writer(graph: &Graph, var: Var, role: Role) -> bool
    requires { var < length graph.now.variables }
    ensures { IsTrue result ↔ (writers graph.now var ≡ role ∷ []) }
{
    let writers = graph.writers(var);
    for number in 0..graph.roles() {
        let other = Role(number);
        if writers.has(other) && other != role {
            return false;
        }
    }
    writers.has(role)
}

/// Whether what is read is known.
fn check_known(alloc: Global, graph: &Graph) -> Result<(), ReadFault>
    requires writers { IsNowhere (IsNotWriter graph.now) }
    requires own { IsNowhere (IsReadsOwn graph.now) }
    ensures ok { OnOk result (IsNowhere (HasBadRead graph.now)) }
    ensures fault { IfErr result (IsFirstFault graph.now) }
{
    match first_bad_read(alloc, graph) {
        Ok(None) => Ok(()),
        Ok(Some(bad)) => Err(ReadFault::BadRead {
            label: bad.label,
            var: bad.var,
            walk: bad.walk,
        }),
        Err(_) => Err(ReadFault::OutOfMemory),
    }
}
