//! The check for blinding.
ghost use Rattle.std.specs.Prelude.{◌≡◌, ◌<◌, ◌↔◌, ◌++◌, length, IfErr, IfOk, IsOk, OnOk};
ghost use Rattle.sg_model.specs.Shape.{Sighted};
ghost use Rattle.sg_protocol.specs.Graph.{shape};
ghost use Rattle.sg_reach.specs.Reaches.{IsWithin, LeadsPast};
ghost use Rattle.sg_check.specs.FaultText.{blinded_text, blinding_text, roles_text, walks_text};
ghost use Rattle.sg_check.specs.Blind.{IsBlindFault, IsFaultAmong, IsClear, AtNode, AtPair, AtRoles};

use sg_base::{ByteOut, Label, NodeId, OutOfMemory, Role, RoleSet, Seq};
use sg_graph::{Graph, put_node, put_role, put_walk};
use sg_reach::Reach;
use std::alloc::Global;

/// Why a graph is refused for blinding.
#[derive(Debug, Drop, thiserror::Error)]
pub enum BlindFault {
    /// The least node that blinds two roles, and the least such roles, the first below the second; with a walk to a node of the first
    /// and one to a node of the second, neither past another node of the two.
    #[error("blinding")]
    Blinding {
        /// The node.
        node: NodeId,
        /// The first role.
        a: Role,
        /// The second role.
        b: Role,
        /// A walk to a node of the first role.
        walk_a: Seq<Label>,
        /// A walk to a node of the second role.
        walk_b: Seq<Label>,
    },
    /// Out of memory.
    #[error("out of memory")]
    OutOfMemory,
}

impl BlindFault {
    /// Writes the fault by the names of the graph that has it.
    pub fn put(&self, out: &mut ByteOut, graph: &Graph) -> Result<(), OutOfMemory>
        ensures { OnOk result (out.new ≡ out.old ++ blinding_text graph.now self.now) }
    {
        match self {
            BlindFault::Blinding {
                node,
                a,
                b,
                walk_a,
                walk_b,
            } => {
                put_blinded(out, graph, *node, *a, *b)?;
                put_walks(out, graph, walk_a.as_slice(), walk_b.as_slice())
            }
            BlindFault::OutOfMemory => out.bytes(b"out of memory"),
        }
    }
}

// Writes where two roles are blinded.
fn put_blinded(
    out: &mut ByteOut,
    graph: &Graph,
    node: NodeId,
    a: Role,
    b: Role,
) -> Result<(), OutOfMemory>
    ensures { OnOk result (out.new ≡ out.old ++ blinded_text graph.now node a b) }
{
    out.bytes(b"blinding at ")?;
    put_node(out, graph, node)?;
    put_roles(out, graph, a, b)
}

// Writes two roles.
fn put_roles(out: &mut ByteOut, graph: &Graph, a: Role, b: Role) -> Result<(), OutOfMemory>
    ensures { OnOk result (out.new ≡ out.old ++ roles_text graph.now a b) }
{
    out.bytes(b" for ")?;
    put_role(out, graph, a)?;
    out.bytes(b" and ")?;
    put_role(out, graph, b)
}

// Writes a walk to each of two roles.
fn put_walks(
    out: &mut ByteOut,
    graph: &Graph,
    walk_a: &[Label],
    walk_b: &[Label],
) -> Result<(), OutOfMemory>
    ensures { OnOk result (out.new ≡ out.old ++ walks_text graph.now walk_a.now walk_b.now) }
{
    out.bytes(b":")?;
    put_walk(out, graph, walk_a)?;
    out.bytes(b" /")?;
    put_walk(out, graph, walk_b)
}

/// Whether no node blinds two roles. Which two walks a refusal has is not specified. It takes memory for them alone.
pub fn check_blinding(alloc: Global, graph: &Graph) -> Result<(), BlindFault>
    ensures ok { IsOk result ↔ Sighted (shape graph.now) }
    ensures refused { IfErr result (IsBlindFault (shape graph.now)) }
{
    for number in 0..graph.nodes() {
        check_node(alloc, graph, NodeId(number))?;
    }
    Ok(())
}

// Whether the node blinds no two roles.
fn check_node(alloc: Global, graph: &Graph, node: NodeId) -> Result<(), BlindFault>
    requires { node < length graph.now.nodes }
    ensures ok { OnOk result (IsClear (shape graph.now) (AtNode node)) }
    ensures refused { IfErr result (IsFaultAmong (shape graph.now) (AtNode node)) }
{
    for number in 0..graph.roles() {
        check_pairs(alloc, graph, node, Role(number))?;
    }
    Ok(())
}

// Whether the node blinds no two roles of which this one is the first.
fn check_pairs(alloc: Global, graph: &Graph, node: NodeId, a: Role) -> Result<(), BlindFault>
    requires node { node < length graph.now.nodes }
    requires role { a < length graph.now.roles }
    ensures ok { OnOk result (IsClear (shape graph.now) (AtPair node a)) }
    ensures refused { IfErr result (IsFaultAmong (shape graph.now) (AtPair node a)) }
{
    let roles = graph.roles();
    for number in a.0 + 1..roles {
        check_roles(alloc, graph, node, a, Role(number))?;
    }
    Ok(())
}

// Whether the node doesn't blind these two roles.
fn check_roles(
    alloc: Global,
    graph: &Graph,
    node: NodeId,
    a: Role,
    b: Role,
) -> Result<(), BlindFault>
    requires node { node < length graph.now.nodes }
    requires rising { a < b }
    requires role { b < length graph.now.roles }
    ensures ok { OnOk result (IsClear (shape graph.now) (AtRoles node a b)) }
    ensures refused { IfErr result (IsFaultAmong (shape graph.now) (AtRoles node a b)) }
{
    // At most 16.
    let _roles = graph.roles();
    let own = graph.node_role(node);
    if own == a || own == b {
        return Ok(());
    }
    let reach = Reach::new(graph, node, RoleSet::empty().with(a).with(b));
    let Some(to_a) = reach.first_of(a) else {
        return Ok(());
    };
    let Some(to_b) = reach.first_of(b) else {
        return Ok(());
    };
    Err(BlindFault::Blinding {
        node,
        a,
        b,
        walk_a: walk(alloc, &reach, to_a)?,
        walk_b: walk(alloc, &reach, to_b)?,
    })
}

// A walk to a node that is reached.
fn walk(alloc: Global, reach: &Reach, node: NodeId) -> Result<Seq<Label>, BlindFault>
    requires there { node < length reach.now.graph.nodes }
    requires within { IsWithin reach.now node }
    ensures ok { IfOk result (LeadsPast (shape reach.now.graph) reach.now.from reach.now.past node) }
    ensures refused { IfErr result (λ fault. fault ≡ BlindFault.OutOfMemory) }
{
    match reach.walk_to(alloc, node) {
        Ok(walk) => Ok(Seq::from_vec(walk)),
        Err(_) => Err(BlindFault::OutOfMemory),
    }
}
