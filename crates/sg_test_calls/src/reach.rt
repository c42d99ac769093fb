//! Closures of a graph that is small enough to follow by hand.
ghost use Rattle.std.specs.Prelude.{◌<◌, length, IfSome};

use sg_base::{ByteOut, NodeId, Role, RoleSet};
use sg_graph::Graph;
use sg_parse::parse_graph;
use sg_reach::Reach;
use sg_table::{Calls, byte, bytes, hold};
use std::alloc::Global;

struct Closures;

impl Calls for Closures {
    fn answer(&self, alloc: Global, call: &str, args: &[Vec<u8>]) -> Option<Vec<u8>> {
        let [text, from, past, asked @ ..] = args else {
            return None;
        };
        let graph = parse_graph(alloc, text).ok()?;
        let reach = Reach::new(&graph, node(&graph, from)?, roles(past)?);
        match asked {
            [] => reached(alloc, &reach),
            [role] if call == "first_of" => first_of(alloc, &reach, Role(byte(role)?)),
            [node] => walk_to(alloc, &reach, byte(node)?),
            _ => None,
        }
    }
}

// A node that is there.
fn node(graph: &Graph, word: &[u8]) -> Option<NodeId>
    ensures { IfSome result (λ node. node < length graph.now.nodes) }
{
    let number = u16::from(byte(word)?);
    if number >= graph.nodes() {
        return None;
    }
    Some(NodeId(number))
}

// The roles of a word, each a byte.
fn roles(word: &[u8]) -> Option<RoleSet> {
    let mut roles = RoleSet::empty();
    for role in word {
        if *role >= 16 {
            return None;
        }
        roles = roles.with(Role(*role));
    }
    Some(roles)
}

// The nodes that are reached.
fn reached(alloc: Global, reach: &Reach<'_>) -> Option<Vec<u8>> {
    let mut out = ByteOut::new(alloc);
    for number in 0..reach.graph().nodes() {
        if reach.has(NodeId(number)) {
            out.u16(number).ok()?;
        }
    }
    Some(out.done())
}

fn first_of(alloc: Global, reach: &Reach<'_>, role: Role) -> Option<Vec<u8>> {
    match reach.first_of(role) {
        Some(node) => bytes(alloc, &node.0.to_be_bytes()),
        None => bytes(alloc, b"none"),
    }
}

// The labels on the way to a node that is reached.
fn walk_to(alloc: Global, reach: &Reach<'_>, node: u8) -> Option<Vec<u8>> {
    let node = NodeId(u16::from(node));
    if node.0 >= reach.graph().nodes() {
        return None;
    }
    if !reach.has(node) {
        return None;
    }
    let walk = reach.walk_to(alloc, node).ok()?;
    let mut out = ByteOut::new(alloc);
    for label in walk.as_slice() {
        out.u16(label.0).ok()?;
    }
    Some(out.done())
}

#[test]
fn closures_of_a_ring(rt: HostRuntime) -> Result<(), &'static str> {
    hold(rt.alloc(), &Closures, &[LINES])
}

const LINES: &str = "
# Roles c, a and b in a ring, with a second way from the start, and a node that no edge leads to.

let RING 'graph_g;role_c;role_a;role_b;node_n0:c;node_n1:a;node_n2:b;node_n3:c;node_n4:a;edge_Long:n0->n1;
let RING $RING+'edge_On:n1->n2;edge_Round:n2->n3;edge_Back:n3->n0;edge_Short:n0->n2;edge_In:n4->n1;

# What is reached from a node past these roles.

reached $RING 00 ' 0000+0001+0002+0003
reached $RING 04 ' 0000+0001+0002+0003+0004

# A node of a role that isn't passed ends the walks to it, nor does a walk pass its first node if that has such a role.

reached $RING 00 02 0000+0001+0002
reached $RING 00 0102 0000+0001+0002
reached $RING 03 01 0000+0001+0002+0003
reached $RING 01 01 0001

# The walk to a node, and the first node of a role.

walk_to $RING 04 02 02 0005+0001
walk_to $RING 04 02 04 '
first_of $RING 04 02 01 0001
first_of $RING 04 02 02 0002
first_of $RING 04 02 00 'none
";
