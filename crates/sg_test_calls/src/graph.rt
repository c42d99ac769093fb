//! Graphs that are made part by part: refusals, and the limits; and walks.
ghost use Rattle.std.specs.Prelude.{◌≡◌, ◌<◌, false, length, IfSome};
ghost use Rattle.sg_model.specs.Lists.{has_text};
ghost use Rattle.sg_model.specs.Names.{reserved};
ghost use Rattle.sg_protocol.specs.Graph.{AreNumbers};

use sg_base::{ByteOut, Label, Name, NodeId, Role, RoleSet, VarSet, VarType};
use sg_graph::{AddFault, Graph, canonical_text, is_walk};
use sg_parse::parse_graph;
use sg_table::{Calls, Target, answers, hold, number, parts, yes};
use std::alloc::Global;

struct Graphs;

impl Calls for Graphs {
    fn answer(&self, alloc: Global, call: &str, args: &[Vec<u8>]) -> Option<Vec<u8>> {
        match args {
            [text, from, labels] if call == "is_walk" => {
                let graph = begun(alloc, text)?;
                let start = node(&graph, from)?;
                let labels = labels_of(alloc, labels)?;
                yes(alloc, is_walk(&graph, start, labels.as_slice()))
            }
            [text, parts @ ..] => {
                let graph = begun(alloc, text)?;
                answers(alloc, &mut Parts { graph }, parts)
            }
            _ => None,
        }
    }
}

/// The graph of the first word, with the parts of the others.
pub fn made(alloc: Global, args: &[Vec<u8>]) -> Option<Graph> {
    let (text, parts) = args.split_first()?;
    let mut made = Parts {
        graph: begun(alloc, text)?,
    };
    let _ = answers(alloc, &mut made, parts)?;
    let Parts { graph } = made;
    Some(graph)
}

// The graph of a text, or without parts that of a name.
fn begun(alloc: Global, text: &[u8]) -> Option<Graph> {
    match free_name(text) {
        Some(name) => Some(Graph::new(alloc, name)),
        None => parse_graph(alloc, text).ok(),
    }
}

// A graph to which parts are added.
#[derive(Drop)]
struct Parts {
    graph: Graph,
}

// A call is the kind of a part, its name, and what it is of: nothing for a role, a role for a node and for what it alone writes, and a node for an
// edge from there to there. With a count behind it so many are added, with their numbers behind the name. The answer to `text` is the graph's text,
// and to `edges` their count.
impl Target for Parts {
    fn call(&mut self, alloc: Global, out: &mut ByteOut, word: &[u8]) -> Option<()> {
        call(alloc, &mut self.graph, out, word)
    }
}

fn call(alloc: Global, graph: &mut Graph, out: &mut ByteOut, word: &[u8]) -> Option<()> {
    match parts(alloc, word)?.as_slice() {
        ["text"] => out.bytes(&canonical_text(alloc, graph).ok()?).ok(),
        ["edges"] => out.decimal(u64::from(graph.edges())).ok(),
        [kind, name, of] => put_fault(out, add(graph, kind, name.as_bytes(), of.as_bytes())?),
        [kind, name, of, count] => {
            let count = number(count.as_bytes())?;
            add_many(alloc, graph, out, kind, name, of, count)
        }
        _ => None,
    }
}

fn add_many(
    alloc: Global,
    graph: &mut Graph,
    out: &mut ByteOut,
    kind: &str,
    name: &str,
    of: &str,
    count: u32,
) -> Option<()> {
    for number in 0..count {
        let name = format!(in alloc; "{name}{number}").ok()?;
        put_fault(out, add(graph, kind, name.as_bytes(), of.as_bytes())?)?;
    }
    Some(())
}

// Adds a part. The inner answer is why it was refused, if it was.
fn add(graph: &mut Graph, kind: &str, name: &[u8], of: &[u8]) -> Option<Option<AddFault>> {
    let name = free_name(name)?;
    match kind {
        "role" => Some(graph.add_role(name).err()),
        "int" => {
            let set = writer(graph, of)?;
            Some(graph.add_var(name, VarType::Int, set).err())
        }
        "text" => {
            let set = writer(graph, of)?;
            Some(graph.add_var(name, VarType::Text, set).err())
        }
        "node" => {
            let acts = role(graph, of)?;
            Some(graph.add_node(name, acts).err())
        }
        "edge" => add_edge(graph, name, of),
        _ => None,
    }
}

fn add_edge(graph: &mut Graph, name: Name, of: &[u8]) -> Option<Option<AddFault>>
    requires { has_text name reserved ≡ false }
{
    let end = node(graph, of)?;
    let none = VarSet::empty();
    Some(graph.add_edge(name, end, end, none, none).err())
}

fn put_fault(out: &mut ByteOut, fault: Option<AddFault>) -> Option<()> {
    match fault {
        None => Some(()),
        Some(AddFault::Twice) => out.bytes(b"twice,").ok(),
        Some(AddFault::TooMany) => out.bytes(b"too many,").ok(),
        Some(AddFault::OutOfMemory) => None,
    }
}

// A name that is no word of the format.
fn free_name(word: &[u8]) -> Option<Name>
    ensures { IfSome result (λ name. has_text name reserved ≡ false) }
{
    let name = Name::new(word)?;
    if name.reserved() {
        return None;
    }
    Some(name)
}

fn role(graph: &Graph, name: &[u8]) -> Option<Role>
    ensures { IfSome result (λ role. role < length graph.now.roles) }
{
    graph.find_role(&Name::new(name)?)
}

fn node(graph: &Graph, name: &[u8]) -> Option<NodeId>
    ensures { IfSome result (λ node. node < length graph.now.nodes) }
{
    graph.find_node(&Name::new(name)?)
}

// The set of a role.
fn writer(graph: &Graph, name: &[u8]) -> Option<RoleSet>
    ensures there { IfSome result (λ roles. AreNumbers (length graph.now.roles) roles) }
    ensures some { IfSome result (λ roles. 0 < length roles) }
{
    let only = role(graph, name)?;
    if only.0 >= 16 {
        return None;
    }
    let roles = set_of(graph, only);
    if roles.is_empty() {
        return None;
    }
    Some(roles)
}

fn set_of(graph: &Graph, role: Role) -> RoleSet
    requires small { role < 16 }
    requires there { role < length graph.now.roles }
    ensures { AreNumbers (length graph.now.roles) result }
{
    let _ = graph;
    RoleSet::empty().with(role)
}

// Each byte is a label.
fn labels_of(alloc: Global, word: &[u8]) -> Option<Vec<Label>> {
    let mut labels = Vec::new(alloc);
    for label in word {
        labels.push(Label(u16::from(*label))).ok()?;
    }
    Some(labels)
}

#[test]
fn graphs_that_are_made_and_walked(rt: HostRuntime) -> Result<(), &'static str> {
    hold(rt.alloc(), &Graphs, &[LINES])
}

const LINES: &str = "
# The shop: a customer, a platform and a warehouse.

let SHOP 'graph_shop;^role_c;^role_p;^role_w;^var_q:_text_by_c;^var_price:_int_by_w;^
let SHOP $SHOP+'node_n0:_c;^node_n1:_p;^node_n2:_w;^node_n3:_p;^node_n4:_c;^node_n5:_p;^node_n6:_c;^node_n7:_p;^
let SHOP $SHOP+'edge_Order:_n0_->_n1_writes_q_reads_q;^edge_Ask:_n1_->_n2_reads_q;^
let SHOP $SHOP+'edge_Offer:_n2_->_n3_writes_price_reads_price;^edge_Refuse:_n2_->_n5;^edge_Pass:_n3_->_n4_reads_price;^
let SHOP $SHOP+'edge_Deny:_n5_->_n6;^edge_Retry:_n4_->_n1_writes_q_reads_q;^edge_Accept:_n4_->_n7;^

# A refusal leaves the graph.

graph $SHOP 'role,c, 'node,n7,c 'int,price,c 'edge,Deny,n7 'text 'twice,twice,twice,twice,+$SHOP

# A full graph takes no more: 16 roles, 32 variables, 256 nodes and 512 edges.

graph 'full 'role,x,,16 'int,x,x0,32 'node,x,x15,256 'edge,x,x255,512 'role,more, 'text,more,x15 'node,more,x0 'edge,more,x0 'edges \
  'too_many,too_many,too_many,too_many,512

# Walks, by their labels.

is_walk $SHOP 'n0 ' 'yes
is_walk $SHOP 'n0 000102040601 'yes
is_walk $SHOP 'n0 01 'no
is_walk $SHOP 'n0 0002 'no
is_walk $SHOP 'n0 08 'no
";
