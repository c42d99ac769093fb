//! Parts by their names. A graph has few parts, so each look-up goes over them.
ghost use Rattle.std.specs.Prelude.{◌≡◌, ◌<◌, ◌↔◌, ℕ, List, length, bytes_eq, position, IsTrue, IsSome, IfSome};
ghost use Rattle.sg_model.specs.Lists.{has_text};
ghost use Rattle.sg_protocol.specs.Graph.{role_name, variable_name, node_name};
ghost use Rattle.sg_graph.specs.Parts.{variable_names, node_names, edge_names, edge_name};

use super::{Graph, NamedEdge, Node, Variable};
use sg_base::{Label, Name, NodeId, Role, Var};

impl Graph {
    /// The role of this name, if there is one. It takes no memory.
    pub fn find_role(&self, name: &Name) -> Option<Role>
        ensures found { IsSome result ↔ IsTrue (has_text name.now self.now.roles) }
        ensures index { IfSome result (λ r. (r < length self.now.roles) × (role_name self.now r ≡ name.now)) }
    {
        let index = index_of(&self.roles, name)?;
        Some(Role(index as u8))
    }

    /// The variable of this name, if there is one. It takes no memory.
    pub fn find_var(&self, name: &Name) -> Option<Var>
        ensures found { IsSome result ↔ IsTrue (has_text name.now (variable_names self.now)) }
        ensures index { IfSome result (λ x. (x < length self.now.variables) × (variable_name self.now x ≡ name.now)) }
    {
        let index = index_of(&self.vars, name)?;
        Some(Var(index as u8))
    }

    /// The node of this name, if there is one. It takes no memory.
    pub fn find_node(&self, name: &Name) -> Option<NodeId>
        ensures found { IsSome result ↔ IsTrue (has_text name.now (node_names self.now)) }
        ensures index { IfSome result (λ n. (n < length self.now.nodes) × (node_name self.now n ≡ name.now)) }
    {
        let index = index_of(&self.nodes, name)?;
        Some(NodeId(index as u16))
    }

    /// The label of this name, if there is one. It takes no memory.
    pub fn find_edge(&self, name: &Name) -> Option<Label>
        ensures found { IsSome result ↔ IsTrue (has_text name.now (edge_names self.now)) }
        ensures index { IfSome result (λ e. (e < length self.now.edges) × (edge_name self.now e ≡ name.now)) }
    {
        let index = index_of(&self.edges, name)?;
        Some(Label(index as u16))
    }
}

// What has a name.
trait Named {
    // The name.
    ghost named: { Self → List ℕ };

    // The name.
    fn name(&self) -> &Name
        ensures { result.now ≡ named self.now };
}

impl Named for Name {
    ghost named = { λ n. n };

    fn name(&self) -> &Name {
        self
    }
}

impl Named for Variable {
    ghost named = { λ v. v.name };

    fn name(&self) -> &Name {
        &self.name
    }
}

impl Named for Node {
    ghost named = { λ n. n.name };

    fn name(&self) -> &Name {
        &self.name
    }
}

impl Named for NamedEdge {
    ghost named = { λ e. e.name };

    fn name(&self) -> &Name {
        &self.name
    }
}

// The index of the first part of this name.
fn index_of<T: Named>(parts: &[T], name: &Name) -> Option<usize>
    ensures { result ≡ position (λ part. bytes_eq name.now (T.named part)) parts.now }
{
    for at in 0..parts.len() {
        if same(name, parts[at].name()) {
            return Some(at);
        }
    }
    None
}

fn same(one: &Name, other: &Name) -> bool
    ensures { result ≡ bytes_eq one.now other.now }
{
    one.as_bytes() == other.as_bytes()
}
