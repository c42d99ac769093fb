//! Parts added one by one.
ghost use Rattle.std.specs.Prelude.{◌≡◌, ◌<◌, ◌++◌, [], ◌∷◌, false, length, slice_set, slice_index_or, vec_len, vec_capacity, OnOk, OnErr};
ghost use Rattle.sg_model.specs.Lists.{has_text};
ghost use Rattle.sg_model.specs.Names.{reserved};
ghost use Rattle.sg_protocol.specs.Graph.{AreNumbers};
ghost use Rattle.sg_graph.specs.Adding.{Adds, with_role, with_variable, with_node, with_edge};
ghost use Rattle.sg_graph.specs.Parts.{kind_of_type, variable_names, node_names, edge_names};

use super::{Graph, NamedEdge, Node, Variable};
use crate::Edge;
use sg_base::{Label, Name, NodeId, OutOfMemory, Role, RoleSet, Seq, Var, VarSet, VarType};
use thiserror::Error;

/// Why a part isn't added, the first cause that holds.
#[derive(Debug, Clone, Copy, PartialEq, Eq, Error)]
pub enum AddFault {
    /// The graph has a part of this kind with this name.
    #[error("the name is there already")]
    Twice,
    /// The graph has as many parts of this kind as a graph may have.
    #[error("no room for one more of this kind")]
    TooMany,
    /// Out of memory.
    #[error("out of memory")]
    OutOfMemory,
}

impl Graph {
    /// Adds a role. Refused if a role has this name, if there are 16, or if memory runs out; then the graph is as before.
    pub fn add_role(&mut self, name: Name) -> Result<Role, AddFault>
        requires { has_text name reserved ≡ false }
        ensures { Adds self.old.roles 16 name self.old self.new (with_role self.old name) result }
    {
        // Its bytes are a name, as the graph asks.
        let _bytes = name.as_bytes();
        if self.find_role(&name).is_some() {
            return Err(AddFault::Twice);
        }
        let number = self.roles.len();
        if number >= 16 {
            return Err(AddFault::TooMany);
        }
        let Ok(()) = self.roles.push(name) else {
            return Err(AddFault::OutOfMemory);
        };
        Ok(Role(number as u8))
    }

    /// Adds a variable, with the roles that may write it. Refused if a variable has this name, if there are 32, or if
    /// memory runs out; then the graph is as before.
    pub fn add_var(&mut self, name: Name, kind: VarType, writers: RoleSet) -> Result<Var, AddFault>
        requires name { has_text name reserved ≡ false }
        requires writers { AreNumbers (length self.old.roles) writers }
        requires some { 0 < length writers }
        ensures { Adds (variable_names self.old) 32 name self.old self.new
            (with_variable self.old (record { name = name; kind = kind_of_type kind; writers = writers })) result }
    {
        // Its bytes are a name, as the graph asks.
        let _bytes = name.as_bytes();
        if self.find_var(&name).is_some() {
            return Err(AddFault::Twice);
        }
        let number = self.vars.len();
        if number >= 32 {
            return Err(AddFault::TooMany);
        }
        let var = Variable {
            name,
            kind,
            writers,
        };
        let Ok(()) = self.vars.push(var) else {
            return Err(AddFault::OutOfMemory);
        };
        Ok(Var(number as u8))
    }

    /// Adds a node of a role. Refused if a node has this name, if there are 256, or if memory runs out; then the graph is
    /// as before.
    pub fn add_node(&mut self, name: Name, role: Role) -> Result<NodeId, AddFault>
        requires name { has_text name reserved ≡ false }
        requires role { role < length self.old.roles }
        ensures { Adds (node_names self.old) 256 name self.old self.new
            (with_node self.old (record { name = name; role = role })) result }
    {
        // Its bytes are a name, as the graph asks.
        let _bytes = name.as_bytes();
        if self.find_node(&name).is_some() {
            return Err(AddFault::Twice);
        }
        let number = self.nodes.len();
        if number >= 256 {
            return Err(AddFault::TooMany);
        }
        // Room first, so that both lists grow or neither does.
        let Ok(()) = self.nodes.reserve(1) else {
            return Err(AddFault::OutOfMemory);
        };
        let none = Seq::new(*self.nodes.allocator());
        let Ok(()) = self.leaving.push(none) else {
            return Err(AddFault::OutOfMemory);
        };
        put(&mut self.nodes, Node { name, role });
        Ok(NodeId(number as u16))
    }

    /// Adds an edge: its sender writes `writes`, and its receiver reads `reads`. Refused if an edge has this name, if there
    /// are 512, or if memory runs out; then the graph is as before.
    pub fn add_edge(
        &mut self,
        name: Name,
        source: NodeId,
        target: NodeId,
        writes: VarSet,
        reads: VarSet,
    ) -> Result<Label, AddFault>
        requires name { has_text name reserved ≡ false }
        requires source { source < length self.old.nodes }
        requires target { target < length self.old.nodes }
        requires writes { AreNumbers (length self.old.variables) writes }
        requires reads { AreNumbers (length self.old.variables) reads }
        ensures { Adds (edge_names self.old) 512 name self.old self.new
            (with_edge self.old
            (record { name = name; source = source; target = target; writes = writes; reads = reads })) result }
    {
        // Its bytes are a name, as the graph asks.
        let _bytes = name.as_bytes();
        if self.find_edge(&name).is_some() {
            return Err(AddFault::Twice);
        }
        let number = self.edges.len();
        if number >= 512 {
            return Err(AddFault::TooMany);
        }
        let label = Label(number as u16);
        let edge = Edge {
            label,
            source,
            target,
            writes,
            reads,
        };
        // Room first, so that both lists grow or neither does.
        let Ok(()) = self.edges.reserve(1) else {
            return Err(AddFault::OutOfMemory);
        };
        let Ok(()) = put_label(&mut self.leaving, source, label) else {
            return Err(AddFault::OutOfMemory);
        };
        put(&mut self.edges, NamedEdge { name, edge });
        Ok(label)
    }
}

// Puts a value at the end of a list that has room.
fn put<T: Drop>(items: &mut Vec<T>, value: T)
    requires { vec_len items.old < vec_capacity items.old }
    ensures { items.new.items ≡ items.old.items ++ value ∷ [] }
{
    let _put = items.push(value);
}

// Puts a label at the end of a node's list.
fn put_label(lists: &mut Vec<Seq<Label>>, node: NodeId, label: Label) -> Result<(), OutOfMemory>
    requires { node < length lists.old.items }
    ensures ok { OnOk result (lists.new.items ≡ slice_set lists.old.items node (slice_index_or lists.old.items node [] ++ label ∷ [])) }
    ensures err { OnErr result (lists.new.items ≡ lists.old.items) }
{
    lists[node.0 as usize].push(label)?;
    Ok(())
}
