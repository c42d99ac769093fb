//! Names where they are declared, and where they are used.
ghost use Rattle.std.specs.Prelude.{◌≡◌, ◌≢◌, ◌<◌, ◌↔◌, false, length, Err, IfOk, IsTrue};
ghost use Rattle.sg_model.specs.Lists.{has_text};
ghost use Rattle.sg_model.specs.Names.{reserved};
ghost use Rattle.sg_protocol.specs.Graph.{AreNumbers};
ghost use Rattle.sg_graph.specs.Parts.{variable_names, node_names};
ghost use Rattle.sg_parse.specs.Kinds.{names_of};
ghost use Rattle.sg_parse.specs.Owed.{Reads};
ghost use Rattle.sg_parse.specs.Reading.{new_name, known_name, one_more, some_names};

use crate::fault::ParseFault;
use crate::kind::Kind;
use crate::scanner::Scanner;
use sg_base::{Name, NodeId, Role, RoleSet, VarSet};
use sg_graph::Graph;

// A name that no part of this kind has.
pub fn new_name(scanner: &mut Scanner, graph: &Graph, kind: Kind) -> Result<Name, ParseFault>
    ensures reads { Reads (new_name (names_of kind graph.now)) scanner.old scanner.new result }
    ensures free { IfOk result (λ n. has_text n reserved ≡ false) }
    ensures new { IfOk result (λ n. has_text n (names_of kind graph.now) ≡ false) }
    ensures early { result ≢ Err ParseFault.OutOfMemory }
{
    let (name, at) = scanner.name()?;
    if has_part(graph, kind, &name) {
        return Err(ParseFault::Twice { at });
    }
    Ok(name)
}

// A part of this kind has the name.
fn has_part(graph: &Graph, kind: Kind, name: &Name) -> bool
    ensures { IsTrue result ↔ IsTrue (has_text name.now (names_of kind graph.now)) }
{
    match kind {
        Kind::Role => graph.find_role(name).is_some(),
        Kind::Var => graph.find_var(name).is_some(),
        Kind::Node => graph.find_node(name).is_some(),
        Kind::Edge => graph.find_edge(name).is_some(),
    }
}

// The name of a role.
pub fn known_role(scanner: &mut Scanner, graph: &Graph) -> Result<Role, ParseFault>
    ensures reads { Reads (known_name graph.now.roles) scanner.old scanner.new result }
    ensures there { IfOk result (λ r. r < length graph.now.roles) }
{
    let (name, at) = scanner.name()?;
    // The names of its roles differ, so the index is this one.
    let _count = graph.roles();
    match graph.find_role(&name) {
        Some(role) => Ok(role),
        None => Err(ParseFault::UnknownName { at }),
    }
}

// The name of a node.
pub fn known_node(scanner: &mut Scanner, graph: &Graph) -> Result<NodeId, ParseFault>
    ensures reads { Reads (known_name (node_names graph.now)) scanner.old scanner.new result }
    ensures there { IfOk result (λ n. n < length graph.now.nodes) }
{
    let (name, at) = scanner.name()?;
    // The names of its nodes differ, so the index is this one.
    let _count = graph.nodes();
    match graph.find_node(&name) {
        Some(node) => Ok(node),
        None => Err(ParseFault::UnknownName { at }),
    }
}

// The names of one or more roles, each once.
pub fn some_roles(scanner: &mut Scanner, graph: &Graph) -> Result<RoleSet, ParseFault>
    ensures reads { Reads (some_names 16 graph.now.roles) scanner.old scanner.new result }
    ensures there { IfOk result (AreNumbers (length graph.now.roles)) }
    ensures some { IfOk result (λ s. 0 < length s) }
{
    if !scanner.at_name() {
        return Err(scanner.refusal());
    }
    let mut roles = one_more_role(scanner, graph, RoleSet::empty())?;
    'roles: while scanner.at_name() {
        roles = one_more_role(scanner, graph, roles)?;
    }
    Ok(roles)
}

// The set with a role that is named, and that it doesn't have.
fn one_more_role(
    scanner: &mut Scanner,
    graph: &Graph,
    roles: RoleSet,
) -> Result<RoleSet, ParseFault>
    requires { AreNumbers (length graph.now.roles) roles }
    ensures reads { Reads (one_more 16 graph.now.roles roles) scanner.old scanner.new result }
    ensures there { IfOk result (AreNumbers (length graph.now.roles)) }
    ensures some { IfOk result (λ s. 0 < length s) }
{
    let (name, at) = scanner.name()?;
    // A graph has at most sixteen roles, whose names differ.
    let _count = graph.roles();
    let Some(role) = graph.find_role(&name) else {
        return Err(ParseFault::UnknownName { at });
    };
    if roles.has(role) {
        return Err(ParseFault::Twice { at });
    }
    Ok(roles.with(role))
}

// The names of one or more variables, each once.
pub fn some_vars(scanner: &mut Scanner, graph: &Graph) -> Result<VarSet, ParseFault>
    ensures reads { Reads (some_names 32 (variable_names graph.now)) scanner.old scanner.new result }
    ensures there { IfOk result (AreNumbers (length graph.now.variables)) }
{
    if !scanner.at_name() {
        return Err(scanner.refusal());
    }
    let mut vars = one_more_var(scanner, graph, VarSet::empty())?;
    'vars: while scanner.at_name() {
        vars = one_more_var(scanner, graph, vars)?;
    }
    Ok(vars)
}

// The set with a variable that is named, and that it doesn't have.
fn one_more_var(scanner: &mut Scanner, graph: &Graph, vars: VarSet) -> Result<VarSet, ParseFault>
    requires { AreNumbers (length graph.now.variables) vars }
    ensures reads { Reads (one_more 32 (variable_names graph.now) vars) scanner.old scanner.new result }
    ensures there { IfOk result (AreNumbers (length graph.now.variables)) }
{
    let (name, at) = scanner.name()?;
    // A graph has at most 32 variables, whose names differ.
    let _count = graph.vars();
    let Some(var) = graph.find_var(&name) else {
        return Err(ParseFault::UnknownName { at });
    };
    if vars.has(var) {
        return Err(ParseFault::Twice { at });
    }
    Ok(vars.with(var))
}
