//! The text of a program, line by line.
ghost use Rattle.std.specs.Prelude.{◌≡◌, ◌<◌, ◌==◌, ◌++◌, [], ◌∷◌, codes, filter, flat_map, length, map, if◌then◌else◌, IfOk, OnOk};
ghost use Rattle.std.specs.List.{list_all};
ghost use Rattle.hex.specs.Hex.{encode_lower};
ghost use Rattle.sg_model.specs.Lists.{below};
ghost use Rattle.sg_protocol.specs.Evidence.{mask};
ghost use Rattle.sg_protocol.specs.Graph.{AreNumbers, spaced};
ghost use Rattle.sg_protocol.specs.Spelling.{u32};
ghost use Rattle.sg_graph.specs.Parts.{edge_name};
ghost use Rattle.sg_vis.specs.Model.{origin_of};
ghost use Rattle.sg_vis.specs.Table.{views_of};
ghost use Rattle.sg_graph.specs.Edges.{leaving_from};
ghost use Rattle.sg_compile.specs.Text.{item_text, line, mask_text, nodes_of, origin_text, program_text, role_line, start_line, table_lines, turn_line, version, view_line};

use sg_base::{ByteOut, Name, NodeId, OutOfMemory, Role, RoleSet, Var, VarSet};
use sg_graph::{Graph, canonical_text, put_label};
use sg_program::Program;
use sg_vis::{Origin, Seen, View, ViewId, ViewTable};
use std::alloc::Global;

/// The text of the program: its version, its role, its graph and its table, as it is loaded. It takes memory for the text.
pub fn encode(alloc: Global, program: &Program) -> Result<Vec<u8>, OutOfMemory>
    ensures { IfOk result (λ text. text.items ≡ program_text program.now) }
{
    let graph = program.graph();
    let mut out = ByteOut::new(alloc);
    out.bytes(start_line(graph))?;
    put_role(&mut out, graph, program.role())?;
    out.bytes(canonical_text(alloc, graph)?.as_slice())?;
    out.bytes(TABLE)?;
    put_table(&mut out, program)?;
    Ok(out.done())
}

/// The line before the table.
pub(crate) const TABLE: &[u8] = b"table\n";

/// Puts the lines of a program's table.
pub(crate) fn put_table(out: &mut ByteOut, program: &Program) -> Result<(), OutOfMemory>
    ensures { OnOk result (out.new ≡ out.old ++ flat_map line (table_lines program.now)) }
{
    put_turns(out, program.graph(), program.role())?;
    put_views(out, program.graph(), program.views())?;
    out.bytes(b"end\n")
}

// Each variable has one writing role.
fn has_single_writers(graph: &Graph) -> bool
    ensures { result ≡ list_all (λ v. length v.writers == 1) graph.now.variables }
{
    for number in 0..graph.vars() {
        if count_roles(graph, graph.writers(Var(number))) != 1 {
            return false;
        }
    }
    true
}

fn count_roles(graph: &Graph, roles: RoleSet) -> u8
    requires { AreNumbers (length graph.now.roles) roles }
    ensures { result ≡ length roles }
{
    let mut count = 0;
    for number in 0..graph.roles() {
        if roles.has(Role(number)) {
            count += 1;
        }
    }
    count
}

/// The version of a graph's programs: 1 if each variable has one writing role, and otherwise 2.
pub(crate) fn version(graph: &Graph) -> u8
    ensures { result ≡ version graph.now }
{
    if has_single_writers(graph) { 1 } else { 2 }
}

// The first line of a graph's programs.
fn start_line(graph: &Graph) -> &'static [u8]
    ensures { result.now ≡ line (start_line (version graph.now)) }
{
    if has_single_writers(graph) {
        b"sg-program 1\n"
    } else {
        b"sg-program 2\n"
    }
}

fn put_role(out: &mut ByteOut, graph: &Graph, role: Role) -> Result<(), OutOfMemory>
    requires { role < length graph.now.roles }
    ensures { OnOk result (out.new ≡ out.old ++ line (role_line graph.now role)) }
{
    out.bytes(b"role ")?;
    out.bytes(graph.role_name(role).as_bytes())?;
    out.u8(b'\n')
}

fn put_turns(out: &mut ByteOut, graph: &Graph, role: Role) -> Result<(), OutOfMemory>
    ensures { OnOk result (out.new ≡ out.old ++ flat_map line (map (turn_line graph.now) (nodes_of graph.now role))) }
{
    for number in 0..graph.nodes() {
        let node = NodeId(number);
        if graph.node_role(node) == role {
            put_turn(out, graph, node)?;
        }
    }
    Ok(())
}

fn put_turn(out: &mut ByteOut, graph: &Graph, node: NodeId) -> Result<(), OutOfMemory>
    requires { node < length graph.now.nodes }
    ensures { OnOk result (out.new ≡ out.old ++ line (turn_line graph.now node)) }
{
    out.bytes(b"turn ")?;
    out.bytes(graph.node_name(node).as_bytes())?;
    out.u8(b':')?;
    put_leaving(out, graph, node)?;
    out.u8(b'\n')
}

fn put_leaving(out: &mut ByteOut, graph: &Graph, node: NodeId) -> Result<(), OutOfMemory>
    ensures { OnOk result (out.new ≡ out.old ++ spaced (map (edge_name graph.now) (leaving_from graph.now node))) }
{
    for label in graph.edges_from(node) {
        put_spaced(out, &graph.edge_name(*label))?;
    }
    Ok(())
}

fn put_spaced(out: &mut ByteOut, name: &Name) -> Result<(), OutOfMemory>
    ensures { OnOk result (out.new ≡ out.old ++ 32 ∷ name.now) }
{
    out.u8(b' ')?;
    out.bytes(name.as_bytes())
}

fn put_views(out: &mut ByteOut, graph: &Graph, views: &ViewTable) -> Result<(), OutOfMemory>
    ensures { OnOk result (out.new ≡ out.old ++ flat_map line (map (view_line graph.now) (views_of views.now))) }
{
    for number in 0..views.len() {
        put_view(out, graph, views.get(ViewId(number)))?;
    }
    Ok(())
}

fn put_view(out: &mut ByteOut, graph: &Graph, view: &View) -> Result<(), OutOfMemory>
    ensures { OnOk result (out.new ≡ out.old ++ line (view_line graph.now view.now)) }
{
    out.bytes(b"view ")?;
    put_origin(out, graph, view.from)?;
    out.u8(b':')?;
    put_items(out, graph, view.items.as_slice())?;
    out.u8(b'\n')
}

fn put_origin(out: &mut ByteOut, graph: &Graph, origin: Origin) -> Result<(), OutOfMemory>
    ensures { OnOk result (out.new ≡ out.old ++ origin_text graph.now (origin_of origin)) }
{
    match origin {
        Origin::Start => out.bytes(b"start"),
        Origin::After(label) => put_label(out, graph, label),
    }
}

fn put_items(out: &mut ByteOut, graph: &Graph, items: &[Seen]) -> Result<(), OutOfMemory>
    ensures { OnOk result (out.new ≡ out.old ++ spaced (map (item_text graph.now) items.now)) }
{
    for item in items {
        put_item(out, graph, item)?;
    }
    Ok(())
}

fn put_item(out: &mut ByteOut, graph: &Graph, item: &Seen) -> Result<(), OutOfMemory>
    ensures { OnOk result (out.new ≡ out.old ++ 32 ∷ item_text graph.now item.now) }
{
    out.u8(b' ')?;
    put_label(out, graph, item.label)?;
    out.u8(b'/')?;
    put_mask(out, item.delta)
}

fn put_mask(out: &mut ByteOut, vars: VarSet) -> Result<(), OutOfMemory>
    ensures { OnOk result (out.new ≡ out.old ++ mask_text vars) }
{
    let digits = hex_digits(&mask_bytes(vars));
    out.bytes(digits.as_slice())
}

fn mask_bytes(vars: VarSet) -> [u8; 4]
    ensures { result ≡ u32 (mask vars) }
{
    vars.0.to_be_bytes()
}

fn hex_digits(bytes: &[u8; 4]) -> [u8; 8]
    ensures { result ≡ encode_lower bytes.now }
{
    let mut digits = [0; 8];
    match hex::encode_to_slice(bytes.as_slice(), &mut digits) {
        Ok(()) | Err(_) => digits,
    }
}
