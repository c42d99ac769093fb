//! The statements of uses.
ghost use Rattle.std.specs.Prelude.{◌≡◌, ◌==◌, IfOk, false};
ghost use Rattle.sg_model.specs.Lists.{has_text};
ghost use Rattle.std.specs.List.{list_any};
ghost use Rattle.sg_parse.specs.Owed.{Reads, ReadsInto};
ghost use Rattle.sg_parse.specs.Parts.{part_names, use_names};
ghost use Rattle.sg_parse.specs.PartsReading.{one_index, some_indices, read_use, read_uses};
ghost use Rattle.sg_parse.specs.Reading.{known_name, new_name};
ghost use Rattle.sg_parse.specs.Tokens.{is_named};

use crate::fault::ParseFault;
use crate::name::known_node;
use crate::named_list::{PartList, UseList};
use crate::part::Use;
use crate::scanner::Scanner;
use sg_base::{Name, Role, Seq};
use sg_graph::Graph;
use std::alloc::Global;

// The uses that follow, in a text of `bytes` bytes.
pub fn read_uses(
    alloc: Global,
    scanner: &mut Scanner,
    bytes: usize,
    parts: &PartList,
    graph: &Graph,
) -> Result<UseList, ParseFault>
    ensures { Reads (read_uses bytes (part_names parts.now) graph.now) scanner.old scanner.new result }
{
    let mut uses = UseList::new(alloc);
    'uses: for _ in 0..bytes {
        if !scanner.at_use() {
            return Ok(uses);
        }
        read_use(alloc, scanner, parts, graph, &mut uses)?;
    }
    Ok(uses)
}

// A use.
fn read_use(
    alloc: Global,
    scanner: &mut Scanner,
    parts: &PartList,
    graph: &Graph,
    uses: &mut UseList,
) -> Result<(), ParseFault>
    ensures { ReadsInto (read_use (part_names parts.now) graph.now uses.old) scanner.old scanner.new uses.new result }
{
    scanner.use_word()?;
    let name = new_use(scanner, uses)?;
    scanner.colon()?;
    let part = known_part(scanner, parts)?;
    let from = known_node(scanner, graph)?;
    scanner.arrow()?;
    let to = known_node(scanner, graph)?;
    scanner.as_word()?;
    let roles = some_roles(alloc, scanner, graph)?;
    scanner.semicolon()?;
    let used = Use {
        name,
        part,
        from,
        to,
        roles,
    };
    match uses.push(used) {
        Ok(()) => Ok(()),
        Err(_) => Err(ParseFault::OutOfMemory),
    }
}

// A name that no use has.
fn new_use(scanner: &mut Scanner, uses: &UseList) -> Result<Name, ParseFault>
    ensures reads { Reads (new_name (use_names uses.now)) scanner.old scanner.new result }
    ensures new { IfOk result (λ n. has_text n (use_names uses.now) ≡ false) }
{
    let (name, at) = scanner.name()?;
    if uses.has(&name) {
        return Err(ParseFault::Twice { at });
    }
    Ok(name)
}

// The number of a part by its name.
fn known_part(scanner: &mut Scanner, parts: &PartList) -> Result<usize, ParseFault>
    ensures { Reads (known_name (part_names parts.now)) scanner.old scanner.new result }
{
    let (name, at) = scanner.name()?;
    match parts.index(&name) {
        Some(part) => Ok(part),
        None => Err(ParseFault::UnknownName { at }),
    }
}

// The names of one or more roles, each once, in their order.
fn some_roles(alloc: Global, scanner: &mut Scanner, graph: &Graph) -> Result<Seq<Role>, ParseFault>
    ensures { Reads (some_indices is_named graph.now.roles) scanner.old scanner.new result }
{
    if !scanner.at_name() {
        return Err(scanner.refusal());
    }
    let mut roles = Seq::new(alloc);
    'roles: while scanner.at_name() {
        one_more_role(scanner, graph, &mut roles)?;
    }
    Ok(roles)
}

// One more role, which is none of these.
fn one_more_role(
    scanner: &mut Scanner,
    graph: &Graph,
    roles: &mut Seq<Role>,
) -> Result<(), ParseFault>
    ensures { ReadsInto (one_index graph.now.roles roles.old) scanner.old scanner.new roles.new result }
{
    let (name, at) = scanner.name()?;
    // The names of its roles differ, so the index is this one.
    let _count = graph.roles();
    let Some(role) = graph.find_role(&name) else {
        return Err(ParseFault::UnknownName { at });
    };
    if has_role(roles.as_slice(), role) {
        return Err(ParseFault::Twice { at });
    }
    match roles.push(role) {
        Ok(()) => Ok(()),
        Err(_) => Err(ParseFault::OutOfMemory),
    }
}

// The role is one of these, of which there are at most sixteen.
fn has_role(roles: &[Role], role: Role) -> bool
    ensures { result ≡ list_any (λ one. one == role) roles.now }
{
    roles.iter().any(|one| one.0 == role.0)
}
