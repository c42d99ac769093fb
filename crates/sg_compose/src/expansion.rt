//! Parts expanded, one after the other.
ghost use Rattle.std.specs.Prelude.{◌≡◌, ◌≢◌, ◌<◌, ◌≤◌, ℕ, [], length, true, false, Some, slice_get, IfErr, IfOk, MatchResult, Ok, Err, IsFalse};
ghost use Rattle.sg_parse.specs.Parts.{AreParts, IsPart};
ghost use Rattle.sg_compose.specs.Early.{first_use_suits};
ghost use Rattle.sg_compose.specs.Expansion.{end_of, expanded, expansion, extended, has_long, player, roles_fit};
ghost use Rattle.sg_compose.specs.Laws.{IsComposed};
ghost use Rattle.sg_compose.specs.Owed.{Refuses};

use crate::add::add_use;
use crate::end::end_of;
use crate::fault::ComposeFault;
use crate::fit::{clashes, has_long, roles_fit, too_large};
use sg_base::{NodeId, Seq};
use sg_graph::Graph;
use sg_parse::{Part, Use};
use std::alloc::Global;

/// The expansion of the last part, or the first refusal: parts in the order of the text, the uses of a part in their order, and the
/// first cause that holds. Parts that the last one doesn't use are expanded and refused too. The time is in proportion to the parts
/// and their expansions; it takes memory for the expansions, which it keeps while it works, and none before the first use was looked at.
pub fn expand(alloc: Global, parts: &[Part]) -> Result<Graph, ComposeFault>
    requires { AreParts parts.now }
    // The expansion, or the first refusal.
    ensures exact { MatchResult result (λ g. expansion parts.now ≡ Ok g) (Refuses (expansion parts.now)) }
    // Memory never runs out if the text's first use is refused for its part, its roles or a long name.
    ensures early { IsFalse (first_use_suits [] parts.now) → result ≢ Err ComposeFault.OutOfMemory }
    // Its walks, and those of the expansions that it is made of.
    ensures walks { IfOk result (IsComposed parts.now) }
    // It has the roles of the last part, two or more.
    ensures two { IfOk result (λ g. 2 ≤ length g.roles) }
{
    check_first_use(parts)?;
    expand_all(alloc, parts)
}

// Looks at the first use of all. The parts before its own use none, so they are expanded as they stand.
fn check_first_use(parts: &[Part]) -> Result<(), ComposeFault>
    requires { AreParts parts.now }
    ensures suits { IfOk result (λ _. first_use_suits [] parts.now ≡ true) }
    ensures refused { IfErr result (λ e. expansion parts.now ≡ Err e) }
    ensures early { result ≢ Err ComposeFault.OutOfMemory }
{
    for part in parts {
        if let Some(used) = part.uses.as_slice().get(0) {
            let inner = part_at(parts, used.part);
            check_use(part, &part.graph, &inner.graph, used)?;
            return Ok(());
        }
    }
    Ok(())
}

// The part of this number.
fn part_at(parts: &[Part], number: usize) -> &Part
    requires { number < length parts.now }
    ensures { slice_get parts.now number ≡ Some result.now }
{
    &parts[number]
}

// The expansion of the last part.
fn expand_all(alloc: Global, parts: &[Part]) -> Result<Graph, ComposeFault>
    requires { AreParts parts.now }
    ensures { MatchResult result (λ g. expansion parts.now ≡ Ok g) (Refuses (expansion parts.now)) }
{
    let mut graphs = Seq::new(alloc);
    for part in parts {
        let graph = expand_part(alloc, graphs.as_slice(), part)?;
        if graphs.push(graph).is_err() {
            return Err(ComposeFault::OutOfMemory);
        }
    }
    match graphs.into_vec().pop() {
        Some(graph) => Ok(graph),
        None => unreachable!(),
    }
}

// The expansion of a part, if those before it expand to these graphs.
fn expand_part(alloc: Global, graphs: &[Graph], part: &Part) -> Result<Graph, ComposeFault>
    requires { IsPart (length graphs.now) part.now }
    ensures { MatchResult result (λ g. expanded graphs.now part.now ≡ Ok g) (Refuses (expanded graphs.now part.now)) }
{
    let Ok(mut graph) = part.graph.copy(alloc) else {
        return Err(ComposeFault::OutOfMemory);
    };
    match add_uses(alloc, graphs, part, &mut graph) {
        Ok(()) => Ok(graph),
        Err(fault) => Err(fault),
    }
}

// Adds the uses of a part to its graph.
fn add_uses(
    alloc: Global,
    graphs: &[Graph],
    part: &Part,
    graph: &mut Graph,
) -> Result<(), ComposeFault>
    requires part { IsPart (length graphs.now) part.now }
    requires graph { graph.old ≡ part.now.graph }
    ensures { MatchResult result (λ _. expanded graphs.now part.now ≡ Ok graph.new) (Refuses (expanded graphs.now part.now)) }
{
    for used in part.uses.as_slice() {
        expand_use(alloc, part, graph, &graphs[used.part], used)?;
    }
    Ok(())
}

// Adds a use of a part, or gives the cause for which it can't be added.
fn expand_use(
    alloc: Global,
    part: &Part,
    graph: &mut Graph,
    inner: &Graph,
    used: &Use,
) -> Result<(), ComposeFault>
    requires from { used.now.from < length graph.old.nodes }
    requires to { used.now.to < length graph.old.nodes }
    requires players { (r : ℕ) → player used.now r < length graph.old.roles }
    ensures { MatchResult result (λ _. extended part.now.graph.name graph.old inner.now used.now ≡ Ok graph.new) (Refuses (extended part.now.graph.name graph.old inner.now used.now)) }
{
    let end = check_use(part, graph, inner, used)?;
    let part = part.graph.name();
    let use_name = used.name;
    if clashes(alloc, graph, inner, used, end)? {
        return Err(ComposeFault::Clash { part, use_name });
    }
    if too_large(graph, inner, end) {
        return Err(ComposeFault::TooLarge { part, use_name });
    }
    // Both are graphs, and the use has a name, so what is added gives a graph.
    let _count = graph.roles();
    let _others = inner.roles();
    let _bytes = use_name.as_bytes();
    add_use(alloc, graph, inner, used, end)
}

// The end of the graph that is used, whose roles fit and whose new names are short. It takes no memory.
fn check_use(part: &Part, graph: &Graph, inner: &Graph, used: &Use) -> Result<NodeId, ComposeFault>
    requires from { used.now.from < length graph.now.nodes }
    requires to { used.now.to < length graph.now.nodes }
    ensures end { IfOk result (λ m. end_of inner.now ≡ Some m) }
    ensures roles { IfOk result (λ m. roles_fit graph.now inner.now used.now m ≡ true) }
    ensures names { IfOk result (λ m. has_long inner.now used.now m ≡ false) }
    ensures refused { IfErr result (λ e. extended part.now.graph.name graph.now inner.now used.now ≡ Err e) }
    ensures early { result ≢ Err ComposeFault.OutOfMemory }
{
    let part = part.graph.name();
    let use_name = used.name;
    let Some(end) = end_of(inner) else {
        return Err(ComposeFault::BadPart { part, use_name });
    };
    if !roles_fit(graph, inner, used, end) {
        return Err(ComposeFault::BadRoles { part, use_name });
    }
    if has_long(inner, used, end) {
        return Err(ComposeFault::LongName { part, use_name });
    }
    Ok(end)
}
