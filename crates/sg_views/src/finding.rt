//! The views of a role.
ghost use Rattle.std.specs.Prelude.{◌≡◌, ℕ, ◌<◌, ◌≤◌, ◌++◌, [], ◌∷◌, length, insert, slice_get, All, Contains, IfErr, IfOk, IfSome, OnOk};
ghost use Rattle.sg_model.specs.Limits.{most_views};
ghost use Rattle.sg_model.specs.Shape.{source, receiver};
ghost use Rattle.sg_protocol.specs.Evidence.{IsViewTable};
ghost use Rattle.sg_protocol.specs.Graph.{Graph, shape};
ghost use Rattle.sg_views.specs.Limits.{Explains, FewOpen, IsFull, MatchViews};
ghost use Rattle.sg_vis.specs.Order.{HoldsTable, BelongsAt};
ghost use Rattle.sg_views.specs.Search.{AllFound, AreRows, Keeps, LeadBack, Searched, ShowsNext, ShownBelow};
ghost use Rattle.sg_views.specs.Steps.{next_view};
ghost use Rattle.sg_vis.specs.Table.{Shows, views_of};

use crate::ViewFault;
use crate::search::{all_states, walk_to};
use crate::states::States;
use crate::step::next_view;
use sg_base::{Label, OutOfMemory, Role, Seq};
use sg_graph::Graph;
use sg_vis::{Row, View, ViewTable, index_of};
use std::alloc::Global;

const MOST_VIEWS: usize = 4_096;

/// The table of a role's views: each once, in order, with a walk that shows it, and nothing else. Refused if there are more than
/// 65,536 open views or 4,096 views, or if memory runs out. It takes memory for the open views and for the table.
pub fn views(alloc: Global, graph: &Graph, role: Role) -> Result<ViewTable, ViewFault>
    ensures table { IfOk result (λ t. IsViewTable graph.now role (views_of t)) }
    ensures walks { IfOk result (λ t. All (λ s. Shows graph.now role s.walk s.view) t) }
    ensures few { IfOk result (λ t. length t ≤ most_views) }
    ensures few_open { IfOk result (λ t. FewOpen graph.now role) }
    ensures refused { IfErr result (Explains graph.now role) }
{
    let states = all_states(alloc, graph, role)?;
    let rows = all_rows(alloc, graph, role, &states)?;
    Ok(ViewTable::from_rows(rows))
}

// The rows of all views, from the states before their last edges.
fn all_rows(
    alloc: Global,
    graph: &Graph,
    role: Role,
    states: &States,
) -> Result<Vec<Row>, ViewFault>
    requires found { AllFound graph.now role states.now }
    ensures rows { IfOk result (λ rows. AreRows graph.now role rows.items) }
    ensures shown { IfOk result (λ rows. ShownBelow graph.now role (views_of rows.items) states.now (length states.now)) }
    ensures refused { IfErr result (Explains graph.now role) }
{
    let mut rows = Vec::new(alloc);
    for at in 0..states.len() {
        add_rows(alloc, graph, role, states, at, &mut rows)?;
    }
    Ok(rows)
}

// Adds the views that the edges from a state lead to.
fn add_rows(
    alloc: Global,
    graph: &Graph,
    role: Role,
    states: &States,
    at: usize,
    rows: &mut Vec<Row>,
) -> Result<(), ViewFault>
    requires found { AllFound graph.now role states.now }
    requires there { at < length states.now }
    requires rows { AreRows graph.now role rows.old.items }
    ensures rows { OnOk result (AreRows graph.now role rows.new.items) }
    ensures keeps { OnOk result (Keeps (views_of rows.old.items) (views_of rows.new.items)) }
    ensures shown { OnOk result (IfSome (slice_get states.now at) (ShowsNext graph.now role (views_of rows.new.items))) }
    ensures refused { IfErr result (Explains graph.now role) }
{
    let node = states.get(at).node;
    for label in graph.edges_from(node) {
        if graph.receiver(*label) == role {
            add_row(alloc, graph, role, states, at, *label, rows)?;
        }
    }
    Ok(())
}

// Adds the view that an edge from a state leads to, if it is new.
fn add_row(
    alloc: Global,
    graph: &Graph,
    role: Role,
    states: &States,
    at: usize,
    label: Label,
    rows: &mut Vec<Row>,
) -> Result<(), ViewFault>
    requires found { AllFound graph.now role states.now }
    requires there { at < length states.now }
    requires label { label < length graph.now.edges }
    requires source { IfSome (slice_get states.now at) (λ p. source (shape graph.now) label ≡ p.node) }
    requires receiver { receiver (shape graph.now) label ≡ role }
    requires rows { AreRows graph.now role rows.old.items }
    ensures rows { OnOk result (AreRows graph.now role rows.new.items) }
    ensures keeps { OnOk result (Keeps (views_of rows.old.items) (views_of rows.new.items)) }
    ensures shown { OnOk result (IfSome (slice_get states.now at) (λ p. Contains (views_of rows.new.items) (next_view graph.now role p.view label))) }
    ensures refused { IfErr result (Explains graph.now role) }
{
    let view = match next_view(alloc, graph, role, &states.get(at).view, label) {
        Ok(view) => view,
        Err(_) => return Err(ViewFault::OutOfMemory),
    };
    let Err(index) = index_of(rows.as_slice(), view.from, view.items.as_slice()) else {
        return Ok(());
    };
    let walk = match walk_on(alloc, states, at, label) {
        Ok(walk) => walk,
        Err(_) => return Err(ViewFault::OutOfMemory),
    };
    put_row(alloc, rows, index, Row { view, walk })
}

// A walk to a state and one edge further.
fn walk_on(
    alloc: Global,
    states: &States,
    at: usize,
    label: Label,
) -> Result<Seq<Label>, OutOfMemory>
    requires there { at < length states.now }
    requires back { LeadBack states.now }
    ensures { (g : Graph) (r : ℕ) → Searched g r states.now → label < length g.edges → receiver (shape g) label ≡ r
        → IfSome (slice_get states.now at) (λ p. source (shape g) label ≡ p.node)
        → IfOk result (λ walk. IfSome (slice_get states.now at) (λ p. Shows g r walk (next_view g r p.view label))) }
{
    let mut walk = walk_to(alloc, states, at)?;
    walk.push(label)?;
    Ok(Seq::from_vec(walk))
}

// Puts a row at its index, if there aren't as many as there may be.
fn put_row(alloc: Global, rows: &mut Vec<Row>, index: usize, row: Row) -> Result<(), ViewFault>
    requires table { HoldsTable rows.old.items }
    requires index { BelongsAt rows.old.items row.view index }
    ensures table { OnOk result (HoldsTable rows.new.items) }
    ensures put { OnOk result (rows.new.items ≡ insert rows.old.items index row) }
    ensures full { IfErr result (IsFull rows.old.items row.view) }
{
    if rows.len() == MOST_VIEWS {
        return Err(too_many(alloc, rows.as_slice(), row.view));
    }
    match rows.insert(index, row) {
        Ok(()) => Ok(()),
        Err(_) => Err(ViewFault::OutOfMemory),
    }
}

// The refusal with the views of all rows and one more.
fn too_many(alloc: Global, rows: &[Row], view: View) -> ViewFault
    ensures { MatchViews result (λ list. list ≡ views_of rows.now ++ view ∷ []) }
{
    match with_view(alloc, rows, view) {
        Ok(list) => ViewFault::TooManyViews { list },
        Err(_) => ViewFault::OutOfMemory,
    }
}

fn with_view(alloc: Global, rows: &[Row], view: View) -> Result<Seq<View>, OutOfMemory>
    ensures { IfOk result (λ list. list ≡ views_of rows.now ++ view ∷ []) }
{
    let mut list = Vec::new(alloc);
    for row in rows {
        list.push(row.view.copy(alloc)?)?;
    }
    list.push(view)?;
    Ok(Seq::from_vec(list))
}
