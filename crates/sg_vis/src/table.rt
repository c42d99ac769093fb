//! The table of a role's views.
ghost use Rattle.std.specs.Prelude.{◌≡◌, ◌<◌, ◌≤◌, Some, length, slice_get, AllPairs, Contains, IfErr, IfOk, MatchOption};
ghost use Rattle.std.specs.declared.cmp.Ordering.TheVariants.{Less};
ghost use Rattle.sg_model.specs.Limits.{most_views};
ghost use Rattle.sg_vis.specs.Order.{BelongsAt, HoldsTable, compared};
ghost use Rattle.sg_vis.specs.Model.{origin_of};
ghost use Rattle.sg_vis.specs.Table.{view_from, views_of, walks_of};

use crate::order::compare;
use crate::{Origin, Seen, View};
use sg_base::{Label, Seq};
use std::cmp::Ordering;
use std::marker::Model;

/// A view of a table, by its index in the table's order.
#[derive(Clone, Copy, PartialEq, Eq)]
pub struct ViewId(pub u16);

impl Model for ViewId {
    ghost use Rattle.std.specs.Prelude.{ℕ};

    ghost Value = { ℕ };

    ghost view = { λ v. v.0 };

    ghost inverse = { λ n. record { 0 = n } };
}

/// A view, and a walk that shows it.
#[derive(Drop)]
pub struct Row {
    /// The view.
    pub view: View,
    /// The walk.
    pub walk: Seq<Label>,
}

impl Model for Row {
    ghost use Rattle.sg_vis.specs.Table.{ShownView};

    ghost Value = { ShownView };

    ghost view = { λ r. record { view = r.view; walk = r.walk } };
}

/// Views in their order, all different, each with a walk that shows it. A clause sees the list of both.
#[derive(Drop)]
pub struct ViewTable {
    rows: Vec<Row>,
}

impl Model for ViewTable {
    ghost use Rattle.std.specs.Prelude.{List};
    ghost use Rattle.sg_vis.specs.Table.{ShownView};

    ghost Value = { List ShownView };

    ghost use Rattle.sg_vis.specs.Order.{HoldsTable};

    ghost view = { λ t. t.rows.items };

    ghost invariant = { λ t. HoldsTable t.rows.items };
}

impl ViewTable {
    /// The table of these rows. It takes no memory.
    pub fn from_rows(rows: Vec<Row>) -> ViewTable
        requires { HoldsTable rows.items }
        ensures { result ≡ rows.items }
    {
        ViewTable { rows }
    }

    /// The number of views, at most 4,096. It takes no memory.
    pub fn len(&self) -> u16
        ensures count { result ≡ length self.now }
        ensures most { result ≤ most_views }
    {
        self.rows.len() as u16
    }

    /// The view of a number. It takes no memory.
    pub fn get(&self, id: ViewId) -> &View
        requires { id < length self.now }
        ensures { slice_get (views_of self.now) id ≡ Some result.now }
    {
        &self.rows[id.0 as usize].view
    }

    /// The number of the view with this origin and these items; `None` exactly if the table has no such view. It takes no memory.
    pub fn find(&self, from: Origin, items: &[Seen]) -> Option<ViewId>
        ensures { MatchOption result (¬ Contains (views_of self.now) (view_from (origin_of from) items.now))
            (λ id. slice_get (views_of self.now) id ≡ Some (view_from (origin_of from) items.now)) }
    {
        match index_of(self.rows.as_slice(), from, items) {
            Ok(index) => Some(ViewId(index as u16)),
            Err(_) => None,
        }
    }

    /// A walk from the start that shows the view of this number. It takes no memory.
    pub fn example(&self, id: ViewId) -> &[Label]
        requires { id < length self.now }
        ensures { slice_get (walks_of self.now) id ≡ Some result.now }
    {
        self.rows[id.0 as usize].walk.as_slice()
    }
}

/// The index of the view with this origin and these items among rows in order, or where it would stand. It takes no memory.
pub fn index_of(rows: &[Row], from: Origin, items: &[Seen]) -> Result<usize, usize>
    requires { AllPairs (λ a b. compared a.view b.view ≡ Less) rows.now }
    ensures found { IfOk result (λ i. slice_get (views_of rows.now) i ≡ Some (view_from (origin_of from) items.now)) }
    ensures between { IfErr result (BelongsAt rows.now (view_from (origin_of from) items.now)) }
{
    let mut low = 0;
    let mut high = rows.len();
    while low < high {
        let middle = low + (high - low) / 2;
        let order = compare_row(&rows[middle], &from, items);
        match order {
            Ordering::Less => low = middle + 1,
            Ordering::Equal => return Ok(middle),
            Ordering::Greater => high = middle,
        }
    }
    Err(low)
}

// How a row's view compares to the view of an origin and items.
fn compare_row(row: &Row, from: &Origin, items: &[Seen]) -> Ordering
    ensures order { result ≡ compared row.now.view (view_from (origin_of from.now) items.now) }
    ensures same { result ≡ Ordering.Equal → row.now.view ≡ view_from (origin_of from.now) items.now }
{
    compare(&row.view, *from, items)
}
