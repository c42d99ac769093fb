//! Views of a graph that `check` refuses, since it blinds two roles.
use sg_base::{ByteOut, OutOfMemory, Role};
use sg_parse::parse_graph;
use sg_table::{Calls, byte, hold};
use sg_views::views;
use sg_vis::{Origin, View, ViewId, ViewTable};
use std::alloc::Global;

struct Spelled;

impl Calls for Spelled {
    fn answer(&self, alloc: Global, call: &str, args: &[Vec<u8>]) -> Option<Vec<u8>> {
        let _ = call;
        let [text, role] = args else {
            return None;
        };
        let graph = parse_graph(alloc, text).ok()?;
        let table = views(alloc, &graph, Role(byte(role)?)).ok()?;
        let mut out = ByteOut::new(alloc);
        put_views(&mut out, &table).ok()?;
        Some(out.done())
    }
}

// Puts the views of a role, each on a line.
fn put_views(out: &mut ByteOut, table: &ViewTable) -> Result<(), OutOfMemory> {
    for number in 0..table.len() {
        put_view(out, table.get(ViewId(number)))?;
    }
    Ok(())
}

fn put_view(out: &mut ByteOut, view: &View) -> Result<(), OutOfMemory> {
    match view.from {
        Origin::Start => out.bytes(b"start:")?,
        Origin::After(label) => {
            let label = label.0;
            write!(out, "after {label}:")?;
        }
    }
    for item in view.items.as_slice() {
        let (label, delta) = (item.label.0, item.delta.0);
        write!(out, " {label}/{delta}")?;
    }
    out.u8(b'\n')
}

#[test]
fn views_of_walks_through_loops_differ_by_what_was_written(
    rt: HostRuntime,
) -> Result<(), &'static str> {
    hold(rt.alloc(), &Spelled, &[LINES])
}

const LINES: &str = "
# a and b go back and forth, by an edge each that writes and one that doesn't; b may go on to c.

let LOOPS 'graph_g;role_a;role_b;role_c;var_x:int_by_a;node_n0:a;node_n1:b;node_n2:c;
let LOOPS $LOOPS+'edge_Loud:n0->n1_writes_x;edge_Still:n0->n1;edge_Back:n1->n0;edge_On:n1->n2;
views $LOOPS 02 'start:_0/1_3/0^start:_1/0_3/0^start:_1/1_3/0^
";
