//! A graph that no text spells.
use crate::graph::made;
use sg_base::ByteOut;
use sg_check::check_shape;
use sg_table::{Calls, hold};
use std::alloc::Global;

struct Shapes;

impl Calls for Shapes {
    fn answer(&self, alloc: Global, call: &str, args: &[Vec<u8>]) -> Option<Vec<u8>> {
        let _ = call;
        let graph = made(alloc, args)?;
        let mut out = ByteOut::new(alloc);
        match check_shape(&graph) {
            Ok(()) => out.bytes(b"ok").ok()?,
            Err(fault) => fault.put(&mut out, &graph).ok()?,
        }
        Some(out.done())
    }
}

#[test]
fn a_graph_without_a_node(rt: HostRuntime) -> Result<(), &'static str> {
    hold(rt.alloc(), &Shapes, &[LINES])
}

const LINES: &str = "
# Without a node the first role is idle.

shape 'g 'role,a, 'role,b, 'idle_role_a
";
