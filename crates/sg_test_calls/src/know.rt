//! Graphs that a command refuses before it looks at their reads.
use crate::graph::made;
use sg_base::ByteOut;
use sg_know::check_reads;
use sg_table::{Calls, hold};
use std::alloc::Global;

struct Reads;

impl Calls for Reads {
    fn answer(&self, alloc: Global, call: &str, args: &[Vec<u8>]) -> Option<Vec<u8>> {
        let _ = call;
        let graph = made(alloc, args)?;
        let mut out = ByteOut::new(alloc);
        match check_reads(alloc, &graph) {
            Ok(()) => out.bytes(b"ok").ok()?,
            Err(fault) => fault.put(&mut out, &graph).ok()?,
        }
        Some(out.done())
    }
}

#[test]
fn reads_that_no_command_looks_at(rt: HostRuntime) -> Result<(), &'static str> {
    hold(rt.alloc(), &Reads, &[LINES])
}

const LINES: &str = "
# Without a node there is no walk, nor does one take an edge that no edge leads to. A walk from the start that reads what nobody wrote is refused.

let G 'graph_g;role_a;role_b;var_x:int_by_a_b;node_n0:a;node_n1:b;node_n2:a;
reads 'g 'role,a, 'role,b, 'ok
reads $G+'edge_Far:n1->n2_reads_x; 'ok
reads $G+'edge_Round:n0->n0_reads_x; 'bad_read_Round_x_on_Round
";
