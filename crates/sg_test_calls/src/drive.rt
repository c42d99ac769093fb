//! A generated run whose record is full, at its last byte. What `drive` says of it is in the tables of cases.
ghost use Rattle.std.specs.Prelude.{◌≤◌, ◌∷◌, [], length, IfSome};
ghost use Rattle.sg_protocol.specs.IsSchedule.{AreCompiled};
ghost use Rattle.sg_protocol.specs.Texts.{real};

use sg_compile::compile_all;
use sg_drive::generate;
use sg_graph::Graph;
use sg_parse::parse_graph;
use sg_program::Programs;
use sg_table::{Calls, bytes, hold, number, text};
use std::alloc::Global;
use std::slice;

struct Runs;

impl Calls for Runs {
    fn answer(&self, alloc: Global, call: &str, args: &[Vec<u8>]) -> Option<Vec<u8>> {
        let _ = call;
        let [seed, sessions, graph] = args else {
            return None;
        };
        let graph = graph_of(alloc, graph)?;
        let programs = programs_of(alloc, &graph)?;
        generated(alloc, number(seed)?, number(sessions)?, &graph, &programs)
    }
}

// The graph of a text, with two roles or more.
fn graph_of(alloc: Global, text: &[u8]) -> Option<Graph>
    ensures { IfSome result (λ graph. 2 ≤ length graph.roles) }
{
    match parse_graph(alloc, text) {
        Ok(graph) => {
            if graph.roles() < 2 {
                return None;
            }
            Some(graph)
        }
        Err(_) => None,
    }
}

// The programs of a graph.
fn programs_of(alloc: Global, graph: &Graph) -> Option<Programs>
    requires { 2 ≤ length graph.now.roles }
    ensures { IfSome result (λ programs. AreCompiled real (graph.now ∷ []) programs) }
{
    match compile_all(alloc, slice::from_ref(graph)) {
        Ok(programs) => Some(programs),
        Err(_) => None,
    }
}

// Why a run isn't generated, if it isn't.
fn generated(
    alloc: Global,
    seed: u32,
    sessions: u32,
    graph: &Graph,
    programs: &Programs,
) -> Option<Vec<u8>>
    requires two { 2 ≤ length graph.now.roles }
    requires compiled { AreCompiled real (graph.now ∷ []) programs.now }
{
    if sessions == 0 || sessions > 2_000 {
        return None;
    }
    match generate(alloc, seed, sessions, graph, programs) {
        Ok(_) => bytes(alloc, b"a run"),
        Err(fault) => text(alloc, &fault),
    }
}

#[test]
fn a_full_record_ends_a_run(rt: HostRuntime) -> Result<(), &'static str> {
    hold(rt.alloc(), &Runs, &[LINES])
}

const LINES: &str = "
# A ring of four roles, each of which writes and reads 32 variables.

let UP 'A_B_C_D_E_F_G_H_I_J_K_L_M_N_O_P_Q_R_S_T_U_V_W_X_Y_Z
let ALL '_writes_+$UP+'_a_b_c_d_e_f_reads_+$UP+'_a_b_c_d_e_f;
let BY ':int_by_w_x_y_z;
let G 'graph_g;role_w;role_x;role_y;role_z;
let G $G+'var_A+$BY+'var_B+$BY+'var_C+$BY+'var_D+$BY+'var_E+$BY+'var_F+$BY+'var_G+$BY+'var_H+$BY
let G $G+'var_I+$BY+'var_J+$BY+'var_K+$BY+'var_L+$BY+'var_M+$BY+'var_N+$BY+'var_O+$BY+'var_P+$BY
let G $G+'var_Q+$BY+'var_R+$BY+'var_S+$BY+'var_T+$BY+'var_U+$BY+'var_V+$BY+'var_W+$BY+'var_X+$BY
let G $G+'var_Y+$BY+'var_Z+$BY+'var_a+$BY+'var_b+$BY+'var_c+$BY+'var_d+$BY+'var_e+$BY+'var_f+$BY
let G $G+'node_n0:w;node_n1:x;node_n2:y;node_n3:z;
let G $G+'edge_L0:n0->n1+$ALL+'edge_L1:n1->n2+$ALL+'edge_L2:n2->n3+$ALL+'edge_L3:n3->n0+$ALL

# A step begins with a record of at most 264,241,152 bytes. Of the steps of a second generator step 29,577, a start, is the first that doesn't: the
# frames before it, and the texts that a second implementation of the protocol notes at those steps, have as many bytes as the fault says.

generate '0 '2000 $G 'a_record_of_264246175_bytes
";
