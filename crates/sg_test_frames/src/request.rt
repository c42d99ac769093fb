//! What lines ask for: each form, and what comes near to one.
use sg_base::{ByteOut, OutOfMemory};
use sg_request::{Request, read_request};
use sg_table::{Calls, hold};
use std::alloc::Global;

struct Requests;

impl Calls for Requests {
    // What a line asks for, spelled with single spaces, or `none`.
    fn answer(&self, alloc: Global, call: &str, args: &[Vec<u8>]) -> Option<Vec<u8>> {
        let ("asks", [line]) = (call, args) else {
            return None;
        };
        let mut out = ByteOut::new(alloc);
        match read_request(alloc, line).ok()? {
            Some(request) => put_request(&mut out, &request).ok()?,
            None => out.bytes(b"none").ok()?,
        }
        Some(out.done())
    }
}

fn put_request(out: &mut ByteOut, request: &Request) -> Result<(), OutOfMemory> {
    match request {
        Request::Start {
            graph,
            version,
            names,
        } => {
            write!(out, "start {graph} {version}")?;
            for name in names.as_slice() {
                write!(out, " {name}")?;
            }
            Ok(())
        }
        Request::Act {
            session,
            label,
            values,
        } => {
            write!(out, "act s{session} {label}")?;
            for given in values.as_slice() {
                let variable = given.variable;
                write!(out, " {variable}=")?;
                out.bytes(given.value)?;
            }
            Ok(())
        }
        Request::Abandon(session) => write!(out, "abandon s{session}"),
        Request::Receive(None) => out.bytes(b"recv"),
        Request::Receive(Some(within)) => write!(out, "recv {within}"),
        Request::Again(session) => write!(out, "again s{session}"),
        Request::Turn(session) => write!(out, "turn s{session}"),
        Request::Id(session) => write!(out, "id s{session}"),
        Request::Quit => out.bytes(b"quit"),
    }
}

#[test]
fn each_form_is_read_and_what_comes_near_is_not(rt: HostRuntime) -> Result<(), &'static str> {
    hold(rt.alloc(), &Requests, &[LINES])
}

const LINES: &str = "
# To start a session.

asks 'start_shop_1_c,p,w 'start_shop_1_c_p_w
asks 'start_shop_2_c,c 'start_shop_2_c_c
asks 'start_start_2_act,quit 'start_start_2_act_quit
asks 'start_g_1_a,b,c,d,e,f,g,h,i,j,k,l,m,n,o,p 'start_g_1_a_b_c_d_e_f_g_h_i_j_k_l_m_n_o_p
asks 'start_g_1_a,b,c,d,e,f,g,h,i,j,k,l,m,n,o,p,q 'none
asks 'start_shop_1_c 'none
asks 'start_shop_0_c,p 'none
asks 'start_shop_3_c,p 'none
asks 'start_shop_v2_c,p 'none
asks 'start_shop_01_c,p 'none
asks 'start_shop_1 'none
asks 'start_shop_1_c, 'none
asks 'start_shop_1_c,,p 'none
asks 'start_shop_1_c,_p 'none
asks 'start_shop_1_c,p_more 'none
asks 'start_9shop_1_c,p 'none

# To act in one.

asks 'act_s1_Accept 'act_s1_Accept
asks 'act_s12_Order_q=\"a\\x20b\"_n=-7 'act_s12_Order_q=\"a\\x20b\"_n=-7
asks 'act_s1_Order_q=1_q=2 'act_s1_Order_q=1_q=2
asks 'act_s4294967295_Order_q=0 'act_s4294967295_Order_q=0
asks 'act_s4294967296_Order_q=0 'none
asks 'act_s1_Order_q 'none
asks 'act_s1_Order_q= 'none
asks 'act_s1_Order_q=01 'none
asks 'act_s1_Order_q=\"a 'none
asks 'act_s1_Order_=1 'none
asks 'act_s1 'none
asks 'act_Order_q=1 'none
asks 'act_1_Order 'none

# Of a session: to abandon it, to send its last frame again, its turn and its identifier.

asks 'abandon_s1 'abandon_s1
asks 'again_s2 'again_s2
asks 'turn_s3 'turn_s3
asks 'id_s4 'id_s4
asks 'abandon 'none
asks 'again_s0 'none
asks 'turn_s01 'none
asks 'id_s 'none
asks 'id_s1_s2 'none
asks 'turn_S1 'none
asks 'turn_s+2b+'1 'none
asks 'turn_s99999999999999999999 'none

# To receive.

asks 'recv 'recv
asks 'recv_0 'recv_0
asks 'recv_50 'recv_50
asks 'recv_86400000 'recv_86400000
asks 'recv_86400001 'none
asks 'recv_050 'none
asks 'recv_-1 'none
asks 'recv_1_2 'none

# To quit.

asks 'quit 'quit
asks 'quit_now 'none
asks 'quits 'none
asks 'Quit 'none

# What lines may have besides.

asks ' 'none
asks '___ 'none
asks 0d 'none
asks '#_quit 'none
asks '__recv___50__ 'recv_50
asks 'quit+0d 'quit
asks 'quit_+0d 'quit
asks 'quit+0d+0d 'none
asks 09+'quit 'none
";
