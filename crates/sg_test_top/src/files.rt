//! The commands on files.
use crate::outside::Top;
use sg_table::hold;

#[test]
fn each_failing_call_is_reported(rt: HostRuntime) -> Result<(), &'static str> {
    hold(rt.alloc(), &Top, &[LINES, SCHEDULES, GRAPHS])
}

const LINES: &str = "
let UNREAD 'status_5^says_file_failed:_f^
let UNWRITTEN 'status_6^

# A report that isn't taken, and the answer to claims: a prefix if it finds too little room, and the file that isn't read.

let NOTE 'beside_f_graph_note;role_a;role_b;var_x:int_by_a_b;node_n0:a;node_n1:b;node_n2:a;\
  edge_Bid:n0->n1_writes_x_reads_x;edge_Ask:n1->n2_writes_x_reads_x;
let CLAIMS 'beside_c_claims_note;claim_x:_Ask_needs_Bid;claim_y:_Bid_bars_Ask;
top 'room_10 'args_replay_f 'status_6^premise_un
top $NOTE $CLAIMS 'room_10 'args_claims_f_c 'status_6^claim_x_ho
top $NOTE $CLAIMS 'fails_files_2 'args_claims_f_c 'status_5^says_file_failed:_c^
";

// Each command reads its file by the first call, writes all that it has to say by the first, and makes no other; it says a line on standard error
// only if it has failed, and asks nothing of a link.
const SCHEDULES: &str = "
# A replay of a request and its reply.

let PAIR 'beside_f_edge_Request_0_1^edge_Reply_1_2^honest_a^honest_b^key_a_b_+64*31+'^session_s1_pair_1_a,b^start_a_s1^act_a_s1_Request^\
  deliver_b_f1^act_b_s1_Reply^deliver_a_f2^
let REPLIED '1_a_s1_started_as_a^2_a_s1_sent_Request_time_1_to_b_as_f1^3_b_s1_received_Request_time_1^\
  4_b_s1_sent_Reply_time_2_to_a_as_f2^5_a_s1_received_Reply_time_2^premise_unforged_holds^premise_collision-free_holds^\
  walk_s1:_Request_Reply^
let WHOLE 'status_0^+$REPLIED
top $PAIR 'args_replay_f $WHOLE
top $PAIR 'fails_files_1 'args_replay_f $UNREAD
top $PAIR 'fails_files_2 'args_replay_f $WHOLE
top $PAIR 'fails_out_1 'args_replay_f $UNWRITTEN
top $PAIR 'fails_out_2 'args_replay_f $WHOLE
top $PAIR 'fails_err_1 'args_replay_f $WHOLE
top $PAIR 'fails_files_1 'fails_err_1 'args_replay_f $UNWRITTEN
top $PAIR 'fails_link_1 'args_replay_f $WHOLE
prefixes $REPLIED '16 $PAIR 'args_replay_f 'yes

# A replay of a session of the shop, with a second order and a refusal.

let SHOP 'graph_shop;^role_c;^role_p;^role_w;^var_q:_text_by_c;^var_price:_int_by_w;^node_n0:_c;^node_n1:_p;^node_n2:_w;^node_n3:_p;^node_n4:_c;^\
  node_n5:_p;^node_n6:_c;^node_n7:_p;^edge_Order:_n0_->_n1_writes_q_reads_q;^edge_Ask:_n1_->_n2_reads_q;^\
  edge_Offer:_n2_->_n3_writes_price_reads_price;^edge_Refuse:_n2_->_n5;^edge_Pass:_n3_->_n4_reads_price;^edge_Deny:_n5_->_n6;^\
  edge_Retry:_n4_->_n1_writes_q_reads_q;^edge_Accept:_n4_->_n7;^
let ORDERS 'beside_f_graph_{^+$SHOP+'}^honest_alice^honest_bob^honest_carl^key_alice_bob_+64*31+'^key_alice_carl_+64*32+'^key_bob_carl_+64*33+'^\
  session_s1_shop_7_alice,bob,carl^start_alice_s1^act_alice_s1_Order_q=\"tea\"^deliver_bob_f1^act_bob_s1_Ask^deliver_carl_f2^\
  act_carl_s1_Offer_price=40^deliver_bob_f3^act_bob_s1_Pass^deliver_alice_f4^act_alice_s1_Retry_q=\"green\\x20tea\"^deliver_bob_f5^\
  act_bob_s1_Ask^deliver_carl_f6^act_carl_s1_Refuse^deliver_bob_f7^act_bob_s1_Deny^deliver_alice_f8^
let ORDERED '1_alice_s1_started_as_c^2_alice_s1_sent_Order_time_1_to_bob_as_f1_q=\"tea\"^3_bob_s1_received_Order_time_1_q=\"tea\"^\
  4_bob_s1_sent_Ask_time_2_to_carl_as_f2^5_carl_s1_received_Ask_time_2_q=\"tea\"^6_carl_s1_sent_Offer_time_3_to_bob_as_f3_price=40^\
  7_bob_s1_received_Offer_time_3_price=40^8_bob_s1_sent_Pass_time_4_to_alice_as_f4^9_alice_s1_received_Pass_time_4_price=40^\
  10_alice_s1_sent_Retry_time_5_to_bob_as_f5_q=\"green\\x20tea\"^11_bob_s1_received_Retry_time_5_q=\"green\\x20tea\"^\
  12_bob_s1_sent_Ask_time_6_to_carl_as_f6^13_carl_s1_received_Ask_time_6_q=\"green\\x20tea\"^14_carl_s1_sent_Refuse_time_7_to_bob_as_f7^\
  15_bob_s1_received_Refuse_time_7^16_bob_s1_sent_Deny_time_8_to_alice_as_f8^17_alice_s1_received_Deny_time_8^premise_unforged_holds^\
  premise_collision-free_holds^walk_s1:_Order(q=\"tea\")_Ask_Offer(price=40)_Pass_Retry(q=\"green\\x20tea\")_Ask_Refuse_Deny^
let WHOLE 'status_0^+$ORDERED
top $ORDERS 'args_replay_f $WHOLE
top $ORDERS 'fails_files_1 'args_replay_f $UNREAD
top $ORDERS 'fails_files_2 'args_replay_f $WHOLE
top $ORDERS 'fails_out_1 'args_replay_f $UNWRITTEN
top $ORDERS 'fails_out_2 'args_replay_f $WHOLE
top $ORDERS 'fails_err_1 'args_replay_f $WHOLE
top $ORDERS 'fails_files_1 'fails_err_1 'args_replay_f $UNWRITTEN
top $ORDERS 'fails_link_1 'args_replay_f $WHOLE
prefixes $ORDERED '16 $ORDERS 'args_replay_f 'yes
";

const GRAPHS: &str = "
# A check of that graph.

let GRAPH 'beside_f_+$SHOP
let ACCEPTED 'accepted_shop^views_c_4^views_p_5^views_w_2^
let WHOLE 'status_0^+$ACCEPTED
top $GRAPH 'args_check_f $WHOLE
top $GRAPH 'fails_files_1 'args_check_f $UNREAD
top $GRAPH 'fails_files_2 'args_check_f $WHOLE
top $GRAPH 'fails_out_1 'args_check_f $UNWRITTEN
top $GRAPH 'fails_out_2 'args_check_f $WHOLE
top $GRAPH 'fails_err_1 'args_check_f $WHOLE
top $GRAPH 'fails_files_1 'fails_err_1 'args_check_f $UNWRITTEN
top $GRAPH 'fails_link_1 'args_check_f $WHOLE
prefixes $ACCEPTED '16 $GRAPH 'args_check_f 'yes

# Its program for the warehouse.

let PROGRAM 'sg-program_1^role_w^+$SHOP+'table^turn_n2:_Offer_Refuse^view_start:_Order/00000001_Ask/00000000^\
  view_Offer:_Retry/00000001_Ask/00000000^end^
let WHOLE 'status_0^+$PROGRAM
top $GRAPH 'args_compile_f_w $WHOLE
top $GRAPH 'fails_files_1 'args_compile_f_w $UNREAD
top $GRAPH 'fails_files_2 'args_compile_f_w $WHOLE
top $GRAPH 'fails_out_1 'args_compile_f_w $UNWRITTEN
top $GRAPH 'fails_out_2 'args_compile_f_w $WHOLE
top $GRAPH 'fails_err_1 'args_compile_f_w $WHOLE
top $GRAPH 'fails_files_1 'fails_err_1 'args_compile_f_w $UNWRITTEN
top $GRAPH 'fails_link_1 'args_compile_f_w $WHOLE
prefixes $PROGRAM '16 $GRAPH 'args_compile_f_w 'yes

# The summary of one session of a request and its reply, of which no delivery is refused.

let ASKED 'beside_f_graph_pair;role_a;role_b;node_n0:a;node_n1:b;node_n2:a;edge_Request:n0->n1;edge_Reply:n1->n2;
let SUMMARY 'sessions_1^sent_2^received_2^refused_0^lost_0^abandoned_0^complete_1^premise_unforged_holds^\
  premise_collision-free_holds^walks_1^
let WHOLE 'status_0^+$SUMMARY
top $ASKED 'args_drive_0_1_f $WHOLE
top $ASKED 'fails_files_1 'args_drive_0_1_f $UNREAD
top $ASKED 'fails_files_2 'args_drive_0_1_f $WHOLE
top $ASKED 'fails_out_1 'args_drive_0_1_f $UNWRITTEN
top $ASKED 'fails_out_2 'args_drive_0_1_f $WHOLE
top $ASKED 'fails_err_1 'args_drive_0_1_f $WHOLE
top $ASKED 'fails_files_1 'fails_err_1 'args_drive_0_1_f $UNWRITTEN
top $ASKED 'fails_link_1 'args_drive_0_1_f $WHOLE
prefixes $SUMMARY '16 $ASKED 'args_drive_0_1_f 'yes
";
