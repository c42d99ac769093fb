//! Runs of one principal over a link.
use crate::names::NAMES;
use crate::outside::Top;
use sg_table::hold;

#[test]
fn each_failing_call_ends_a_run(rt: HostRuntime) -> Result<(), &'static str> {
    hold(rt.alloc(), &Top, &[NAMES, FAILURES])
}

// A principal reads its keys, its program and its script, opens the link, starts two sessions and sends in each, and waits.
const FAILURES: &str = "
let RUN 'args_run_k_s_1_p
let SENDS2 $SENDS+'sends_+$TO_B+$FRAME2+'^
let WHOLE 'status_0^+$LINE4+$SENDS2
let LINK_FAILED 'status_7^says_link_failed^
top $KEYS $TWICE $REQUESTER $RUN $WHOLE
top $KEYS $TWICE $REQUESTER 'fails_files_1 $RUN 'status_5^says_file_failed:_k^
top $KEYS $TWICE $REQUESTER 'fails_files_2 $RUN 'status_5^says_file_failed:_p^
top $KEYS $TWICE $REQUESTER 'fails_files_3 $RUN 'status_5^says_file_failed:_s^
top $KEYS $TWICE $REQUESTER 'fails_files_4 $RUN $WHOLE
top $KEYS $TWICE $REQUESTER 'fails_link_1 $RUN $LINK_FAILED
top $KEYS $TWICE $REQUESTER 'fails_link_2 $RUN $LINK_FAILED+$LINE1
top $KEYS $TWICE $REQUESTER 'fails_link_3 $RUN $LINK_FAILED+$LINE3+$SENDS
top $KEYS $TWICE $REQUESTER 'fails_link_4 $RUN $LINK_FAILED+$LINE4+$SENDS2
top $KEYS $TWICE $REQUESTER 'fails_link_5 $RUN $WHOLE
top $KEYS $TWICE $REQUESTER 'fails_out_1 $RUN 'status_6^
top $KEYS $TWICE $REQUESTER 'fails_out_2 $RUN 'status_6^+$LINE1+$SENDS
top $KEYS $TWICE $REQUESTER 'fails_out_3 $RUN 'status_6^+$LINE2+$SENDS
top $KEYS $TWICE $REQUESTER 'fails_out_4 $RUN 'status_6^+$LINE3+$SENDS2
top $KEYS $TWICE $REQUESTER 'fails_out_5 $RUN $WHOLE
top $KEYS $TWICE $REQUESTER 'room_30 $RUN 'status_6^+$LINE1+'2_a_s1_sen+$SENDS
top $KEYS $TWICE $REQUESTER 'fails_err_1 $RUN $WHOLE
top $KEYS $TWICE $REQUESTER 'fails_link_3 'fails_err_1 $RUN 'status_6^+$LINE3+$SENDS
top $KEYS $ONCE $REQUESTER $RUN 'status_0^+$LINE2+$SENDS

# A program whose table is missing a line is refused before the script is read.

let SHOP 'graph_shop;^role_c;^role_p;^role_w;^var_q:_text_by_c;^var_price:_int_by_w;^node_n0:_c;^node_n1:_p;^node_n2:_w;^node_n3:_p;^node_n4:_c;^\
  node_n5:_p;^node_n6:_c;^node_n7:_p;^edge_Order:_n0_->_n1_writes_q_reads_q;^edge_Ask:_n1_->_n2_reads_q;^\
  edge_Offer:_n2_->_n3_writes_price_reads_price;^edge_Refuse:_n2_->_n5;^edge_Pass:_n3_->_n4_reads_price;^edge_Deny:_n5_->_n6;^\
  edge_Retry:_n4_->_n1_writes_q_reads_q;^edge_Accept:_n4_->_n7;^
let CUT 'beside_p_sg-program_1^role_w^+$SHOP+'table^turn_n2:_Offer_Refuse^view_Offer:_Retry/00000001_Ask/00000000^end^
let REFUSED 'status_4^says_input_refused:_program_1_entry_2^
top $KEYS $CUT $RUN $REFUSED
top $KEYS $CUT 'fails_files_1 $RUN 'status_5^says_file_failed:_k^
top $KEYS $CUT 'fails_files_2 $RUN 'status_5^says_file_failed:_p^
top $KEYS $CUT 'fails_files_3 $RUN $REFUSED
top $KEYS $CUT 'fails_out_1 $RUN $REFUSED
top $KEYS $CUT 'fails_link_1 $RUN $REFUSED
top $KEYS $CUT 'fails_err_1 $RUN 'status_6^
";

#[test]
fn a_session_is_played(rt: HostRuntime) -> Result<(), &'static str> {
    hold(rt.alloc(), &Top, &[NAMES, PLAYS])
}

// Of the deliveries as many are taken as are asked for, and a run ends at the link's end.
const PLAYS: &str = "
# A request, its reply, and what comes of both if they come twice.

let REQUESTS 'comes_+$FRAME1
let REPLIED '1_b_s1_received_Request_time_1^2_b_s1_sent_Reply_time_2_to_a_as_f1^
let ANSWERS 'sends_+$TO_A+$REPLY+'^
let COMES 'comes_+$REPLY
top $KEYS $ONCE $REQUESTER 'args_run_k_s_1_p 'status_0^+$LINE2+$SENDS
top $KEYS_OF_B $REPLIES $REPLIER $REQUESTS $REQUESTS 'args_run_k_s_1_p 'left_link 'status_0^+$REPLIED+$ANSWERS+'left_+$FRAME1+'^
top $KEYS_OF_B $REPLIES $REPLIER $REQUESTS $REQUESTS 'args_run_k_s_3_p 'left_link 'status_0^+$REPLIED+'3_b_refused_joined^+$ANSWERS
top $KEYS $ONCE $REQUESTER $COMES $COMES 'args_run_k_s_1_p 'left_link \
  'status_0^+$LINE2+'3_a_s1_received_Reply_time_2^+$SENDS+'left_+$REPLY+'^
";
