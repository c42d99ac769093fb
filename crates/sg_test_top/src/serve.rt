//! Runs for an application.
use crate::names::NAMES;
use crate::outside::Top;
use sg_table::hold;

#[test]
fn each_failing_call_is_answered_or_ends_the_run(rt: HostRuntime) -> Result<(), &'static str> {
    hold(rt.alloc(), &Top, &[NAMES, FAILURES])
}

// The link opens by its first call, sends by the second and the third, and waits by the fourth. The first pieces of the input end in the midst of the
// second line and of the third. Whenever the frame goes out, it is the same one.
const FAILURES: &str = "
# Lines for a. None is read behind the one that asks for the end.

let ASKS 'asks_start_pair_1_a,b^turn_s1^act_s1_Request^again_s1^turn_s1^recv_5^quit^turn_s1^
let SERVE 'args_serve_k_p
let READY $LINE1+'turn_s1_at_n0:_Request^
let SENT $READY+'2_a_s1_sent_Request_time_1_to_b_as_f1^
let AGAIN 'again_f1_to_b^
let WAITS 'waits_s1^
let ANSWERED $SENT+$AGAIN+$WAITS+'quiet^
let UNSENT $READY+'unsent_2_a_s1_sent_Request_time_1_to_b_as_f1^+$AGAIN+$WAITS+'quiet^
let WHOLE 'status_0^+$ANSWERED+$SENDS+$SENDS
let INPUT_FAILED 'status_14^says_input_failed^
top $KEYS $REQUESTER $ASKS $SERVE $WHOLE
top $KEYS $REQUESTER $ASKS 'fails_files_1 $SERVE 'status_5^says_file_failed:_k^
top $KEYS $REQUESTER $ASKS 'fails_files_2 $SERVE 'status_5^says_file_failed:_p^
top $KEYS $REQUESTER $ASKS 'fails_files_3 $SERVE $WHOLE
top $KEYS $REQUESTER $ASKS 'fails_link_1 $SERVE 'status_7^says_link_failed^
top $KEYS $REQUESTER $ASKS 'fails_link_1 'fails_err_1 $SERVE 'status_6^
top $KEYS $REQUESTER $ASKS 'fails_link_2 $SERVE 'status_0^+$UNSENT+$SENDS
top $KEYS $REQUESTER $ASKS 'fails_link_3 $SERVE 'status_0^+$SENT+'unsent_+$AGAIN+$WAITS+'quiet^+$SENDS
top $KEYS $REQUESTER $ASKS 'fails_link_4 $SERVE 'status_0^+$SENT+$AGAIN+$WAITS+'link_failed^+$SENDS+$SENDS
top $KEYS $REQUESTER $ASKS 'fails_input_1 $SERVE $INPUT_FAILED
top $KEYS $REQUESTER $ASKS 'fails_input_2 $SERVE $INPUT_FAILED+$LINE1
top $KEYS $REQUESTER $ASKS 'fails_input_3 $SERVE $INPUT_FAILED+$READY
top $KEYS $REQUESTER $ASKS 'fails_input_4 $SERVE $WHOLE
top $KEYS $REQUESTER $ASKS 'fails_out_1 $SERVE 'status_6^
top $KEYS $REQUESTER $ASKS 'fails_out_3 $SERVE 'status_6^+$READY+$SENDS
top $KEYS $REQUESTER $ASKS 'fails_out_4 $SERVE 'status_6^+$SENT+$SENDS+$SENDS

# Answers that find less room than they need end the run, and a prefix of them is left.

prefixes $ANSWERED '8 $KEYS $REQUESTER $ASKS $SERVE 'yes
prefixes $UNSENT '8 $KEYS $REQUESTER $ASKS 'fails_link_2 $SERVE 'yes
";

#[test]
fn what_the_arguments_do_not_ask_for_is_left_as_it_was(
    rt: HostRuntime,
) -> Result<(), &'static str> {
    hold(rt.alloc(), &Top, &[NAMES, UNASKED])
}

const UNASKED: &str = "
# Of each object of which nothing is asked the first call would fail.

let ASKS 'asks_start_pair_1_a,b^act_s1_Request^
let POSTS 'posts_+$TO_B+$FRAME1+'^
let NONE 'status_4^says_input_refused:_ledger_not_made^
top $KEYS $REQUESTER 'disk $ASKS 'args_serve_k_p 'unasked 'status_0^+$LINE2+$SENDS+'unasked_port_stream_disk^
top $KEYS $REQUESTER 'disk $ASKS 'fails_link_1 'fails_port_0 'args_serve_--tcp_k_p 'unasked \
  'status_0^+$LINE2+$POSTS+'unasked_link_stream_disk^
top $KEYS $ONCE $REQUESTER 'disk $ASKS 'fails_input_1 'args_run_k_s_0_p 'unasked 'status_0^+$LINE2+$SENDS+'unasked_port_stream_disk_input^
top $KEYS $REQUESTER 'disk $ASKS 'fails_link_1 'fails_input_1 'args_serve_--tcp_k_p 'unasked \
  'status_7^says_link_failed^unasked_link_stream_disk_input_fresh^
top $KEYS $REQUESTER 'disk $ASKS 'fails_link_1 'fails_input_1 'args_serve_--ledger_f_--tcp_k_p 'unasked \
  $NONE+'unasked_link_port_stream_input_fresh^
top $KEYS $REQUESTER 'disk $ASKS 'fails_link_1 'fails_input_1 'args_serve_k_nofile 'unasked \
  'status_9^says_no_such_file:_nofile^unasked_link_port_stream_disk_input_fresh^
";

#[test]
fn a_session_is_joined_once_over_a_ledger(rt: HostRuntime) -> Result<(), &'static str> {
    hold(rt.alloc(), &Top, &[NAMES, JOINS])
}

const JOINS: &str = "
# To make the ledger takes four calls of the disk, to open it four more, and to add the join four. A start joins, and so does a delivery. If the
# disk fails, the line has no answer and no frame goes out; who begins anew after a crash joins.

let MAKE 'args_ledger_book
let MADE 'status_0^ledger_made^
let SERVE 'args_serve_--ledger_book_k_p
let UNKNOWN 'unknown_s1^
let ASKS 'asks_turn_s1^start_pair_1_a,b^act_s1_Request^
let SENT 'status_0^+$UNKNOWN+$LINE2+$SENDS
let FAILED 'status_11^says_disk_failed^
top $KEYS $REQUESTER 'disk_4 $MAKE $ASKS $SERVE 'crash $ASKS $SERVE $MADE+$FAILED+$SENT
top $KEYS $REQUESTER 'disk_5 $MAKE $ASKS $SERVE 'crash $ASKS $SERVE $MADE+$FAILED+$SENT
top $KEYS $REQUESTER 'disk_6 $MAKE $ASKS $SERVE 'crash $ASKS $SERVE $MADE+$FAILED+$SENT
top $KEYS $REQUESTER 'disk_7 $MAKE $ASKS $SERVE 'crash $ASKS $SERVE $MADE+$FAILED+$SENT
top $KEYS $REQUESTER 'disk_8 $MAKE $ASKS $SERVE 'crash $ASKS $SERVE $MADE+$FAILED+$UNKNOWN+$SENT
top $KEYS $REQUESTER 'disk_9 $MAKE $ASKS $SERVE 'crash $ASKS $SERVE $MADE+$FAILED+$UNKNOWN+$SENT
top $KEYS $REQUESTER 'disk_10 $MAKE $ASKS $SERVE 'crash $ASKS $SERVE $MADE+$FAILED+$UNKNOWN+$SENT
top $KEYS $REQUESTER 'disk_11 $MAKE $ASKS $SERVE 'crash $ASKS $SERVE $MADE+$FAILED+$UNKNOWN+$SENT
let HEARS 'asks_turn_s1^recv^turn_s1^
let COMES 'comes_+$FRAME1
let HEARD 'status_0^+$UNKNOWN+'1_b_s1_received_Request_time_1^turn_s1_at_n1:_Reply^
top $KEYS_OF_B $REPLIER 'disk_8 $MAKE $COMES $HEARS $SERVE 'crash $COMES $HEARS $SERVE $MADE+$FAILED+$UNKNOWN+$HEARD
top $KEYS_OF_B $REPLIER 'disk_9 $MAKE $COMES $HEARS $SERVE 'crash $COMES $HEARS $SERVE $MADE+$FAILED+$UNKNOWN+$HEARD
top $KEYS_OF_B $REPLIER 'disk_10 $MAKE $COMES $HEARS $SERVE 'crash $COMES $HEARS $SERVE $MADE+$FAILED+$UNKNOWN+$HEARD
top $KEYS_OF_B $REPLIER 'disk_11 $MAKE $COMES $HEARS $SERVE 'crash $COMES $HEARS $SERVE $MADE+$FAILED+$UNKNOWN+$HEARD

# A join is kept before its answer is written and before a frame of its session goes out: who begins anew with the same random bytes is refused.

let UNSENT $LINE1+'unsent_2_a_s1_sent_Request_time_1_to_b_as_f1^
let JOINED 'status_0^+$UNKNOWN+'1_a_refused_joined^+$UNKNOWN
top $KEYS $REQUESTER 'disk $MAKE $ASKS $SERVE 'crash $ASKS $SERVE $MADE+$SENT+$JOINED
top $KEYS $REQUESTER 'disk $MAKE $ASKS 'fails_link_2 $SERVE 'crash $ASKS $SERVE $MADE+'status_0^+$UNKNOWN+$UNSENT+$JOINED
top $KEYS $REQUESTER 'disk $MAKE $ASKS 'room_11 $SERVE 'crash $ASKS $SERVE $MADE+'status_6^+$UNKNOWN+$JOINED
";

#[test]
fn no_delivery_is_lost_between_silences(rt: HostRuntime) -> Result<(), &'static str> {
    hold(rt.alloc(), &Top, &[NAMES, WAITS])
}

const WAITS: &str = "
# A wait with a limit takes a silence or a delivery, and one without takes silences off until there is a delivery. What a failing link has is still to
# come.

let SERVE 'args_serve_k_p
let COMES 'comes_+$FRAME1
let RECEIVED '1_b_s1_received_Request_time_1^
top $KEYS_OF_B $REPLIER 'silence $COMES 'silence $COMES 'silence \
  'asks_recv_5^recv^turn_s1^act_s1_Reply^recv_5^recv_5^turn_s1^recv^recv_5^ $SERVE \
  'status_0^quiet^+$RECEIVED+'turn_s1_at_n1:_Reply^2_b_s1_sent_Reply_time_2_to_a_as_f1^quiet^3_b_refused_joined^over_s1^quiet^quiet^\
  sends_+$TO_A+$REPLY+'^
top $KEYS_OF_B $REPLIER 'silence 'silence $COMES 'asks_recv^recv_0^ $SERVE 'status_0^+$RECEIVED+'quiet^
top $KEYS_OF_B $REPLIER $COMES 'fails_link_2 'asks_recv^recv^ $SERVE 'status_0^link_failed^+$RECEIVED
top $KEYS_OF_B $REPLIER 'silence $COMES 'fails_link_2 'asks_recv_5^recv_0^recv_5^ $SERVE 'status_0^link_failed^quiet^+$RECEIVED
top $KEYS $REQUESTER 'silence 'comes_+$REPLY 'asks_start_pair_1_a,b^act_s1_Request^recv_5^recv_5^turn_s1^again_s1^ $SERVE \
  'status_0^+$LINE2+'quiet^3_a_s1_received_Reply_time_2^over_s1^again_f1_to_b^+$SENDS+$SENDS
";
