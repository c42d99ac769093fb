//! Ledgers, and runs over them, on disks in memory.
use crate::names::NAMES;
use crate::outside::Top;
use sg_table::hold;

// The principal who requests; a run of it over a ledger, and what comes of that.
const NAMED: &str = "
let MAKE 'args_ledger_book
let KEEP 'args_keep_book_k_s_0_p
let MADE 'status_0^ledger_made^
let JOINS 'status_0^+$LINE2+$SENDS
let JOINED 'status_0^1_a_refused_joined^
let FAILED 'status_11^says_disk_failed^
";

#[test]
fn a_session_is_joined_once_over_restarts(rt: HostRuntime) -> Result<(), &'static str> {
    hold(rt.alloc(), &Top, &[NAMES, NAMED, RESTARTS])
}

const RESTARTS: &str = "
# The session is joined once, also after a crash, and the disk has its join: an open gate, its identifier and the role.

let STANDS 'stands_2228232_SGLEDG01+01+$SID+00+'^
top $KEYS $ONCE $REQUESTER 'disk $MAKE $KEEP 'stands $KEEP 'crash $KEEP 'stands $MADE+$JOINS+$STANDS+$JOINED+$JOINED+$STANDS

# To make the ledger takes four calls of the disk, to open it four more, and to add the join four. If one of these fails, the run says so, and nothing
# goes out. After a crash the session is joined.

top $KEYS $ONCE $REQUESTER 'disk_0 $MAKE $FAILED
top $KEYS $ONCE $REQUESTER 'disk_1 $MAKE $FAILED
top $KEYS $ONCE $REQUESTER 'disk_2 $MAKE $FAILED
top $KEYS $ONCE $REQUESTER 'disk_3 $MAKE $FAILED
top $KEYS $ONCE $REQUESTER 'disk_4 $MAKE $KEEP 'crash $KEEP $MADE+$FAILED+$JOINS
top $KEYS $ONCE $REQUESTER 'disk_5 $MAKE $KEEP 'crash $KEEP $MADE+$FAILED+$JOINS
top $KEYS $ONCE $REQUESTER 'disk_6 $MAKE $KEEP 'crash $KEEP $MADE+$FAILED+$JOINS
top $KEYS $ONCE $REQUESTER 'disk_7 $MAKE $KEEP 'crash $KEEP $MADE+$FAILED+$JOINS
top $KEYS $ONCE $REQUESTER 'disk_8 $MAKE $KEEP 'crash $KEEP $MADE+$FAILED+$JOINS
top $KEYS $ONCE $REQUESTER 'disk_9 $MAKE $KEEP 'crash $KEEP $MADE+$FAILED+$JOINS
top $KEYS $ONCE $REQUESTER 'disk_10 $MAKE $KEEP 'crash $KEEP $MADE+$FAILED+$JOINS
top $KEYS $ONCE $REQUESTER 'disk_11 $MAKE $KEEP 'crash $KEEP $MADE+$FAILED+$JOINS

# A crash after the write of the gate may leave it open, and then the join stands; one before that write leaves it closed.

top $KEYS $ONCE $REQUESTER 'disk_11 $MAKE $KEEP 'crash_+01 $KEEP $MADE+$FAILED+$JOINED
top $KEYS $ONCE $REQUESTER 'disk_10 $MAKE $KEEP 'crash_+01 $KEEP $MADE+$FAILED+$JOINS

# The join is kept before its line is written and its frame is sent.

top $KEYS $ONCE $REQUESTER 'disk $MAKE 'fails_out_1 $KEEP 'stands $KEEP $MADE+'status_6^+$STANDS+$JOINED
top $KEYS $ONCE $REQUESTER 'disk $MAKE 'fails_link_2 $KEEP 'stands $KEEP $MADE+'status_7^says_link_failed^+$LINE1+$STANDS+$JOINED
";

#[test]
fn each_refusal_of_a_ledger_is_reported_in_order(rt: HostRuntime) -> Result<(), &'static str> {
    hold(rt.alloc(), &Top, &[NAMES, NAMED, REFUSALS])
}

const REFUSALS: &str = "
# Files are read before the ledger is opened, and the link is opened after it. What is refused leaves the disk as it was: here the ledger is made, and
# then the session joined.

let NONE 'status_4^says_input_refused:_ledger_not_made^
let FULL 'status_4^says_input_refused:_ledger_not_empty^
top $KEYS $ONCE $REQUESTER 'disk $KEEP 'fails_link_1 $KEEP 'fails_err_1 $KEEP 'fails_files_3 $KEEP \
  $MAKE 'fails_link_1 $KEEP $MAKE 'fails_out_1 $MAKE $KEEP \
  $NONE+$NONE+'status_6^+'status_5^says_file_failed:_s^+$MADE+'status_7^says_link_failed^+$FULL+$FULL+$JOINS

# What is left of a ledger that was written and not synced may be anything: here the gate of slot 1 is open, and that of slot 0 isn't.

top $KEYS $ONCE $REQUESTER 'disk_3 $MAKE 'crash_SGLEDG01+34*00+01 $KEEP $FAILED+'status_4^says_input_refused:_ledger_slot_1^
";
