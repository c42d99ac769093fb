//! Runs over connections in memory.
use crate::names::NAMES;
use crate::outside::Top;
use sg_table::hold;

#[test]
fn deliveries_are_the_messages_that_become_whole(rt: HostRuntime) -> Result<(), &'static str> {
    hold(rt.alloc(), &Top, &[NAMES, LINES])
}

// The first call of the other link would fail.
const LINES: &str = "
# A frame is given as a message, which has its length in front.

let GIVES 'gives_+$TO_B
let MESSAGE $GIVES+00000088+$FRAME1+'^
top $KEYS $ONCE $REQUESTER 'fails_link_1 'fails_stream_0 'args_stream_k_s_1_p 'status_0^+$LINE2+$MESSAGE

# Of three messages two are taken: one that comes in four pieces, and the first of two in one piece. What comes after a bad length is no delivery, and
# neither is what a connection leaves that ends.

top $KEYS $ONCE $REQUESTER 'fails_link_1 'fails_stream_0 \
  'piece_+00+00 'piece_+00+000003+'a 'piece_+01+0000ea61 'piece_+00+'b 'piece_+01+00000001+'y 'piece_+02+00000009+'SGF1 'piece_+02 'piece_+00+'c \
  'piece_+02+00000004+'SGF1+00000001+'z 'args_stream_k_s_2_p 'left_stream \
  'status_0^+$LINE2+'3_a_refused_malformed_at_0^4_a_refused_malformed_at_4^+$MESSAGE+'left_z^

# A run opens the connections, connects, gives the length and then the frame, and takes a piece. A connection is closed after a fault too.

let FAILED 'status_7^says_link_failed^
let RUN 'args_stream_k_s_1_p
top $KEYS $ONCE $REQUESTER 'fails_link_1 'fails_stream_1 $RUN $FAILED
top $KEYS $ONCE $REQUESTER 'fails_link_1 'fails_stream_2 $RUN $FAILED+$LINE1
top $KEYS $ONCE $REQUESTER 'fails_link_1 'fails_stream_3 $RUN $FAILED+$LINE1+$GIVES+'^
top $KEYS $ONCE $REQUESTER 'fails_link_1 'fails_stream_4 $RUN $FAILED+$LINE1+$GIVES+00000088+'^
top $KEYS $ONCE $REQUESTER 'fails_link_1 'fails_stream_5 $RUN $FAILED+$LINE2+$MESSAGE
top $KEYS $ONCE $REQUESTER 'fails_link_1 'fails_stream_6 $RUN 'status_0^+$LINE2+$MESSAGE
";
