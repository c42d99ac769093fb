//! What several tables name.

/// Keys, programs, scripts and frames of two principals.
pub const NAMES: &str = "
# A principal a, who requests, and b, who replies: their keys, programs and scripts.

let KEY 'key_=_\"+64*31+'\"^
let KEYS 'beside_k_me_=_\"a\"^listen_=_\"127.0.0.1:4001\"^[[peer]]^name_=_\"b\"^addr_=_\"127.0.0.1:4002\"^+$KEY
let KEYS_OF_B 'beside_k_me_=_\"b\"^listen_=_\"127.0.0.1:4002\"^[[peer]]^name_=_\"a\"^addr_=_\"127.0.0.1:4001\"^+$KEY
let GRAPH 'graph_pair;^role_a;^role_b;^node_n0:_a;^node_n1:_b;^node_n2:_a;^edge_Request:_n0_->_n1;^edge_Reply:_n1_->_n2;^
let TABLE 'table^turn_n0:_Request^turn_n2:^view_Request:_Reply/00000000^end^
let REQUESTER 'beside_p_sg-program_1^role_a^+$GRAPH+$TABLE
let TABLE 'table^turn_n1:_Reply^view_start:_Request/00000000^end^
let REPLIER 'beside_p_sg-program_1^role_b^+$GRAPH+$TABLE
let START '[[start]]^graph_=_\"pair\"^cast_=_[\"a\",_\"b\"]^
let REQUEST '[[choice]]^graph_=_\"pair\"^node_=_\"n0\"^label_=_\"Request\"^values_=_{}^
let ONCE 'beside_s_+$START+$REQUEST+'times_=_1^
let TWICE 'beside_s_+$START+$START+$REQUEST+'times_=_2^
let REPLIES 'beside_s_[[choice]]^graph_=_\"pair\"^node_=_\"n1\"^label_=_\"Reply\"^

# What a has said when it has started a session, and requested in it; and once more.

let LINE1 '1_a_s1_started_as_a^
let LINE2 $LINE1+'2_a_s1_sent_Request_time_1_to_b_as_f1^
let LINE3 $LINE2+'3_a_s2_started_as_a^
let LINE4 $LINE3+'4_a_s2_sent_Request_time_1_to_b_as_f2^

# The identifiers of these two sessions, whose nonces are drawn first and second; the frames that request in them, and the one that replies in the
# first; and where they go.

let SID 61ec5a5ee619eec2f4086089fb1d042c460cd0abed521c9a4864532b255a7af0
let SID2 ff5f8d4bb1ee7e6cb756dfb519a3685816872b62c717ab2e2bc4ffbb1f99f420
let DIGEST a50909945ba18a502fe69beb2e25ce8bc1b8184e659e396a87bab2bb9467999c
let CAST 02+01+'a+01+'b
let ITEM 0001+00+0000+00000001+00+00+00
let TAG ce68d66d67081b668ad3bcdbd9c8121328b25db0300213f94774899e7ee89602
let FRAME1 'SGF1+00+$SID+0001+$DIGEST+f400927857aaf64114f561baacb37970+$CAST+$ITEM+$TAG
let TAG f1975131ff8bae5188de68b9189b14c2c80c756a3a287f38719a0cd7875ce6ef
let FRAME2 'SGF1+00+$SID2+0001+$DIGEST+8c79a1dc1476ab573216a4020764bde5+$CAST+$ITEM+$TAG
let TAG d24f237124b819400e5def582adb2916d8f52f9937c6deb109e9d5c8e57a836c
let REPLY 'SGF1+01+$SID+0100+0001+01+0001+00000002+00+00+00+$TAG
let TO_A 7f000001+0fa1
let TO_B 7f000001+0fa2
let SENDS 'sends_+$TO_B+$FRAME1+'^
";
