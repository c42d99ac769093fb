//! Hashes, tags, the texts under them, and notes of these.
use crate::crypt::notes::Noted;
use sg_table::{Calls, answers, hold};
use std::alloc::Global;

pub mod notes;
mod tags;
pub mod texts;

struct Crypt;

impl Calls for Crypt {
    fn answer(&self, alloc: Global, call: &str, args: &[Vec<u8>]) -> Option<Vec<u8>> {
        match call {
            "notes" => answers(alloc, &mut Noted::new(alloc), args),
            "session_text" | "session_id" => texts::of_cast(alloc, call, args),
            "principal" => texts::principal(alloc, args),
            "commit_text" | "commit" => texts::of_opening(alloc, call, args),
            "graph_text" | "graph_digest" | "frame_text" => texts::of_text(alloc, call, args),
            "item_text" => texts::of_item(alloc, args),
            _ => tags::answer(alloc, call, args),
        }
    }
}

#[test]
fn hashes_tags_and_texts(rt: HostRuntime) -> Result<(), &'static str> {
    hold(rt.alloc(), &Crypt, &[LINES])
}

const LINES: &str = "
# SHA-256: of no bytes.

sha256 ' e3b0c44298fc1c149afbf4c8996fb92427ae41e4649b934ca495991b7852b855

# HMAC-SHA-256: tag KEY HEAD REST. The test cases 1, 2 and 6 of RFC 4231.

let ONE b0344c61d8db38535ca8afceaf0bf12b881dc200c9833da726e9376c2e32cff7
let TWO 5bdcc146bf60754e6a042426089575c75a003f089d2739839dec58b964ec3843
let SIX 60e431591ee0b67f0d8a26aacbf5b77f8e0bc6213728c5140546040f0ee37f54
let LONG 'Test_Using_Larger_Than_Block-Size_Key_-_Hash_Key_First
tag 20*0b 'Hi '_There $ONE
tag 'Jefe 'what_do_ya_want_ 'for_nothing? $TWO
tag 131*aa ' $LONG $SIX
tag_matches 'Jefe 'what_do_ya_want_ 'for_nothing? $TWO 'yes
tag_matches 'Jefe 'what_do_ya_want_ 'for_nothing? $ONE 'no

# The same, as a version sends them, which comes first: cut to sixteen bytes in version 2.

cut 02 20*0b 'Hi '_There b0344c61d8db38535ca8afceaf0bf12b+16*00
cut 02 'Jefe 'what_do_ya_want_ 'for_nothing? 5bdcc146bf60754e6a042426089575c7+16*00
cut 02 131*aa ' $LONG 60e431591ee0b67f0d8a26aacbf5b77f+16*00
cut_matches 02 20*0b 'Hi '_There b0344c61d8db38535ca8afceaf0bf12b+16*00 'yes
cut_matches 02 131*aa ' $LONG 60e431591ee0b67f0d8a26aacbf5b77f+16*00 'yes
cut_matches 01 131*aa ' $LONG 60e431591ee0b67f0d8a26aacbf5b77f+16*00 'no

# By a key that is ready. Test case 3 of RFC 4231 has a key of twenty bytes; zeros after it change nothing (RFC 2104 section 2).

let THREE 773ea91e36800e46854db8ebd09181a72959098b3ef8c122d9635514ced565fe
key_bytes 20*aa+12*00 20*aa+12*00
key_tag 20*aa+12*00 20*dd 30*dd $THREE
key_tag 20*aa+12*00 50*dd ' $THREE
key_cut_matches 01 20*aa+12*00 25*dd 25*dd $THREE 'yes
key_cut_matches 02 20*aa+12*00 25*dd 25*dd $THREE 'no

# The graph of a session: its canonical text, and its digest.

let SHOP 'graph_shop;^role_c;^role_p;^role_w;^var_q:_text_by_c;^var_price:_int_by_w;^
let SHOP $SHOP+'node_n0:_c;^node_n1:_p;^node_n2:_w;^node_n3:_p;^node_n4:_c;^node_n5:_p;^node_n6:_c;^node_n7:_p;^
let SHOP $SHOP+'edge_Order:_n0_->_n1_writes_q_reads_q;^edge_Ask:_n1_->_n2_reads_q;^
let SHOP $SHOP+'edge_Offer:_n2_->_n3_writes_price_reads_price;^edge_Refuse:_n2_->_n5;^edge_Pass:_n3_->_n4_reads_price;^
let SHOP $SHOP+'edge_Deny:_n5_->_n6;^edge_Retry:_n4_->_n1_writes_q_reads_q;^edge_Accept:_n4_->_n7;^
let DIGEST 881c67cddeba1fa0c350b5b486954f6cb59864b1a380e7d43a3f161c6c614cd2
graph_text $SHOP 'sg-graph-1+$SHOP
graph_digest $SHOP $DIGEST

# Its session with the nonce 7: alice is c, bob is p and carl is w. Alice orders tea; carl might offer a price of -2. The confounder of both has the
# bytes 33, and alice tags her order for carl by a key of bytes 22.

let NONCE 15*00+07
let NAMES 03+05+'alice+03+'bob+04+'carl
let CONFOUNDER 16*33

# session_text and session_id VERSION DIGEST NONCE PRINCIPALS, and principal ROLE before the same.
# commit_text and commit SID VARIABLE CONFOUNDER TYPE VALUE. item_text VERSION SID SENDER TARGET LABEL TIME, and two commitments or empty words.
# frame_text VERSION BYTES: all of a frame but its tag.

# In version 1.

let SID 24d279cdf3900d29ff7956b2033ce9cead9aff2157a88ba7651866946fcc81e4
session_text 01 $DIGEST $NONCE 'alice 'bob 'carl 'sg-session-1+$DIGEST+$NONCE+$NAMES
session_id 01 $DIGEST $NONCE 'alice 'bob 'carl $SID
principal 01 01 $DIGEST $NONCE 'alice 'bob 'carl 'bob
principal 03 01 $DIGEST $NONCE 'alice 'bob 'carl 'none
let TEA 0d86512a82007fd1040c8870e2884fe8f7876901d70f2b17d5ffdc9c53818619
let PRICE 1a80994ad752684eb802f50c76628a768d55717c65cfa61565c4ae700f12f3fd
commit_text $SID 00 $CONFOUNDER 01 'tea 'sg-commit-1+$SID+00+$CONFOUNDER+01+00000003+'tea
commit_text $SID 01 $CONFOUNDER 00 fffffffffffffffe 'sg-commit-1+$SID+01+$CONFOUNDER+00+00000008+fffffffffffffffe
commit $SID 00 $CONFOUNDER 01 'tea $TEA
commit $SID 01 $CONFOUNDER 00 fffffffffffffffe $PRICE
let ITEM 'sg-item-1+$SID+00+02+0000+00000001+01+$TEA+00
let TAG a1c987b69ca6c89cf00f67de6575bff31f5bdb19e4b7c32740687001e328539e
item_text 01 $SID 00 02 0000 00000001 $TEA ' $ITEM
cut 01 32*22 $ITEM ' $TAG
let BODY 'SGF1+00+$SID+00+01+$DIGEST+$NONCE+$NAMES+0001+00+0000+00000001+01+00+$TEA+01+02+$TAG+01+00+$CONFOUNDER+01+00000003+'tea
frame_text 01 $BODY 'sg-frame-1+$BODY

# In version 2.

let SID 62db83da2c46f71196a3042efdcf878bf0777c53022026d480ab4d2da925d52d
session_text 02 $DIGEST $NONCE 'alice 'bob 'carl 'sg-session-2+$DIGEST+$NONCE+$NAMES
session_id 02 $DIGEST $NONCE 'alice 'bob 'carl $SID
principal 01 02 $DIGEST $NONCE 'alice 'bob 'carl 'bob
principal 03 02 $DIGEST $NONCE 'alice 'bob 'carl 'none
let TEA 9f3218c7d08b1b3b05de180db0dec50004583414469836a549c43d729b88cca6
let PRICE d0a89b16bcd922573096be9e85f3ab9ccdaf57b724c8710e254e52dad8457c81
commit_text $SID 00 $CONFOUNDER 01 'tea 'sg-commit-1+$SID+00+$CONFOUNDER+01+00000003+'tea
commit_text $SID 01 $CONFOUNDER 00 fffffffffffffffe 'sg-commit-1+$SID+01+$CONFOUNDER+00+00000008+fffffffffffffffe
commit $SID 00 $CONFOUNDER 01 'tea $TEA
commit $SID 01 $CONFOUNDER 00 fffffffffffffffe $PRICE
let ITEM 'sg-item-2+$SID+00+02+0000+00000001+01+$TEA+00
let TAG fd701bdf51341b78b6f2fcd2ee3abed1
item_text 02 $SID 00 02 0000 00000001 $TEA ' $ITEM
cut 02 32*22 $ITEM ' $TAG+16*00
let BODY 'SGF2+00+$SID+00+01+$DIGEST+$NONCE+$NAMES+0001+00+0000+00000001+01+00+$TEA+01+02+$TAG+01+00+$CONFOUNDER+01+00000003+'tea
frame_text 02 $BODY 'sg-frame-2+$BODY

# Notes of texts that were made, found and hashed, each pair with the lesser name first. `count` tells how many there are of each, `mark` remembers
# it, `keep` keeps so many, and `clear` empties the lists; in the end come all that there are.

notes 'made,ab,a,one 'mark 'found,a,ab,two 'hashed,three 'made,a,ab,one;found,a,ab,two;hashed,three;
notes 'made,ab,a,one 'mark 'found,a,ab,two 'hashed,three 'count 'keep 'count '1,1,1;1,0,0;made,a,ab,one;
notes 'made,ab,a,one 'mark 'found,a,ab,two 'hashed,three 'keep 'clear 'count '0,0,0;
";
