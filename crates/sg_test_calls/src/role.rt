//! The numbers of the views that frames show to a role, which no command writes.
use sg_base::{Addr, ByteOut, Label, Name, Value, Var};
use sg_cache::Cache;
use sg_compile::load;
use sg_crypt::{Cast, Notes};
use sg_frame::decode;
use sg_keys::Keyring;
use sg_program::Program;
use sg_role::{Await, Before, Sent, Turn, TurnOrDone, examine};
use sg_table::{Calls, hold, parts};
use std::alloc::Global;

struct Numbers;

// What a role is between two moves.
#[derive(Drop)]
enum State<'p> {
    Waits(Await<'p>),
    Turns(Turn<'p>),
}

impl Calls for Numbers {
    fn answer(&self, alloc: Global, call: &str, args: &[Vec<u8>]) -> Option<Vec<u8>> {
        let _ = call;
        let [text, cast, keys, moves @ ..] = args else {
            return None;
        };
        let program = load(alloc, text).ok()?;
        shown(alloc, &program, cast, keys, moves)
    }
}

// The numbers of the views that the moves of a role show it, in a session with the nonce 7.
fn shown(
    alloc: Global,
    program: &Program,
    cast: &[u8],
    keys: &[u8],
    moves: &[Vec<u8>],
) -> Option<Vec<u8>> {
    let names = names_of(alloc, cast)?;
    let keys = keyring(alloc, program, names.as_slice(), keys)?;
    let mut state = joined(alloc, program, names.as_slice())?;
    let mut out = ByteOut::new(alloc);
    for next in moves {
        state = moved(alloc, &keys, state, next, &mut out)?;
    }
    Some(out.done())
}

fn names_of(alloc: Global, cast: &[u8]) -> Option<Vec<Name>> {
    let words = parts(alloc, cast)?;
    let mut names = Vec::new(alloc);
    for word in words.as_slice() {
        names.push(Name::new(word.as_bytes())?).ok()?;
    }
    Some(names)
}

// The role's principal shares with each other one a key of equal bytes.
fn keyring(alloc: Global, program: &Program, names: &[Name], bytes: &[u8]) -> Option<Keyring> {
    let addr = Addr {
        ip: [127, 0, 0, 1],
        port: 4001,
    };
    let me = program.role().0 as usize;
    let mut keys = Keyring::new(alloc, *names.get(me)?, addr);
    for at in 0..names.len() {
        if at != me {
            keys.add(alloc, names[at], addr, [*bytes.get(at)?; 32])
                .ok()?;
        }
    }
    Some(keys)
}

// The role waits for a first frame.
fn joined<'p>(alloc: Global, program: &'p Program, names: &[Name]) -> Option<State<'p>> {
    if names.len() != program.graph().roles() as usize {
        return None;
    }
    let mut nonce = [0; 16];
    nonce[15] = 7;
    let cast = Cast::new(1, *program.digest(), nonce, names)?;
    let before = Before::start(alloc, program, cast).ok()?;
    let mut cache = Cache::new(alloc);
    let ticket = cache.claim(before.sid(), before.role()).ok()?;
    match Await::join(ticket, before) {
        Ok(waiting) => Some(State::Waits(waiting)),
        Err((ticket, _)) => {
            ticket.give_up();
            None
        }
    }
}

fn moved<'p>(
    alloc: Global,
    keys: &Keyring,
    state: State<'p>,
    next: &[u8],
    out: &mut ByteOut,
) -> Option<State<'p>> {
    match state {
        State::Waits(waiting) => taken(alloc, keys, waiting, next, out),
        State::Turns(turn) => sent(alloc, keys, turn, next),
    }
}

// Takes a frame, and writes the number of the view that it shows.
fn taken<'p>(
    alloc: Global,
    keys: &Keyring,
    waiting: Await<'p>,
    bytes: &[u8],
    out: &mut ByteOut,
) -> Option<State<'p>> {
    let before = waiting.before();
    let frame = decode(alloc, bytes).ok()?;
    if frame.version != before.cast().version() {
        return None;
    }
    let mut notes = Notes::new(alloc);
    let accepted = examine(alloc, before, keys, &frame, bytes, &mut notes).ok()?;
    let view = accepted.view().0;
    write!(out, "{view};").ok()?;
    let (_event, next) = waiting.accept(accepted).ok()?;
    match next {
        TurnOrDone::Turn(turn) => Some(State::Turns(turn)),
        TurnOrDone::Done(_) => None,
    }
}

// Sends a step: its label, and the variable that it writes with its value.
fn sent<'p>(alloc: Global, keys: &Keyring, turn: Turn<'p>, step: &[u8]) -> Option<State<'p>> {
    let [label, var, value] = step else {
        return None;
    };
    let label = Label(u16::from(*label));
    let values = [(Var(*var), Value::Int(i64::from(*value)))];
    let mut notes = Notes::new(alloc);
    match turn
        .send(alloc, keys, label, &values, &[[0; 16]], &mut notes)
        .ok()?
    {
        Sent::Waiting(waiting, _, sealed) => {
            let _ = sealed.release();
            Some(State::Waits(waiting))
        }
        Sent::Ended(_, _, sealed) => {
            let _ = sealed.release();
            None
        }
    }
}

#[test]
fn frames_show_views_by_their_numbers(rt: HostRuntime) -> Result<(), &'static str> {
    hold(rt.alloc(), &Numbers, &[LINES])
}

const LINES: &str = "
# The shop's warehouse: two orders are passed on to it, and it answers the first one, along the edge 2, by a price of 40 with a confounder of zeros.

let SHOP 'graph_shop;^role_c;^role_p;^role_w;^var_q:_text_by_c;^var_price:_int_by_w;^
let SHOP $SHOP+'node_n0:_c;^node_n1:_p;^node_n2:_w;^node_n3:_p;^node_n4:_c;^node_n5:_p;^node_n6:_c;^node_n7:_p;^
let SHOP $SHOP+'edge_Order:_n0_->_n1_writes_q_reads_q;^edge_Ask:_n1_->_n2_reads_q;^
let SHOP $SHOP+'edge_Offer:_n2_->_n3_writes_price_reads_price;^edge_Refuse:_n2_->_n5;^edge_Pass:_n3_->_n4_reads_price;^
let SHOP $SHOP+'edge_Deny:_n5_->_n6;^edge_Retry:_n4_->_n1_writes_q_reads_q;^edge_Accept:_n4_->_n7;^
let TABLE 'table^turn_n2:_Offer_Refuse^view_start:_Order/00000001_Ask/00000000^view_Offer:_Retry/00000001_Ask/00000000^end^
let WAREHOUSE 'sg-program_1^role_w^+$SHOP+$TABLE

# Both frames: to the receiver; in the first one the digest, the nonce and the principals; the steps Order or Retry, with a commitment and a tag, and
# Ask; the opening; the tag.

let SID 24d279cdf3900d29ff7956b2033ce9cead9aff2157a88ba7651866946fcc81e4
let JOIN 881c67cddeba1fa0c350b5b486954f6cb59864b1a380e7d43a3f161c6c614cd2+15*00+07+03+05+'alice+03+'bob+04+'carl
let ORDER 000000000001+0100+99a547f01e5f7c7dbc1c09eb4c0294015bd12a7e534115e81ee75bb0f8a8bccf
let ORDER 00+$ORDER+01+02+d03807e5eb26da7c320c2af3a443197239e2909a5156ff33baf260aa14a98f52
let TEA 01+00+7*00+02+8*00+01+00000003+'tea
let ASK 'SGF1+00+$SID+01+02+$JOIN+0002+$ORDER+01+0001+00000002+0000+$TEA
let ASK $ASK+68d996a36e739c3479e406f40162528ee4bc31fa300cf6baa842e27ddaf80770
let RETRY 00+0006+00000005+0100+54363ea3019c63a0c35a0e00a24f6707ca7b1e30a5cc4a0c153a1f4c8f4d69e5
let RETRY $RETRY+01+02+0256995e1cece41e760b34445d11127afc75013017becf9ea3b1f13315d00844
let GREEN 01+00+7*00+0a+8*00+01+00000009+'green_tea
let AGAIN 'SGF1+01+$SID+01+02+0002+$RETRY+01+0001+00000006+0000+$GREEN
let AGAIN $AGAIN+7342179796983bf040c0c86d1a2b865db53d87a125416ff340e6177bd1dac62c
views $WAREHOUSE 'alice,bob,carl 223300 $ASK '0;
views $WAREHOUSE 'alice,bob,carl 223300 $ASK 020128 $AGAIN '0;1;
";
