//! The pairs of session and role that were joined.
use sg_base::{ByteOut, Role, Sid};
use sg_cache::Cache;
use sg_table::{Calls, Target, answers, hold};
use std::alloc::Global;

struct Caches;

impl Calls for Caches {
    fn answer(&self, alloc: Global, call: &str, args: &[Vec<u8>]) -> Option<Vec<u8>> {
        let _ = call;
        let cache = Cache::new(alloc);
        answers(alloc, &mut Joins { cache }, args)
    }
}

#[derive(Drop)]
struct Joins {
    cache: Cache,
}

// A call is `room`, for one more pair; a session and a role, which are claimed; `?` and these, whether they are there; or `count`. The bytes of a
// session are all the same, and a call has one of them.
impl Target for Joins {
    fn call(&mut self, alloc: Global, out: &mut ByteOut, word: &[u8]) -> Option<()> {
        let _ = alloc;
        match word {
            b"room" if self.cache.len() < 65_536 => self.cache.reserve().ok(),
            b"count" => {
                let count = self.cache.len();
                write!(out, "{count}").ok()
            }
            [sid, role] => put_claimed(&mut self.cache, out, Sid([*sid; 32]), Role(*role)),
            [b'?', sid, role] => {
                let has = self.cache.has(&Sid([*sid; 32]), Role(*role));
                write!(out, "{has},").ok()
            }
            _ => None,
        }
    }
}

// Claims a pair, whose ticket must be of the same pair.
fn put_claimed(cache: &mut Cache, out: &mut ByteOut, sid: Sid, role: Role) -> Option<()> {
    match cache.claim(sid, role) {
        Ok(ticket) => {
            if ticket.spend() != (sid, role) {
                return None;
            }
            out.bytes(b"claimed,").ok()
        }
        Err(fault) => write!(out, "{fault},").ok(),
    }
}

#[test]
fn a_pair_is_claimed_once(rt: HostRuntime) -> Result<(), &'static str> {
    hold(rt.alloc(), &Caches, &[LINES])
}

const LINES: &str = "
joins 'room 0701 0701 0700 '?+0700 '?+0702 'count 'claimed,joined_already,claimed,true,false,2
";
