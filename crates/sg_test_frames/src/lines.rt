//! How values are written, and what sessions are called.
use crate::crypt::texts::typed;
use sg_base::{ByteOut, Name, OutOfMemory, Sid};
use sg_table::{Calls, Target, answers, hold};
use sg_text::{SessionNames, put_value};
use std::alloc::Global;

struct Values;

impl Calls for Values {
    fn answer(&self, alloc: Global, call: &str, args: &[Vec<u8>]) -> Option<Vec<u8>> {
        if call == "sessions" {
            let names = SessionNames::new(alloc, b'x');
            return answers(alloc, &mut Sessions { names }, args);
        }
        let [kind, value] = args else {
            return None;
        };
        let value = typed(alloc, kind, value)?;
        let mut out = ByteOut::new(alloc);
        put_value(&mut out, &value).ok()?;
        Some(out.done())
    }
}

// The names of sessions.
#[derive(Drop)]
struct Sessions {
    names: SessionNames,
}

// A call is `?` and a session, which asks for its name; a session that is met; or a session and the name that it is declared with. In the end all
// sessions come in order. The bytes of an identifier are all the same, and a call has one of them.
impl Target for Sessions {
    fn call(&mut self, alloc: Global, out: &mut ByteOut, word: &[u8]) -> Option<()> {
        match word {
            [b'?', sid] => put_name(out, self.names.name_of(&Sid([*sid; 32]))).ok(),
            [sid] => self.names.meet(alloc, Sid([*sid; 32])).ok(),
            [sid, name @ ..] => {
                let sid = Sid([*sid; 32]);
                self.names.declare(Name::new(name)?, sid).ok()
            }
            [] => None,
        }
    }

    fn end(&self, out: &mut ByteOut) -> Result<(), OutOfMemory> {
        for index in 0..self.names.len() {
            if let Some((sid, name)) = self.names.at(index) {
                out.bytes(&sid.0)?;
                put_name(out, Some(name))?;
            }
        }
        Ok(())
    }
}

fn put_name(out: &mut ByteOut, name: Option<Name>) -> Result<(), OutOfMemory> {
    match name {
        Some(name) => write!(out, "{name},"),
        None => out.bytes(b"none,"),
    }
}

#[test]
fn values_and_sessions(rt: HostRuntime) -> Result<(), &'static str> {
    hold(rt.alloc(), &Values, &[LINES])
}

const LINES: &str = "
# Values: a number, and a text, which stands between quotes.

value 00 ffffffffffffffd8 '-40
value 01 'green_tea_\"\\ '\"green\\x20tea\\x20\\x22\\x5c\"

# Sessions are called by their first declaration, or by their first event: session 2 is declared twice, and 7 and 8 are met without being declared.

sessions 01+'one 02+'two 02+'again 08 02 07 08 '?+01 '?+02 '?+08 '?+07 '?+09 \
  'one,two,x1,x2,none,+32*01+'one,+32*02+'two,+32*08+'x1,+32*07+'x2,
";
