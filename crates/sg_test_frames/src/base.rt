//! Fields of bytes, names, texts, lists and sets, and what words spell.
use sg_base::{
    ByteIn, ByteOut, Chars, CharsFault, Name, Opening, OutOfMemory, Role, RoleSet, Seq, Short,
    Value, Var, VarSet, read_hex, read_number,
};
use sg_table::{Args, Calls, Target, answers, bytes, hold, number, text, yes};
use std::alloc::Global;

struct Base;

impl Calls for Base {
    fn answer(&self, alloc: Global, call: &str, words: &[Vec<u8>]) -> Option<Vec<u8>> {
        if call == "in" {
            return read_fields(alloc, words);
        }
        let mut args = Args::new(words);
        let answer = match call {
            "out" => written(alloc, args.byte(), args.fixed(), args.fixed(), args.word()),
            "list" => truncated(alloc, args.byte(), args.byte(), args.number()),
            "roles" => has_role(alloc, args.word(), args.byte()),
            "vars" => has_var(alloc, args.word(), args.byte()),
            "number" => read(alloc, args.word(), u64::from_be_bytes(args.fixed())),
            _ => of_word(alloc, call, args.word()),
        };
        args.gives(answer)
    }
}

fn read_fields(alloc: Global, words: &[Vec<u8>]) -> Option<Vec<u8>> {
    let (word, fields) = words.split_first()?;
    let bytes = ByteIn::new(word);
    answers(alloc, &mut Fields { bytes }, fields)
}

fn of_word(alloc: Global, call: &str, word: &[u8]) -> Option<Vec<u8>> {
    match call {
        "hex" => match read_hex::<3>(word) {
            Some(read) => bytes(alloc, &read),
            None => bytes(alloc, b"none"),
        },
        "name" => match Name::new(word) {
            Some(name) if name.reserved() => bytes(alloc, b"reserved"),
            Some(_) => bytes(alloc, b"plain"),
            None => bytes(alloc, b"none"),
        },
        "chars" => of_chars(alloc, Chars::new(alloc, word)),
        _ => copied(alloc, Chars::new(alloc, word).ok()?),
    }
}

// Bytes that are read.
#[derive(Drop)]
struct Fields<'f> {
    bytes: ByteIn<'f>,
}

// A call is how many bytes the next field has: `u8`, `u16` and `u32` are numbers, and others are bytes. In the end comes the position.
impl<'f> Target for Fields<'f> {
    fn call(&mut self, alloc: Global, out: &mut ByteOut, word: &[u8]) -> Option<()> {
        let _ = alloc;
        match word {
            b"u8" => put_field(out, self.bytes.u8().map(u32::from)),
            b"u16" => put_field(out, self.bytes.u16().map(u32::from)),
            b"u32" => put_field(out, self.bytes.u32()),
            _ => match self.bytes.bytes(number(word)? as usize) {
                Ok(field) => out.bytes(field).ok(),
                Err(short) => write!(out, "{short},").ok(),
            },
        }
    }

    fn end(&self, out: &mut ByteOut) -> Result<(), OutOfMemory> {
        let at = self.bytes.at();
        write!(out, "at {at}")
    }
}

fn put_field(out: &mut ByteOut, field: Result<u32, Short>) -> Option<()> {
    match field {
        Ok(value) => write!(out, "{value},").ok(),
        Err(short) => write!(out, "{short},").ok(),
    }
}

// Fields one behind the other: of a byte, of two, of four, and bytes.
fn written(alloc: Global, a: u8, b: [u8; 2], c: [u8; 4], d: &[u8]) -> Option<Vec<u8>> {
    let mut out = ByteOut::new(alloc);
    out.u8(a).ok()?;
    out.u16(u16::from_be_bytes(b)).ok()?;
    out.u32(u32::from_be_bytes(c)).ok()?;
    out.bytes(d).ok()?;
    Some(out.done())
}

fn read(alloc: Global, word: &[u8], most: u64) -> Option<Vec<u8>> {
    match read_number(word, most) {
        Some(number) => text(alloc, &number),
        None => bytes(alloc, b"none"),
    }
}

// The bytes of a text, or why they are none.
fn of_chars(alloc: Global, chars: Result<Chars, CharsFault>) -> Option<Vec<u8>> {
    match chars {
        Ok(chars) => bytes(alloc, chars.as_bytes()),
        Err(fault) => text(alloc, &fault),
    }
}

// Whether the copy of an opening of a text is equal to it, and to no number.
fn copied(alloc: Global, chars: Chars) -> Option<Vec<u8>> {
    let opening = Opening {
        var: Var(3),
        confounder: [7; 16],
        value: Value::Text(chars),
    };
    let copy = opening.copy(alloc).ok()?;
    let same = copy.value.same(&opening.value) && !copy.value.same(&Value::Int(3));
    yes(
        alloc,
        same && copy.var == Var(3) && copy.confounder == [7; 16],
    )
}

// A list of two bytes, of which so many are kept.
fn truncated(alloc: Global, one: u8, other: u8, count: u32) -> Option<Vec<u8>> {
    let mut list = Seq::new(alloc);
    list.push(one).ok()?;
    list.push(other).ok()?;
    list.truncate(count as usize);
    bytes(alloc, list.as_slice())
}

// The bits of a set of roles, and whether it has one.
fn has_role(alloc: Global, members: &[u8], asked: u8) -> Option<Vec<u8>> {
    let mut roles = RoleSet::empty();
    for member in members {
        if *member > 15 {
            return None;
        }
        roles = roles.with(Role(*member));
    }
    let RoleSet(bits) = roles;
    let has = roles.has(Role(asked));
    text(alloc, &format_args!("{bits:x} {has}"))
}

// The same of variables.
fn has_var(alloc: Global, members: &[u8], asked: u8) -> Option<Vec<u8>> {
    let mut vars = VarSet::empty();
    for member in members {
        if *member > 31 {
            return None;
        }
        vars = vars.with(Var(*member));
    }
    let VarSet(bits) = vars;
    let has = vars.has(Var(asked));
    text(alloc, &format_args!("{bits:x} {has}"))
}

#[test]
fn fields_names_texts_and_sets(rt: HostRuntime) -> Result<(), &'static str> {
    hold(rt.alloc(), &Base, &[LINES])
}

const LINES: &str = "
# Fields of bytes. One that is cut short is told with its offset, and the position stays.

in ' 'u8 'a_field_at_0_is_cut_short,at_0
in 'ab 'u8 'u16 'u8 '97,a_field_at_1_is_cut_short,98,at_2
in 00+'abc 'u8 'u32 '4 'u16 '0,a_field_at_1_is_cut_short,a_field_at_1_is_cut_short,24930,at_3
out 01 0203 04050607 'x 01020304050607+'x

# Names, of which some words are reserved.

name 'writes 'reserved
name 'written+5f+'2 'plain
name ' 'none
name '2a 'none
name 5f+'a 'none
name 'a-b 'none
name 33*61 'none
name 32*61 'plain

# Texts, and copies of them.

chars 1025*61 '1025_bytes,_of_at_most_1024
chars ff 'not_UTF-8
chars 1024*61 1024*61
copy 'gr+c3bc+'n 'yes

# A list that is cut, and sets: their bits, and whether they have a member.

list 01 02 '1 01
roles 020f 0f '8004_true
roles 020f 03 '8004_false
vars 1f 1f '80000000_true
vars 1f 20 '80000000_false

# Numbers of at most so much, and bytes, that words spell.

number '0 8*00 '0
number '18446744073709551615 8*ff '18446744073709551615
number ' 00000000000000ff 'none
number '256 00000000000000ff 'none
number '00 00000000000000ff 'none
number 2b+'1 00000000000000ff 'none
number '1_ 00000000000000ff 'none
number '18446744073709551616 00000000000000ff 'none
hex '00fFAa 00ffaa
hex '00fFA 'none
hex '00fF 'none
hex '00fFAaAa 'none
hex '0x00fF 'none
hex '00fF_g 'none
";
