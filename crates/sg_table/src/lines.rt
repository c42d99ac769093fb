//! Lines, and the bytes that their words spell.
use crate::calls::Calls;
use crate::words::number;
use std::alloc::Global;

// Bytes that a line has named.
#[derive(Drop)]
struct Named<'t> {
    name: &'t str,
    bytes: Vec<u8>,
}

/// Compares what each line answers with what must come. A text may use the names of those before it. The error is the first line that doesn't hold.
pub fn hold<'t, C: Calls>(alloc: Global, calls: &C, texts: &[&'t str]) -> Result<(), &'t str> {
    let mut named = Vec::new(alloc);
    for text in texts {
        text_holds(alloc, calls, &mut named, *text)?;
    }
    Ok(())
}

fn text_holds<'t, C: Calls>(
    alloc: Global,
    calls: &C,
    named: &mut Vec<Named<'t>>,
    text: &'t str,
) -> Result<(), &'t str> {
    for line in text.lines() {
        let Some(true) = line_holds(alloc, calls, named, line) else {
            return Err(line);
        };
    }
    Ok(())
}

// Whether the answer comes that must come, if the line has one.
fn line_holds<'t, C: Calls>(
    alloc: Global,
    calls: &C,
    named: &mut Vec<Named<'t>>,
    line: &'t str,
) -> Option<bool> {
    let Some((call, rest)) = line.split_once(' ') else {
        return Some(line.is_empty());
    };
    match call {
        "#" => Some(true),
        "let" => name_bytes(alloc, named, rest),
        _ => {
            let mut words = words_of(alloc, named, rest)?;
            let wanted = words.pop()?;
            let answer = calls.answer(alloc, call, &words)?;
            Some(answer.as_slice() == wanted.as_slice())
        }
    }
}

// Gives a name to the bytes of a word.
fn name_bytes<'t>(alloc: Global, named: &mut Vec<Named<'t>>, rest: &'t str) -> Option<bool> {
    let (name, word) = rest.split_once(' ')?;
    let bytes = bytes_of(alloc, named, word)?;
    named.push(Named { name, bytes }).ok()?;
    Some(true)
}

fn words_of(alloc: Global, named: &[Named<'_>], line: &str) -> Option<Vec<Vec<u8>>> {
    let mut words = Vec::new(alloc);
    for word in line.split(' ') {
        words.push(bytes_of(alloc, named, word)?).ok()?;
    }
    Some(words)
}

fn bytes_of(alloc: Global, named: &[Named<'_>], word: &str) -> Option<Vec<u8>> {
    let mut bytes = Vec::new(alloc);
    for piece in word.split('+') {
        put_piece(alloc, named, &mut bytes, piece)?;
    }
    Some(bytes)
}

fn put_piece(alloc: Global, named: &[Named<'_>], bytes: &mut Vec<u8>, piece: &str) -> Option<()> {
    if let Some(text) = piece.strip_prefix('\'') {
        put_text(bytes, text)
    } else if let Some(name) = piece.strip_prefix('$') {
        bytes.extend_from_slice(found(named, name)?).ok()
    } else if let Some((count, digits)) = piece.split_once('*') {
        put_digits(alloc, bytes, number(count.as_bytes())?, digits)
    } else {
        put_digits(alloc, bytes, 1, piece)
    }
}

fn put_text(bytes: &mut Vec<u8>, text: &str) -> Option<()> {
    for byte in text.as_bytes() {
        let byte = match *byte {
            b'_' => b' ',
            b'^' => b'\n',
            other => other,
        };
        bytes.push(byte).ok()?;
    }
    Some(())
}

fn put_digits(alloc: Global, bytes: &mut Vec<u8>, count: u32, digits: &str) -> Option<()> {
    let once = hex::decode(alloc, digits).ok()?;
    for _ in 0..count {
        bytes.extend_from_slice(&once).ok()?;
    }
    Some(())
}

// The bytes of a name, by the last line that gave it to some.
fn found<'n>(named: &'n [Named<'_>], name: &str) -> Option<&'n [u8]> {
    for one in named.iter().rev() {
        if one.name == name {
            return Some(one.bytes.as_slice());
        }
    }
    None
}
