//! Answers of a few words.
ghost use Rattle.std.specs.Prelude.{◌≡◌, ◌++◌, ◌∷◌, [], OnOk};
ghost use Rattle.sg_text.specs.Sessions.{numbered};
ghost use Rattle.sg_answers.specs.Answers.{again_text, failed_text, hex_text, id_text, nothing_text, over_text, quiet_text, unknown_text, unsent_text, waits_text, wrong_text};

use sg_base::{ByteOut, Name, OutOfMemory, Sid};
use sg_text::hex_digit;

/// What is wrong with a line.
#[derive(Clone, Copy, PartialEq, Eq)]
pub enum Wrong {
    /// It is of no form.
    Form,
    /// There is no such graph, label or variable.
    Unknown,
    /// A variable is given twice.
    Twice,
}

/// Writes that the session of this number has had no line here.
pub fn put_unknown(out: &mut ByteOut, session: u32) -> Result<(), OutOfMemory>
    ensures { OnOk result (out.new ≡ out.old ++ unknown_text session) }
{
    put_named(out, b"unknown ", session)
}

/// Writes what is wrong with a line.
pub fn put_wrong(out: &mut ByteOut, wrong: Wrong) -> Result<(), OutOfMemory>
    ensures { OnOk result (out.new ≡ out.old ++ wrong_text wrong) }
{
    match wrong {
        Wrong::Form => out.bytes(b"wrong line: form\n"),
        Wrong::Unknown => out.bytes(b"wrong line: unknown\n"),
        Wrong::Twice => out.bytes(b"wrong line: twice\n"),
    }
}

/// Writes that no delivery came in time.
pub fn put_quiet(out: &mut ByteOut) -> Result<(), OutOfMemory>
    ensures { OnOk result (out.new ≡ out.old ++ quiet_text) }
{
    out.bytes(b"quiet\n")
}

/// Writes that the link could not give a delivery.
pub fn put_failed(out: &mut ByteOut) -> Result<(), OutOfMemory>
    ensures { OnOk result (out.new ≡ out.old ++ failed_text) }
{
    out.bytes(b"link failed\n")
}

/// Writes that the frame of this number went to the principal once more.
pub fn put_again(out: &mut ByteOut, frame: u64, to: &Name) -> Result<(), OutOfMemory>
    ensures { OnOk result (out.new ≡ out.old ++ again_text frame to.now) }
{
    out.bytes(b"again f")?;
    out.decimal(frame)?;
    out.bytes(b" to ")?;
    out.bytes(to.as_bytes())?;
    out.u8(b'\n')
}

/// Writes that no frame of the session of this number is kept.
pub fn put_nothing(out: &mut ByteOut, session: u32) -> Result<(), OutOfMemory>
    ensures { OnOk result (out.new ≡ out.old ++ nothing_text session) }
{
    put_named(out, b"nothing to send again in ", session)
}

/// Writes what stands before an answer whose frame the link didn't take.
pub fn put_unsent(out: &mut ByteOut) -> Result<(), OutOfMemory>
    ensures { OnOk result (out.new ≡ out.old ++ unsent_text []) }
{
    out.bytes(b"unsent ")
}

/// Writes that another role is at its turn in the session of this number.
pub fn put_waits(out: &mut ByteOut, session: u32) -> Result<(), OutOfMemory>
    ensures { OnOk result (out.new ≡ out.old ++ waits_text session) }
{
    put_named(out, b"waits ", session)
}

/// Writes that the session of this number lives no more.
pub fn put_over(out: &mut ByteOut, session: u32) -> Result<(), OutOfMemory>
    ensures { OnOk result (out.new ≡ out.old ++ over_text session) }
{
    put_named(out, b"over ", session)
}

/// Writes the identifier of the session of this number.
pub fn put_id(out: &mut ByteOut, session: u32, sid: &Sid) -> Result<(), OutOfMemory>
    ensures { OnOk result (out.new ≡ out.old ++ id_text session sid.now) }
{
    out.bytes(b"id ")?;
    put_session(out, session)?;
    out.u8(b' ')?;
    put_hex(out, sid.0.as_slice())?;
    out.u8(b'\n')
}

// Writes some words and a session, with the line's end.
fn put_named(out: &mut ByteOut, words: &[u8], session: u32) -> Result<(), OutOfMemory>
    ensures { OnOk result (out.new ≡ out.old ++ (words.now ++ numbered 115 session ++ 10 ∷ [])) }
{
    out.bytes(words)?;
    put_session(out, session)?;
    out.u8(b'\n')
}

/// Writes the name of the session of this number.
pub(crate) fn put_session(out: &mut ByteOut, session: u32) -> Result<(), OutOfMemory>
    ensures { OnOk result (out.new ≡ out.old ++ numbered 115 session) }
{
    out.u8(b's')?;
    out.decimal(u64::from(session))
}

// Writes two hexadecimal digits for each byte.
fn put_hex(out: &mut ByteOut, bytes: &[u8]) -> Result<(), OutOfMemory>
    ensures { OnOk result (out.new ≡ out.old ++ hex_text bytes.now) }
{
    for byte in bytes {
        out.bytes(&[hex_digit(byte / 16), hex_digit(byte % 16)])?;
    }
    Ok(())
}
