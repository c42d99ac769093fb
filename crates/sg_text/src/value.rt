//! Values of variables.
ghost use Rattle.std.specs.Prelude.{◌≡◌, ◌<◌, ◌++◌, ◌∷◌, [], OnErr, OnOk, false, flat_map, length, option_map, take};
ghost use Rattle.std.specs.Fmt.{digit_glyph, signed_decimal};
ghost use Rattle.std.specs.Option.{option_copied};
ghost use Rattle.sg_base.specs.Model.{value_of};
ghost use Rattle.sg_text.specs.Values.{assigned, escaped_byte, is_plain, quoted_byte, value_or_hidden, value_text, values_text};
ghost use Rattle.sg_walk.specs.Model.{values_of};

use itoa::Buffer;
use sg_base::{ByteOut, Chars, OutOfMemory, Value, Var};
use sg_graph::{Graph, put_var};

/// Appends a value: a number in digits, a text between quotes. If memory runs out, what was there still stands first.
pub fn put_value(out: &mut ByteOut, value: &Value) -> Result<(), OutOfMemory>
    ensures ok { OnOk result (out.new ≡ out.old ++ value_text (value_of value.now)) }
    ensures prefix { OnErr result (take (length out.old) out.new ≡ out.old) }
{
    match value {
        Value::Int(number) => put_int(out, *number),
        Value::Text(text) => put_text(out, text),
    }
}

fn put_int(out: &mut ByteOut, number: i64) -> Result<(), OutOfMemory>
    ensures ok { OnOk result (out.new ≡ out.old ++ signed_decimal number) }
    ensures prefix { OnErr result (take (length out.old) out.new ≡ out.old) }
{
    let mut digits = Buffer::new();
    out.bytes(digits.format(number).as_bytes())
}

fn put_text(out: &mut ByteOut, text: &Chars) -> Result<(), OutOfMemory>
    ensures ok { OnOk result (out.new ≡ out.old ++ (34 ∷ flat_map quoted_byte text.now ++ 34 ∷ [])) }
    ensures prefix { OnErr result (take (length out.old) out.new ≡ out.old) }
{
    out.u8(b'"')?;
    put_quoted(out, text.as_bytes())?;
    out.u8(b'"')
}

fn put_quoted(out: &mut ByteOut, bytes: &[u8]) -> Result<(), OutOfMemory>
    ensures ok { OnOk result (out.new ≡ out.old ++ flat_map quoted_byte bytes.now) }
    ensures prefix { OnErr result (take (length out.old) out.new ≡ out.old) }
{
    for byte in bytes {
        put_byte(out, *byte)?;
    }
    Ok(())
}

// Writes a byte that stands between quotes.
fn put_byte(out: &mut ByteOut, byte: u8) -> Result<(), OutOfMemory>
    ensures ok { OnOk result (out.new ≡ out.old ++ quoted_byte byte) }
    ensures prefix { OnErr result (take (length out.old) out.new ≡ out.old) }
{
    if is_plain(byte) {
        out.u8(byte)
    } else {
        put_escaped(out, byte)
    }
}

fn is_plain(byte: u8) -> bool
    ensures { result ≡ is_plain byte }
{
    byte >= 0x21 && byte <= 0x7E && byte != b'"' && byte != b'\\'
}

/// Appends a byte as `\x` and its two hexadecimal digits, in small letters. If memory runs out, what was there still stands first.
pub fn put_escaped(out: &mut ByteOut, byte: u8) -> Result<(), OutOfMemory>
    ensures ok { OnOk result (out.new ≡ out.old ++ escaped_byte byte) }
    ensures prefix { OnErr result (take (length out.old) out.new ≡ out.old) }
{
    out.bytes(&[b'\\', b'x', hex_digit(byte / 16), hex_digit(byte % 16)])
}

/// The hexadecimal digit of a number below 16, with small letters.
pub fn hex_digit(digit: u8) -> u8
    requires { digit < 16 }
    ensures { result ≡ digit_glyph false digit }
{
    if digit < 10 {
        b'0' + digit
    } else {
        b'a' - 10 + digit
    }
}

/// Appends a space and a value, for each; a variable that the graph hasn't has no name. If memory runs out, what was there still stands first.
pub fn put_values(
    out: &mut ByteOut,
    graph: &Graph,
    values: &[(Var, Value)],
) -> Result<(), OutOfMemory>
    ensures ok { OnOk result (out.new ≡ out.old ++ values_text graph.now (values_of values.now)) }
    ensures prefix { OnErr result (take (length out.old) out.new ≡ out.old) }
{
    for at in 0..values.len() {
        let value = &values[at];
        out.u8(b' ')?;
        put_assigned(out, graph, value.0, Some(&value.1))?;
    }
    Ok(())
}

/// Appends a variable and its value, or `?` if it is hidden. If memory runs out, what was there still stands first.
pub fn put_assigned(
    out: &mut ByteOut,
    graph: &Graph,
    var: Var,
    value: Option<&Value>,
) -> Result<(), OutOfMemory>
    ensures ok { OnOk result (out.new ≡ out.old ++ assigned graph.now var (value_or_hidden (option_map value_of (option_copied value.entry)))) }
    ensures prefix { OnErr result (take (length out.old) out.new ≡ out.old) }
{
    put_var(out, graph, var)?;
    out.u8(b'=')?;
    match value {
        Some(value) => put_value(out, value),
        None => out.bytes(b"?"),
    }
}
