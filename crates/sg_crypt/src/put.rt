//! Fields that texts and frames share, written to a growing list of bytes.
ghost use Rattle.std.specs.Prelude.{◌≡◌, ◌++◌, length, take, OnOk, OnErr};
ghost use Rattle.sg_base.specs.Model.{value_of};
ghost use Rattle.sg_protocol.specs.Spelling.{u8, short_text, kind_code, sized, opening_bytes};

use sg_base::{ByteOut, Name, Opening, OutOfMemory, Value};

/// Appends a name after its length. If memory runs out, the list is as before.
pub fn put_name(out: &mut ByteOut, name: &Name) -> Result<(), OutOfMemory>
    ensures ok { OnOk result (out.new ≡ out.old ++ short_text name.now) }
    ensures err { OnErr result (out.new ≡ out.old) }
{
    let start = out.len();
    let put = put_name_parts(out, name);
    take_back(out, start, put)
}

/// Appends an opening: its variable, its confounder, its type, and its value after its length. If memory runs out, the list is as
/// before.
pub fn put_opening(out: &mut ByteOut, opening: &Opening) -> Result<(), OutOfMemory>
    ensures ok { OnOk result (out.new ≡ out.old ++ opening_bytes opening.now) }
    ensures err { OnErr result (out.new ≡ out.old) }
{
    let start = out.len();
    let put = put_opening_parts(out, opening);
    take_back(out, start, put)
}

// Takes off what stands from `start` on, if putting it failed.
fn take_back(
    out: &mut ByteOut,
    start: usize,
    put: Result<(), OutOfMemory>,
) -> Result<(), OutOfMemory>
    ensures same { result ≡ put }
    ensures ok { OnOk put (out.new ≡ out.old) }
    ensures err { OnErr put (out.new ≡ take start out.old) }
{
    if put.is_err() {
        out.truncate(start);
    }
    put
}

// Appends a name after its length, or a prefix of this.
fn put_name_parts(out: &mut ByteOut, name: &Name) -> Result<(), OutOfMemory>
    ensures ok { OnOk result (out.new ≡ out.old ++ short_text name.now) }
    ensures prefix { OnErr result (take (length out.old) out.new ≡ out.old) }
{
    let bytes = name.as_bytes();
    out.u8(bytes.len() as u8)?;
    out.bytes(bytes)
}

// Appends an opening, or a prefix of it.
fn put_opening_parts(out: &mut ByteOut, opening: &Opening) -> Result<(), OutOfMemory>
    ensures ok { OnOk result (out.new ≡ out.old ++ opening_bytes opening.now) }
    ensures prefix { OnErr result (take (length out.old) out.new ≡ out.old) }
{
    out.u8(opening.var.0)?;
    out.bytes(&opening.confounder)?;
    put_value(out, &opening.value)
}

// Appends a value after its type and its length, or a prefix of this.
fn put_value(out: &mut ByteOut, value: &Value) -> Result<(), OutOfMemory>
    ensures ok { OnOk result (out.new ≡ out.old ++ (u8 (kind_code (value_of value.now)) ++ sized (value_of value.now))) }
    ensures prefix { OnErr result (take (length out.old) out.new ≡ out.old) }
{
    match value {
        Value::Int(number) => {
            out.u8(0)?;
            out.u32(8)?;
            out.bytes(&number.to_be_bytes())
        }
        Value::Text(text) => {
            let bytes = text.as_bytes();
            out.u8(1)?;
            out.u32(bytes.len() as u32)?;
            out.bytes(bytes)
        }
    }
}
