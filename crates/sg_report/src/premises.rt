//! The lines of the two assumptions.
ghost use Rattle.std.specs.Prelude.{◌≡◌, ◌++◌, ◌∷◌, [], OnErr, OnOk, Some, codes, length, take};
ghost use Rattle.std.specs.Option.{option_copied, option_map};
ghost use Rattle.sg_report.specs.Model.{forgery_of};
ghost use Rattle.sg_report.specs.Report.{premise_lines, unforged_line};

use crate::reason::put_number;
use sg_base::{ByteOut, Name, OutOfMemory};

/// A tag of two honest principals that was found right in a step, and that neither of them had made.
#[derive(Clone, Copy)]
pub struct Forgery {
    /// The step's number, from 1.
    pub step: u32,
    /// The principal of the lesser name.
    pub one: Name,
    /// The other.
    pub two: Name,
}

/// Appends the two lines that say whether the assumptions hold. If memory runs out, what was written still stands first, with a part of
/// them after it or nothing.
pub fn put_premises(
    out: &mut ByteOut,
    forged: Option<&Forgery>,
    collision_free: bool,
) -> Result<(), OutOfMemory>
    ensures ok { OnOk result (out.new ≡ out.old ++ premise_lines (option_map forgery_of (option_copied forged.entry)) collision_free) }
    ensures prefix { OnErr result (take (length out.old) out.new ≡ out.old) }
{
    match forged {
        None => out.bytes(b"premise unforged holds\n")?,
        Some(forgery) => put_forged(out, forgery)?,
    }
    if collision_free {
        out.bytes(b"premise collision-free holds\n")
    } else {
        out.bytes(b"premise collision-free broken\n")
    }
}

fn put_forged(out: &mut ByteOut, forgery: &Forgery) -> Result<(), OutOfMemory>
    ensures ok { OnOk result (out.new ≡ out.old ++ unforged_line (Some (forgery_of forgery.now))) }
    ensures prefix { OnErr result (take (length out.old) out.new ≡ out.old) }
{
    put_number(out, b"premise unforged broken at step ", forgery.step)?;
    put_pair(out, &forgery.one, &forgery.two)
}

fn put_pair(out: &mut ByteOut, one: &Name, two: &Name) -> Result<(), OutOfMemory>
    ensures ok { OnOk result (out.new ≡ out.old ++ (codes " for " ++ one.now ++ codes " and " ++ two.now ++ 10 ∷ [])) }
    ensures prefix { OnErr result (take (length out.old) out.new ≡ out.old) }
{
    out.bytes(b" for ")?;
    out.bytes(one.as_bytes())?;
    out.bytes(b" and ")?;
    out.bytes(two.as_bytes())?;
    out.bytes(b"\n")
}
