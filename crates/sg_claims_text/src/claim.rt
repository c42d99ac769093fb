//! The statements of claims.
ghost use Rattle.std.specs.Prelude.{◌≡◌, IfOk, false};
ghost use Rattle.sg_claims.specs.Kind.{kind_of};
ghost use Rattle.sg_claims_text.specs.Grammar.{claim_names};
ghost use Rattle.sg_claims_text.specs.Reading.{read_claim, read_kind, read_rest, since_word};
ghost use Rattle.sg_model.specs.Lists.{has_text};
ghost use Rattle.sg_parse.specs.Owed.{Reads, ReadsInto};
ghost use Rattle.sg_parse.specs.Reading.{new_name};

use crate::claim_list::ClaimList;
use crate::label_names::LabelNames;
use crate::labels::{read_since, some_labels};
use sg_base::Name;
use sg_claims::{Claim, ClaimKind, LabelSet, NamedClaim};
use sg_parse::{ParseFault, Scanner};
use std::alloc::Global;

// One more claim.
pub fn read_claim(
    alloc: Global,
    scanner: &mut Scanner,
    names: &LabelNames,
    claims: &mut ClaimList,
) -> Result<(), ParseFault>
    ensures { ReadsInto (read_claim names.now claims.old) scanner.old scanner.new claims.new result }
{
    scanner.word(b"claim")?;
    let name = new_claim(scanner, claims)?;
    scanner.colon()?;
    let claim = read_kind(alloc, scanner, names)?;
    scanner.semicolon()?;
    match claims.push(NamedClaim { name, claim }) {
        Ok(()) => Ok(()),
        Err(_) => Err(ParseFault::OutOfMemory),
    }
}

// A name that no claim has.
fn new_claim(scanner: &mut Scanner, claims: &ClaimList) -> Result<Name, ParseFault>
    ensures reads { Reads (new_name (claim_names claims.now)) scanner.old scanner.new result }
    ensures new { IfOk result (λ n. has_text n (claim_names claims.now) ≡ false) }
{
    let (name, at) = scanner.name()?;
    if claims.has(&name) {
        return Err(ParseFault::Twice { at });
    }
    Ok(name)
}

// What a claim says.
fn read_kind(alloc: Global, scanner: &mut Scanner, names: &LabelNames) -> Result<Claim, ParseFault>
    ensures { Reads (read_kind names.now) scanner.old scanner.new result }
{
    let first = some_labels(alloc, scanner, names)?;
    if scanner.at_word(b"needs") {
        scanner.skip();
        return read_rest(alloc, scanner, names, ClaimKind::Needs, first);
    }
    scanner.word(b"bars")?;
    read_rest(alloc, scanner, names, ClaimKind::Bars, first)
}

// The rest of a claim, after its first labels and the word of its kind.
fn read_rest(
    alloc: Global,
    scanner: &mut Scanner,
    names: &LabelNames,
    kind: ClaimKind,
    first: LabelSet,
) -> Result<Claim, ParseFault>
    ensures { Reads (read_rest (kind_of kind) names.now first) scanner.old scanner.new result }
{
    let second = some_labels(alloc, scanner, names)?;
    let since = read_since(alloc, scanner, names, since_word(kind))?;
    let (later, earlier) = match kind {
        ClaimKind::Needs => (first, second),
        ClaimKind::Bars => (second, first),
    };
    Ok(Claim {
        kind,
        later,
        earlier,
        since,
    })
}

// The word before the last labels of a claim.
fn since_word(kind: ClaimKind) -> &'static [u8]
    ensures { result.now ≡ since_word (kind_of kind) }
{
    match kind {
        ClaimKind::Needs => b"since",
        ClaimKind::Bars => b"until",
    }
}
