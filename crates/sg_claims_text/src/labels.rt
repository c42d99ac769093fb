//! Lists of labels.
ghost use Rattle.std.specs.Prelude.{◌≡◌};
ghost use Rattle.sg_claims_text.specs.Reading.{is_between, is_label, read_since, some_labels};
ghost use Rattle.sg_parse.specs.PartsReading.{one_index};
ghost use Rattle.sg_parse.specs.Owed.{Reads, ReadsInto};
ghost use Rattle.sg_parse.specs.Reading.{is_next};

use crate::label_names::LabelNames;
use sg_claims::LabelSet;
use sg_parse::{ParseFault, Scanner};
use std::alloc::Global;

// One or more labels, each once, in their order.
pub fn some_labels(
    alloc: Global,
    scanner: &mut Scanner,
    names: &LabelNames,
) -> Result<LabelSet, ParseFault>
    ensures { Reads (some_labels names.now) scanner.old scanner.new result }
{
    if !at_label(scanner) {
        return Err(scanner.refusal());
    }
    let mut labels = LabelSet::new(alloc);
    'labels: while at_label(scanner) {
        one_more(scanner, names, &mut labels)?;
    }
    Ok(labels)
}

// The labels after the word, or none if the word isn't there.
pub fn read_since(
    alloc: Global,
    scanner: &mut Scanner,
    names: &LabelNames,
    first: &[u8],
) -> Result<LabelSet, ParseFault>
    ensures { Reads (read_since first.now names.now) scanner.old scanner.new result }
{
    if !scanner.at_word(first) {
        return Ok(LabelSet::new(alloc));
    }
    scanner.skip();
    some_labels(alloc, scanner, names)
}

// One more label, which is none of these.
fn one_more(
    scanner: &mut Scanner,
    names: &LabelNames,
    labels: &mut LabelSet,
) -> Result<(), ParseFault>
    ensures { ReadsInto (one_index names.now labels.old) scanner.old scanner.new labels.new result }
{
    let (name, at) = scanner.name()?;
    let Some(label) = names.find(&name) else {
        return Err(ParseFault::UnknownName { at });
    };
    if labels.has(label) {
        return Err(ParseFault::Twice { at });
    }
    match labels.add(label) {
        Ok(()) => Ok(()),
        Err(_) => Err(ParseFault::OutOfMemory),
    }
}

// The next token is a name, and none of the words that end a list of labels.
fn at_label(scanner: &Scanner) -> bool
    ensures { result ≡ is_next is_label scanner.now }
{
    scanner.at_name() && !at_between(scanner)
}

// The next token is one of the words that end a list of labels.
fn at_between(scanner: &Scanner) -> bool
    ensures { result ≡ is_next is_between scanner.now }
{
    scanner.at_word(b"needs")
        || scanner.at_word(b"bars")
        || scanner.at_word(b"since")
        || scanner.at_word(b"until")
}
