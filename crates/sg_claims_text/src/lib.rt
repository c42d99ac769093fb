//! The text of claims of a graph: from a text to its claims, or to the first fault, and from claims to a text.
//!
//! A text is in the tokens of the graph language, comments too, and its reserved words are no names here either.
//!
//! ```text
//! text   = "claims" name ";" {claim}
//! claim  = "claim" name ":" (labels "needs" labels ["since" labels] | labels "bars" labels ["until" labels]) ";"
//! labels = name {name}
//! ```
//!
//! The first name is the graph's. The names of claims differ, and a list has one or more labels of the graph, each once. The words
//! `needs`, `bars`, `since` and `until` are no labels, since they end a list: a graph may have labels that are spelled so, but no claim
//! can name them. Elsewhere these words are names like others, and so are `claim` and `claims`. There are at most 1,024 claims.
//!
//! The fault is that of the first wrong token from the left.
#![tactic(auto)]

mod claim;
mod claim_list;
mod fault;
mod label_names;
mod labels;
mod text;
mod written;

pub use fault::ClaimsFault;
pub use text::{parse_claims, readings_are_spelled};
pub use written::{claims_text, suggestions_are_read, written_texts_are_read};
