//! The graph language: from a text to its graph, or to the first fault.
//!
//! A text is a list of tokens: words, `:`, `;` and `->`. Spaces, tabs, carriage returns and line ends stand between tokens, and `#`
//! begins a comment up to the line end. A name is a letter, then letters, digits or `_`, at most 32 bytes, and none of the words
//! `graph role var node edge int text by writes reads`, which the language reserves.
//!
//! ```text
//! text = "graph" name ";" role role {role} {var} node {node} {edge}
//! role = "role" name ";"
//! var  = "var" name ":" ("int" | "text") "by" name {name} ";"
//! node = "node" name ":" name ";"
//! edge = "edge" name ":" name "->" name ["writes" name {name}] ["reads" name {name}] ";"
//! ```
//!
//! After `by` and after a node's `:` stand roles; an edge has its label, source, target and variables. A name is declared before it is
//! used, once in its kind, and a list names each role or variable once. There are at most 16 roles, 32 variables, 256 nodes and 512
//! edges, numbered from 0 in the order of their statements. The fault is that of the first wrong token from the left.
//!
//! A text of parts is one or more graph texts, one after the other. In each of them uses may follow the edges: a part that stands before
//! is put between two nodes, and the roles after `as` play the roles of this part. The words `use` and `as` are not names there.
//!
//! ```text
//! use = "use" name ":" name name "->" name "as" name {name} ";"
//! ```
//!
//! `Scanner` gives the tokens one by one to the readers of other texts in the words of this language.
#![tactic(auto)]

mod fault;
mod kind;
mod name;
mod name_set;
mod named_list;
mod part;
mod parts;
mod scan;
mod scanner;
mod statement;
mod text;
mod token;
mod uses;

pub use fault::ParseFault;
pub use name_set::NameSet;
pub use part::{Part, Use};
pub use parts::{parse_parts, part_readings_are_spelled};
pub use scanner::Scanner;
pub use text::{canonical_texts_are_read, parse_graph, readings_are_spelled};
pub use token::Language;
