//! The types of Standard ML, read from their tokens (the Definition of Standard ML, section 2.8 and
//! appendices A and B).
//!
//! `parse_type` gives the tree of a text's tokens, or the token at which they stop being a type or nest
//! too deep, and `read_type` that of a type among other tokens. The grammar stands in specs/Grammar.antt.
//! The laws say that no two of the answers are due at once. A parser of longer phrases goes on by `Reader`,
//! one token at a time.
#![tactic(auto)]

mod accepts;
mod laws;
mod parse;
mod reader;
mod sort;
mod steps;
#[cfg(test)]
mod tests;
mod tree;

pub use laws::{no_depth, one_depth, one_front, one_stop, one_tree};
pub use parse::{parse_type, read_type};
pub use reader::Reader;
pub use sort::{Sort, sort_of};
pub use tree::{FieldExp, ParseRefusal, TyExp, TypeAt, TypePart};
