//! Signature files of Standard ML, read from their tokens (the Definition of Standard ML, sections 2.4
//! and 3.4).
//!
//! `parse_file` gives the tree of a text's tokens, or the token at which they stop being a file or nest too
//! deep. The grammar stands in specs/Grammar.antt. The laws say that no two of the answers are due at once.
#![tactic(auto)]

mod descriptions;
mod items;
mod laws;
mod parse;
mod point;
mod sigs;
mod stage;
#[cfg(test)]
mod tests;
mod tree;

pub use laws::{no_depth, one_depth, one_stop, one_tree};
pub use parse::parse_file;
pub use tree::{
    Bind, ConDesc, DataDesc, SigBase, SigExp, SourceFile, Spec, TopDec, TypeDesc, ValDesc,
    WherePart,
};
pub use ty_parser::{ParseRefusal, TyExp, TypeAt};
