//! The text of a term, as an expression of Standard ML.
//!
//! A variable is named `x` and the number of abstractions around its scope, so names never clash, and parentheses stand
//! only where the grammar asks for them. `print_term` writes a closed term, and `print_open` one that stands under
//! abstractions.
#![tactic(auto)]

mod place;
mod printing;
#[cfg(test)]
mod tests;

pub use printing::{print_open, print_term};
