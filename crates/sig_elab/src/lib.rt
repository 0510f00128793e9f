//! The elaboration of signature files (the Definition of Standard ML, chapters 4 and 5).
//!
//! `Elab` takes files one after another, each as a tree over the tokens of its bytes, and gives the
//! `Library` of what they describe. A file is refused with the first condition that fails, `Why`, and the
//! number of its token.
#![tactic(auto)]

mod copies;
mod declaration;
mod declarations;
mod draft;
mod elab;
mod keeping;
mod listing;
mod specifications;
mod totals;

pub use elab::Elab;
pub use elab_rules::refusal::{ElabRefusal, Why};
