//! Large valid libraries made from a number, and the sums of what searches of them find.
//!
//! `generate` gives the text of a signature of so many values. Their types repeat after 500: five atoms at each of three
//! places, in four functions that differ in the order of arguments and in the use of tuples. `gen_summary` elaborates
//! this text over nothing, searches the library for the schemes of some of its members, up to isomorphism and for more
//! general ones, and tells how many these are and how many hits they have in all. A scheme is searched for once, and only
//! the distinct schemes of the library are compared with it.
#![tactic(auto)]

mod classes;
mod generating;
mod laws;
mod summary;
mod totals;

pub use generating::generate;
pub use laws::summaries_are_one;
pub use summary::gen_summary;
pub use totals::Totals;

#[cfg(test)]
mod tests;
