//! The search for the least consistent pairing of two lists of coordinates.
//!
//! Two types with variables are equal up to isomorphism exactly where the coordinates of one can be paired with those
//! of the other under one renaming of variables, one to one and keeping marks. The search finds the least such pairing
//! in the order of words, and says `None` only where there is none. `first_identical` does so under the identity alone.
#![tactic(auto)]

mod bindings;
mod fingerprints;
mod laws;
mod names;
mod pairs;
mod search;
#[cfg(test)]
mod tests;

pub use laws::{least_identical_pairings_are_one, least_pairings_are_one};
pub use pairs::{Pairs, first, first_identical};
