//! Whether a library is valid, decided by code.
//!
//! `is_valid_library` tests each rule on units, type constructors, members and names, and all limits.
#![tactic(auto)]

mod external;
mod members;
mod names;
mod paths;
#[cfg(test)]
mod tests;
mod texts;
mod tycons;
mod types;
mod units;
mod valid;
mod weights;

pub use valid::is_valid_library;
