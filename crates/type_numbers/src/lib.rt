//! Distinct types, numbered as they come.
//!
//! What is found for a type can be kept under its number, so that it is found once for all values of the type. Numbers
//! go from 0 on, so that a list has room for what is kept.
#![tactic(auto)]

mod numbers;

pub use numbers::TypeNumbers;

#[cfg(test)]
mod tests;
