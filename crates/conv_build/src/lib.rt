//! Converters between types whose coordinates are paired, in the form in which they are printed.
//!
//! `build` gives both converters of a pairing: each is what the long form of the plain converter contracts to, and they
//! are an inverse pair of short normal terms. `redex_form`, the plain converter itself, is conv_plain's. What stands in
//! `specs/direct` says how the long form follows the pairing; it serves laws and private functions alone.
#![tactic(auto)]

mod building;
mod converters;
mod cutting;
mod emitting;
mod laws;
mod leaves;
mod numbers;
mod reference;
mod step;
mod steps;
#[cfg(test)]
mod tests;

pub use conv_plain::redex_form;
pub use converters::{Converters, build};
pub use laws::{
    contracted_direct_converters_are_short, coordinates_at_arguments_in_two_passes,
    direct_converters_are_long_forms, joining_in_two_passes, short_converters_are_inverse,
};
