//! Converters between types whose coordinates are paired.
//!
//! `redex_form` gives the plain converter of a pairing: it splits its argument into terms for the coordinates of the
//! one type, moves these along the pairing, and joins them at the other type.
#![tactic(auto)]

mod functions;
mod laws;
mod moving;
mod plain;
mod room;
mod split_join;
#[cfg(test)]
mod tests;
mod types;

pub use laws::{
    coordinates_have_types, isomorphic_types_have_inverse_pairs,
    moving_back_is_moving_along_the_inverse, moving_there_and_back_undoes_itself,
    places_have_the_terms_of_their_entries, plain_converters_are_inverse,
    splitting_and_joining_undo_each_other, splitting_joining_and_moving_keep_types,
};
pub use plain::redex_form;
