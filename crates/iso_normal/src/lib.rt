//! Normal forms of types, by which equality in both theories is decided.
#![tactic(auto)]

mod agreement_laws;
mod appending;
mod consistency_laws;
mod coordinates;
mod copying;
mod deciding;
mod factor;
mod factor_laws;
mod inverting;
mod laws;
mod linear_factors;
mod pair_tree;
mod pairing_laws;
mod products;
mod scheme_laws;
mod word_laws;
mod words;

pub use agreement_laws::{agreement_is_an_equivalence, agreement_is_kept, factors_are_curried};
pub use consistency_laws::{
    coordinates_are_renamed, pairings_fix_renamings, renamed_coordinates_are_paired,
};
pub use coordinates::normal;
pub use copying::{copy_coordinates, copy_factor, copy_factors};
pub use deciding::agree;
pub use factor::Factor;
pub use factor_laws::{products_keep_factors, types_are_products_of_factors, types_have_factors};
pub use inverting::inverse;
pub use laws::{isomorphic_types_have_pairings, linearly_isomorphic_types_have_like_factors};
pub use linear_factors::{add_arrow, linear};
pub use pair_tree::{Entry, PairTree};
pub use pairing_laws::{inverses_pair, inverting_twice_changes_nothing, pairings_are_permuted};
pub use products::reify;
pub use scheme_laws::isomorphic_schemes_have_pairings;
pub use word_laws::{pairings_have_shapes, words_are_totally_ordered, words_tell_trees};
pub use words::pairing;

#[cfg(test)]
mod tests;
