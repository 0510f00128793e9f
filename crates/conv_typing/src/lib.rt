//! The types of terms, and which terms convert to each other.
//!
//! `type_of` gives the type of a term in a context, a list of the types of its variables in the order of their
//! levels. Typing and conversion are relations of the specification, and their laws are stated here: typing is
//! kept by shifting, substitution and conversion, and conversion by shifting, substitution and every form of
//! term.
#![tactic(auto)]

mod conversion_laws;
mod inverse_laws;
mod long_form_laws;
#[cfg(test)]
mod tests;
mod typing;
mod typing_laws;

pub use conversion_laws::{
    conversion_is_an_equivalence, convertible_terms_have_the_type, forms_keep_conversion,
    shifting_keeps_conversion, substituting_all_keeps_conversion, substitution_keeps_conversion,
};
pub use inverse_laws::{
    conversion_keeps_inverse_pairs, identities_are_inverse, inverse_pairs_turn_round,
};
pub use long_form_laws::{
    contracted_long_forms_are_short, contractions_keep_types, long_forms_keep_types,
    typed_long_forms_project_from_no_tuple, typed_terms_have_long_forms,
};
pub use typing::type_of;
pub use typing_laws::{
    shifting_keeps_types, substituting_all_keeps_types, substitution_keeps_types,
    typed_terms_have_types, types_are_unique,
};
