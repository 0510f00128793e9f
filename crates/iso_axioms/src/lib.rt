//! Equality of types up to isomorphism.
//!
//! The axioms are those of products and functions, and a theory is what follows from its axioms. There are two:
//! that of all axioms, and the linear theory, which has no axiom that copies or drops a type. The definitions stand
//! in specs/, and the functions here have no body: their contracts are the laws of both theories.
#![tactic(auto)]

mod laws;
mod scheme_laws;

pub use laws::{
    linear_is_isomorphic, renaming_keeps_theories, substitution_keeps_theories,
    theories_are_closed, theories_are_equivalences, theories_relate_types,
};
pub use scheme_laws::{
    identity_is_equality_up_to_names, scheme_equalities_are_equivalences,
    scheme_equalities_are_nested,
};
