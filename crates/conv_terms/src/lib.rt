//! The terms of the simply typed lambda calculus with tuples, in which converters are written.
//!
//! A variable is a level: the number of binders that enclose its own binder. `shift` makes room for further
//! variables, and `subst` puts a term for a variable. The laws of the two hold of all terms, typed or not.
#![tactic(auto)]

mod contraction;
mod equality;
mod laws;
mod long_form_laws;
mod shifting;
mod short_normal;
mod substitution;
mod term;
#[cfg(test)]
mod tests;

pub use contraction::contract;
pub use equality::same;
pub use laws::{
    levels_of_a_shift, levels_of_a_substitution, shifting_by_none, shifting_is_substituting,
    shifting_twice, substituting_after_a_shift, substituting_commutes_with_itself,
    substituting_commutes_with_shifting, substituting_for_one,
};
pub use long_form_laws::{long_forms_have_no_redex, one_contraction, one_long_form};
pub use shifting::shift;
pub use short_normal::is_short_normal;
pub use substitution::subst;
pub use term::Term;
