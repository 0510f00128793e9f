//! The names of types while files are elaborated.
//!
//! A `NameTable` has all names, in the order of their numbers, and the names that were realized, with the
//! type functions that took their places. A type keeps the names that it was made with: `resolve` gives what
//! it means by now. To realize a name, or to join two, is one entry more in the table, so that no type has to
//! be looked for and changed.
#![tactic(auto)]

mod denoting;
mod externals;
mod lacking;
mod laws;
mod name_table;
mod names;
mod realization;
mod resolving;
mod sizes;
mod staying;

pub use denoting::{denoted_name, name_function};
pub use laws::{
    more_names_keep_types, resolving_again_changes_nothing, resolving_goes_inside,
    resolving_goes_through_substitution, resolving_keeps_other_names, resolving_keeps_types,
    resolving_leaves_no_realized_name, resolving_one_realization_more, settling_keeps_types,
};
pub use name_table::NameTable;
pub use realization::Realization;

#[cfg(test)]
mod tests;
