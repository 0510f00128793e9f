//! The types of Standard ML, their schemes, and the text by which they are shown.
//!
//! A type is a tree `Ty` whose leaves are variables and names. `close` makes it a scheme, whose variables
//! are numbered from 0 by first occurrence; so two schemes that differ in the names of their variables
//! alone are one tree, which `equal_schemes` relies on. `size`, `height`, `normal_size` and `type_weight`
//! measure a type, `is_type`, `is_type_over` and `admits_equality` tell what it is, `copy`, `substitute` and
//! `apply_fn` make others of it, which share what stays, `record_of` makes the type of labelled fields, `arrows`
//! that of a chain of arrows, whose size `arrows_size` tells before it is built, and
//! `print_type` and `print_scheme` write it. A `Library` holds what files describe.
#![tactic(auto)]

mod admits;
mod chains;
mod closing;
mod coordinate;
mod equality;
mod kept;
mod labels;
mod laws;
mod library;
mod measures;
mod member;
mod met;
mod names;
mod normal;
mod numerals;
mod printing;
mod records;
mod substitution;
mod ty;
mod type_fn;
mod types;
mod weights;

pub use admits::admits_equality;
pub use chains::{arrows, arrows_size};
pub use closing::close;
pub use coordinate::Coordinate;
pub use equality::{equal_schemes, same};
pub use labels::compare_labels;
pub use laws::{
    closing_keeps_schemes, closing_makes_schemes, closing_undoes_renaming,
    labels_are_totally_ordered, normal_size_adds_coordinates, renaming_is_substitution,
    renaming_keeps_measures, scheme_variables_are_below,
};
pub use library::{Library, Tycon, Unit, UnitKind};
pub use measures::{height, size};
pub use member::{Kind, Member};
pub use names::{Equality, TypeName, initial_names};
pub use normal::normal_size;
pub use numerals::push_decimal;
pub use printing::{print_scheme, print_type};
pub use records::record_of;
pub use substitution::{copy, copy_all, substitute};
pub use ty::{Field, NameId, Scheme, Ty, VarId};
pub use type_fn::{TypeFn, apply_fn, is_type_fn};
pub use types::{is_type, is_type_over};
pub use weights::type_weight;

#[cfg(test)]
mod tests;
