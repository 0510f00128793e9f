//! Types, coordinates and keys, each kept once under a number.
//!
//! A search compares one type with thousands. With trees each comparison walks both of them, and each copy takes
//! memory. An `Arena` keeps each type and each coordinate once, so that two of them are compared by their numbers:
//!
//! - `intern` numbers a type, `node` reads its top, whose parts are numbers, and `same` tells whether two types are
//!   identical: they are exactly where their numbers are one.
//! - `coord` numbers a coordinate, a list of arguments with a head, in source order, from which pairings are read.
//!   `args` and `head` read it.
//! - `canon` gives one number for all coordinates that differ in the order of arguments alone, at every depth. A
//!   pairing that leaves variables as they are joins only coordinates with one canonical number, so a search may pass
//!   over all others.
//! - `key` numbers what is left of a list of coordinates once order, at every depth, and the numbers of variables are
//!   forgotten, and marks are kept. Two isomorphic schemes have one key, whatever their variables are called, so a
//!   search looks only at members with the query's key. `erased` is the key of one coordinate.
//!
//! What a number means is a tree, and contracts speak of this alone (`specs/Meanings.antt`): the numbers of types are
//! places in a list of types, those of coordinates places in a list of coordinates, and those of keys places in a list
//! of lists of coordinates. Each call leaves these lists as they were and may add to their ends, whether it succeeds or
//! memory is wanting, so whoever holds a number may go on to use it.
//!
//! Canonical forms and erasures are themselves types and coordinates in the tables. The canonical form of a coordinate
//! has the canonical numbers of the arguments, in rising order, in their place; its erasure has those of their
//! erasures, and the erasure of the head. Beside each entry stand the numbers of its own. So `canon` and `erased` are
//! looked up and take no memory.
//!
//! Interning looks each occurrence of a part up once. A new part takes a bounded number of further look-ups, and time in
//! proportion to its own parts; the arguments of a new coordinate are sorted by number once for each of the two forms.
//! The hasher has a fixed seed: a hostile input can slow the tables down, and never change an answer.
#![tactic(auto)]

mod arena;
mod in_order;
mod laws;
mod node;
mod tables;
mod type_table;

pub use arena::Arena;
pub use laws::{
    alikeness_is_an_equivalence, canonical_numbers_decide, keys_decide, numbers_keep_their_meanings,
};
pub use node::{CoordId, FieldId, KeyId, Node, TyId};

#[cfg(test)]
mod tests;
