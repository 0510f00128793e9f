//! The search of a library, and the reports of what was found. Libraries are loaded by `lib_load`, whose calls stand here too.
//!
//! `search` finds the members of a library whose schemes equal the query's, as they stand or up to isomorphism, or those
//! that have an instance linearly isomorphic to it. But for the first mode each hit has the least pairing of the
//! coordinates of the member's type, or of the instance's, with the query's, and along it the converters from this type to
//! the query's and back. It gives exactly the members that are due, in the library's order. `report` writes what was found,
//! and `list_report` the whole library.
#![tactic(auto)]

mod answer;
mod comparing;
mod converting;
mod laws;
mod lines;
mod matching;
mod printed;
mod reports;
mod searching;
mod told;

pub use answer::{Answer, Hit, Mode};
pub use laws::{hits_are_members, queries_have_one_answer, valid_libraries_can_be_searched};
pub use lib_load::{Fault, LoadRefusal, load_files, load_index};
pub use reports::{list_report, report};
pub use searching::search;

#[cfg(test)]
mod tests;
