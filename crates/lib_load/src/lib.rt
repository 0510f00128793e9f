//! The library of signature files, or of an index file.
//!
//! `load_files` gives the library of files that are taken in turn, or says which of them is the first that is refused, why
//! and where. `library_of_text` does so for one text in hand. `load_index` gives the library whose index text a file has.
//!
//! What they give is told over what reading gave. `given_texts_are_held` joins that to what told files hold.
#![tactic(auto)]

mod elaborating;
mod index_file;
mod laws;
mod loading;
mod refusals;

pub use index_file::load_index;
pub use laws::{
    files_have_one_outcome, given_texts_are_held, indexes_have_one_outcome,
    libraries_of_files_are_valid, long_files_are_no_indexes,
};
pub use loading::{MAX_FILES, library_of_text, load_files};
pub use refusals::{Fault, LoadRefusal};

#[cfg(test)]
mod tests;
