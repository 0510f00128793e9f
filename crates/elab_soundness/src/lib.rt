//! What elaboration gives is sound: a law of the rules alone, whatever code follows them.
//!
//! A basis that accepted files leave is sound (`specs/Soundness`), and the library of a sound basis is valid.
#![tactic(auto)]

mod laws;

pub use laws::libraries_of_accepted_files_are_valid;
