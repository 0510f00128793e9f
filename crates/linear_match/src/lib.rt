//! Matching of a type by the instances of a scheme, in the linear theory.
//!
//! A scheme matches a type where one of its instances is linearly isomorphic to it. A word splits the factors of the
//! type along the body of the scheme, and so tells what each variable of the scheme takes. There is an instance that
//! matches exactly where a word succeeds, and `first` gives the instance of the least word that does.
#![tactic(auto)]

mod bindings;
mod cutting;
mod instance;
mod laws;
mod needs;
mod search;
mod singles;
#[cfg(test)]
mod tests;
mod useless;

pub use instance::{Instance, first};
pub use laws::{
    consistent_meetings_are_obeyed, first_instances_match, words_are_complete, words_are_sound,
    words_succeed_where_instances_match, words_tell_meetings,
};
