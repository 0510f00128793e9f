//! What elaborating files and reading queries share.
//!
//! A `Source` is a text with its tokens, and tells their texts and type variables; `Places` finds texts. A text
//! is read in stages: its tokens, the phrase that they are, and what the phrase means. `TextFault` is what can be
//! wrong before the last of them, and `TextRefusal` has the byte at which it is.
#![tactic(auto)]

mod fault;
mod laws;
mod places;
mod source;
mod stages;
mod texts;

pub use fault::{TextFault, TextRefusal};
pub use laws::records_have_nodes;
pub use places::Places;
pub use source::Source;
pub use stages::{no_phrase, no_tokens, start_of};
pub use texts::{as_number, first_tokens, is_qualified, tokens_within};
pub use type_core::{arrows, arrows_size, record_of};
