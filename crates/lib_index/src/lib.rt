//! Libraries as the bytes of an index file.
//!
//! A valid library has one index text, which `index_text` in `specs/IndexText.antt` defines. `encode` writes
//! it, and `decode` gives the library whose text some bytes are.
#![tactic(auto)]

mod decoding;
mod encoding;
mod laws;
mod library_reading;
mod marks;
mod pushing;
mod refusal;
mod rest;
mod type_reading;
mod type_texts;

pub use decoding::decode;
pub use encoding::encode;
pub use laws::{index_texts_are_short, index_texts_tell_libraries};
pub use refusal::IndexRefusal;

#[cfg(test)]
mod tests;
