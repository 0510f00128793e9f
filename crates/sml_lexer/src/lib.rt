//! The tokens of Standard ML, with their places in a text.
//!
//! The token grammar is that of signatures: the Definition of Standard ML's, with numerals as the only
//! special constants. `lex` gives the tokens of a text, each the longest at its place, or why and at which
//! byte the text has none. The laws say that the two exclude each other, that either is the only one, and
//! where tokens lie. `position` gives the line and the column of a byte.
#![tactic(auto)]

mod bytes;
mod comments;
mod lexer;
mod line_col;
mod longest;
#[cfg(test)]
mod tests;
mod token;
mod token_laws;

pub use lexer::lex;
pub use line_col::{LineCol, position};
pub use sig_base::{Span, Word};
pub use token::{LexRefusal, Token, TokenKind};
pub use token_laws::{
    long_identifiers_by_place, no_refusal, one_list, one_refusal, spans_in_order, spans_inside,
    tokens_at_their_places, tokens_count,
};
