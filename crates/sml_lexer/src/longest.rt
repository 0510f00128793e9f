// The longest token at a place.
ghost use Rattle.std.specs.Prelude.{◌≡◌, ℕ, ◌+◌, ◌<◌, ◌≤◌, ◌↔◌, length, IsTrue, MatchOption, slice_index};
ghost use Rattle.std.specs.List.{between};
ghost use Rattle.sig_base.specs.Identifiers.{IsLetter, IsSymbolicByte, spelling};
ghost use Rattle.sig_base.specs.declared.word.Word.TheVariants.{KwDots};
ghost use Rattle.sml_lexer.specs.Tokens.{IsLongestAt};
ghost use Rattle.sml_lexer.specs.Steps.{IsPartAt, NoIdentifierAt, NothingAt};
ghost use Rattle.sml_lexer.specs.LongPlaces.{IsAlphanumericAt};

use crate::TokenKind;
use crate::bytes::{alphanumeric_end, digits_end, is_at, symbolic_end};
use sig_base::{Word, is_letter, is_symbolic_byte};

/// An identifier after a dot, by its end.
#[derive(Clone, Copy, Debug)]
pub enum Part {
    Alphanumeric(usize),
    Symbolic(usize),
}

/// The kind of the longest token that can stand at a place, and where it ends; `None` exactly where none can.
pub fn longest_at(bytes: &[u8], at: usize) -> Option<(TokenKind, usize)>
    requires { at < length bytes.now }
    ensures { MatchOption result (NothingAt bytes.now at) (λ t. IsLongestAt bytes.now t.0 at t.1) }
{
    let b = bytes[at];
    if is_letter(b) {
        Some(name_at(bytes, at))
    } else if is_symbolic_byte(b) {
        Some(symbolic_at(bytes, at))
    } else if b == b'\'' {
        Some((TokenKind::TyVar, alphanumeric_end(bytes, at + 1)))
    } else if b'1' <= b && b <= b'9' {
        Some((TokenKind::Num, digits_end(bytes, at + 1)))
    } else {
        mark_at(bytes, at)
    }
}

/// The longest token where a letter stands: a reserved word, an identifier or a long identifier.
fn name_at(bytes: &[u8], at: usize) -> (TokenKind, usize)
    requires within { at < length bytes.now }
    requires letter { IsLetter (slice_index bytes.now at) }
    ensures { IsLongestAt bytes.now result.0 at result.1 }
{
    let end = alphanumeric_end(bytes, at + 1);
    match Word::of(&bytes[at..end]) {
        Some(word) => (TokenKind::Reserved(word), end),
        None => long_at(bytes, at, end),
    }
}

/// The longest identifier whose first part is the one that ends at `first`.
fn long_at(bytes: &[u8], at: usize, first: usize) -> (TokenKind, usize)
    requires { IsAlphanumericAt bytes.now at first }
    ensures { IsLongestAt bytes.now result.0 at result.1 }
{
    let mut kind = TokenKind::Alpha;
    let mut end = first;
    'parts: while is_at(bytes, end, b'.') {
        match identifier_at(bytes, end + 1) {
            None => return (kind, end),
            Some(Part::Symbolic(last)) => return (TokenKind::Long, last),
            Some(Part::Alphanumeric(next)) => {
                kind = TokenKind::Long;
                end = next;
            }
        }
    }
    (kind, end)
}

/// The longest word at a place, where it is an identifier.
fn identifier_at(bytes: &[u8], at: usize) -> Option<Part>
    requires { at ≤ length bytes.now }
    ensures { MatchOption result (NoIdentifierAt bytes.now at) (IsPartAt bytes.now at) }
{
    if is_letter_at(bytes, at) {
        alphanumeric_part(bytes, at)
    } else {
        symbolic_part(bytes, at)
    }
}

fn alphanumeric_part(bytes: &[u8], at: usize) -> Option<Part>
    requires within { at < length bytes.now }
    requires letter { IsLetter (slice_index bytes.now at) }
    ensures { MatchOption result (NoIdentifierAt bytes.now at) (IsPartAt bytes.now at) }
{
    let end = alphanumeric_end(bytes, at + 1);
    match Word::of(&bytes[at..end]) {
        Some(_) => None, // a reserved word is no part, so its dot is in no long identifier
        None => Some(Part::Alphanumeric(end)),
    }
}

fn symbolic_part(bytes: &[u8], at: usize) -> Option<Part>
    requires within { at ≤ length bytes.now }
    requires no_letter { IsLetter (slice_index bytes.now at) → ⊥ }
    ensures { MatchOption result (NoIdentifierAt bytes.now at) (IsPartAt bytes.now at) }
{
    let end = symbolic_end(bytes, at);
    if end == at {
        return None;
    }
    match Word::of(&bytes[at..end]) {
        Some(_) => None,
        None => Some(Part::Symbolic(end)),
    }
}

/// The longest token where a symbol stands.
fn symbolic_at(bytes: &[u8], at: usize) -> (TokenKind, usize)
    requires within { at < length bytes.now }
    requires symbol { IsSymbolicByte (slice_index bytes.now at) }
    ensures { IsLongestAt bytes.now result.0 at result.1 }
{
    let end = symbolic_end(bytes, at + 1);
    match Word::of(&bytes[at..end]) {
        Some(word) => (TokenKind::Reserved(word), end),
        None => (TokenKind::Sym, end),
    }
}

/// The longest token where neither a word, a type variable nor a numeral begins: a mark, as `(` or `...`.
fn mark_at(bytes: &[u8], at: usize) -> Option<(TokenKind, usize)>
    requires within { at < length bytes.now }
    requires no_letter { IsLetter (slice_index bytes.now at) → ⊥ }
    requires no_symbol { IsSymbolicByte (slice_index bytes.now at) → ⊥ }
    requires no_prime { slice_index bytes.now at ≡ 39 → ⊥ }
    requires no_digit { 49 ≤ slice_index bytes.now at → slice_index bytes.now at ≤ 57 → ⊥ }
    ensures { MatchOption result (NothingAt bytes.now at) (λ t. IsLongestAt bytes.now t.0 at t.1) }
{
    if is_dots_at(bytes, at) {
        return Some((TokenKind::Reserved(Word::KwDots), at + 3));
    }
    match Word::of(&bytes[at..at + 1]) {
        Some(word) => Some((TokenKind::Reserved(word), at + 1)),
        None => None,
    }
}

fn is_dots_at(bytes: &[u8], at: usize) -> bool
    requires { at < length bytes.now }
    ensures { IsTrue result ↔ (between at (at + 3) bytes.now ≡ spelling KwDots) }
{
    3 <= bytes.len() - at && &bytes[at..at + 3] == b"...".as_slice()
}

fn is_letter_at(bytes: &[u8], at: usize) -> bool
    ensures { IsTrue result ↔ IsLetter (slice_index bytes.now at) }
{
    at < bytes.len() && is_letter(bytes[at])
}
