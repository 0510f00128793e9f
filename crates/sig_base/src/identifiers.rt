// Identifiers, numerals and long identifiers, decided over whole texts.
ghost use Rattle.std.specs.Prelude.{◌≡◌, ◌<◌, ◌+◌, ◌∷◌, ◌↔◌, [], IsTrue, MatchOption, drop, length, take};
ghost use Rattle.std.specs.List.{list_all};
ghost use Rattle.sig_base.specs.Identifiers.{IsAlphanumeric, IsAlphanumericByte, IsIdentifier, IsLetter, IsSymbolic, IsSymbolicByte, OneThen, is_alphanumeric_byte, is_digit, is_numeral, is_symbolic_byte};
ghost use Rattle.sig_base.specs.LongIdentifiers.{HasShortParts, IsLong, IsPath, parts};

use crate::Word;
use crate::bytes::{is_alphanumeric_byte, is_digit, is_letter, is_symbolic_byte};

const MAX_BYTES: usize = 255;

fn are_digits(text: &[u8]) -> bool
    ensures value { result ≡ list_all is_digit text.now }
{
    for b in text {
        if !is_digit(*b) {
            return false;
        }
    }
    true
}

fn are_alphanumeric(text: &[u8]) -> bool
    ensures value { result ≡ list_all is_alphanumeric_byte text.now }
{
    for b in text {
        if !is_alphanumeric_byte(*b) {
            return false;
        }
    }
    true
}

fn are_symbolic(text: &[u8]) -> bool
    ensures value { result ≡ list_all is_symbolic_byte text.now }
{
    for b in text {
        if !is_symbolic_byte(*b) {
            return false;
        }
    }
    true
}

/// Whether a text is a numeral: digits, and the first of them isn't 0.
pub fn is_numeral(text: &[u8]) -> bool
    ensures value { result ≡ is_numeral text.now }
{
    match text {
        [] => false,
        [first, ..] => *first != b'0' && are_digits(text),
    }
}

fn is_alphanumeric_word(text: &[u8]) -> bool
    ensures exact { IsTrue result ↔ OneThen IsLetter IsAlphanumericByte text.now }
{
    match text {
        [] => false,
        [first, rest @ ..] => is_letter(*first) && are_alphanumeric(rest),
    }
}

fn is_symbolic_word(text: &[u8]) -> bool
    ensures exact { IsTrue result ↔ OneThen IsSymbolicByte IsSymbolicByte text.now }
{
    match text {
        [] => false,
        [first, rest @ ..] => is_symbolic_byte(*first) && are_symbolic(rest),
    }
}

/// Whether a text is an alphanumeric identifier, as `list`.
pub fn is_alphanumeric(text: &[u8]) -> bool
    ensures exact { IsTrue result ↔ IsAlphanumeric text.now }
{
    is_alphanumeric_word(text) && Word::of(text).is_none()
}

/// Whether a text is a symbolic identifier, as `*`.
pub fn is_symbolic(text: &[u8]) -> bool
    ensures exact { IsTrue result ↔ IsSymbolic text.now }
{
    is_symbolic_word(text) && Word::of(text).is_none()
}

/// Whether a text is an identifier without dots.
pub fn is_identifier(text: &[u8]) -> bool
    ensures exact { IsTrue result ↔ IsIdentifier text.now }
{
    is_alphanumeric(text) || is_symbolic(text)
}

/// The place of the first dot of a text.
pub fn first_dot(text: &[u8]) -> Option<usize>
    ensures value { MatchOption result (parts text.now ≡ text.now ∷ []) (λ dot. (dot < length text.now) × (parts text.now ≡ take dot text.now ∷ parts (drop (dot + 1) text.now))) }
{
    for (i, b) in text.iter().enumerate() {
        if *b == b'.' {
            return Some(i);
        }
    }
    None
}

/// Whether a text is an identifier, long or not.
pub fn is_long(text: &[u8]) -> bool
    ensures exact { IsTrue result ↔ IsLong IsIdentifier text.now }
{
    let mut rest = text;
    'parts: while let Some(dot) = first_dot(rest) {
        if !is_alphanumeric(&rest[..dot]) {
            return false;
        }
        rest = &rest[dot + 1..];
    }
    is_identifier(rest)
}

/// Whether the parts of a text have at most 255 bytes each.
pub fn has_short_parts(text: &[u8]) -> bool
    ensures exact { IsTrue result ↔ HasShortParts text.now }
{
    let mut rest = text;
    'parts: while let Some(dot) = first_dot(rest) {
        if MAX_BYTES < dot {
            return false;
        }
        rest = &rest[dot + 1..];
    }
    rest.len() <= MAX_BYTES
}

/// Whether a text is a long identifier, as `Int.int`: of at least two parts, each of at most 255 bytes.
pub fn is_long_identifier(text: &[u8]) -> bool
    ensures exact { IsTrue result ↔ (IsPath IsIdentifier text.now × HasShortParts text.now) }
{
    match first_dot(text) {
        None => false,
        Some(_) => is_long(text) && has_short_parts(text),
    }
}
