// What a token is to the grammars.
ghost use Rattle.std.specs.Prelude.{◌≡◌, ◌-◌, ◌≤◌, length, slice_index};
ghost use Rattle.sig_base.specs.Identifiers.{is_alphanumeric_byte};
ghost use Rattle.ty_parser.specs.Sorts as spec;

use sig_base::{Word, is_alphanumeric_byte};
use sml_lexer::{Token, TokenKind};

/// What a token is to the grammars of types and of files.
#[derive(Clone, Copy, Debug, PartialEq, Eq)]
pub enum Sort {
    /// A reserved word, `=` among them.
    Reserved(Word),
    /// A type variable.
    Variable,
    /// An alphanumeric identifier without dots.
    Alphanumeric,
    /// A symbolic identifier without dots, other than `*`.
    Symbolic,
    /// The identifier `*`.
    Star,
    /// A long identifier whose parts are all alphanumeric.
    LongAlphanumeric,
    /// A long identifier whose last part is symbolic, other than `*`.
    LongSymbolic,
    /// A long identifier whose last part is `*`.
    LongStar,
    /// A numeral.
    Numeral,
}

fn ends_alphanumeric(text: &[u8]) -> bool
    ensures { result ≡ is_alphanumeric_byte (slice_index text.now (length text.now - 1)) }
{
    match text.last() {
        Some(b) => is_alphanumeric_byte(*b),
        None => false,
    }
}

fn sort_of_symbol(text: &[u8]) -> Sort
    ensures { result ≡ spec.sort_of_symbol text.now }
{
    if text == b"*".as_slice() {
        Sort::Star
    } else {
        Sort::Symbolic
    }
}

fn sort_of_long(text: &[u8]) -> Sort
    ensures { result ≡ spec.sort_of_long text.now }
{
    if ends_alphanumeric(text) {
        Sort::LongAlphanumeric
    } else if text.ends_with(b".*".as_slice()) {
        Sort::LongStar
    } else {
        Sort::LongSymbolic
    }
}

/// The sort of a token of these bytes.
pub fn sort_of(bytes: &[u8], token: Token) -> Sort
    requires order { token.span.start ≤ token.span.end }
    requires within { token.span.end ≤ length bytes.now }
    ensures value { result ≡ spec.sort_of bytes.now token }
{
    match token.kind {
        TokenKind::Reserved(word) => Sort::Reserved(word),
        TokenKind::TyVar => Sort::Variable,
        TokenKind::Alpha => Sort::Alphanumeric,
        TokenKind::Sym => {
            sort_of_symbol(&bytes[token.span.start as usize..token.span.end as usize])
        }
        TokenKind::Long => {
            sort_of_long(&bytes[token.span.start as usize..token.span.end as usize])
        }
        TokenKind::Num => Sort::Numeral,
    }
}

impl Sort {
    /// An identifier without dots, as values and constructors have.
    pub fn is_vid(self) -> bool
        ensures value { result ≡ spec.is_vid self }
    {
        match self {
            Sort::Alphanumeric | Sort::Symbolic | Sort::Star => true,
            _ => false,
        }
    }

    /// An identifier without dots or a numeral, as fields of records have.
    pub fn is_label(self) -> bool
        ensures value { result ≡ spec.is_label self }
    {
        match self {
            Sort::Alphanumeric | Sort::Symbolic | Sort::Star | Sort::Numeral => true,
            _ => false,
        }
    }

    /// An identifier without dots other than `*`, as type constructors have.
    pub fn is_tycon(self) -> bool
        ensures value { result ≡ spec.is_tycon self }
    {
        match self {
            Sort::Alphanumeric | Sort::Symbolic => true,
            _ => false,
        }
    }

    /// An identifier, long or not, whose last part isn't `*`: it may name a type constructor.
    pub fn is_long_tycon(self) -> bool
        ensures value { result ≡ spec.is_long_tycon self }
    {
        match self {
            Sort::Alphanumeric | Sort::Symbolic | Sort::LongAlphanumeric | Sort::LongSymbolic => {
                true
            }
            _ => false,
        }
    }

    /// An alphanumeric identifier without dots, as structures and signatures have.
    pub fn is_strid(self) -> bool
        ensures value { result ≡ spec.is_strid self }
    {
        match self {
            Sort::Alphanumeric => true,
            _ => false,
        }
    }

    /// An identifier, long or not, whose parts are all alphanumeric: it may name a structure.
    pub fn is_long_strid(self) -> bool
        ensures value { result ≡ spec.is_long_strid self }
    {
        match self {
            Sort::Alphanumeric | Sort::LongAlphanumeric => true,
            _ => false,
        }
    }
}
