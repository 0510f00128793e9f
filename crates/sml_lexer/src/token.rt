// What reading gives.
use sig_base::{NoMemory, Span, Word};

/// The sort of a token.
#[derive(Clone, Copy, Debug, PartialEq, Eq)]
pub enum TokenKind {
    /// A reserved word.
    Reserved(Word),
    /// A type variable, as `'a` and `''a`.
    TyVar,
    /// An alphanumeric identifier, as `list`.
    Alpha,
    /// A symbolic identifier, as `*`.
    Sym,
    /// A long identifier, as `Int.int`.
    Long,
    /// A numeral, as `1`.
    Num,
}

/// A token, whose text is its slice of the source.
#[derive(Clone, Copy, Debug, PartialEq, Eq)]
pub struct Token {
    pub kind: TokenKind,
    pub span: Span,
}

/// Why a text has no tokens.
#[derive(Clone, Copy, Debug, PartialEq, Eq)]
pub enum LexRefusal {
    /// Reading reaches this byte, and no separator, comment or token begins there.
    BadByte(u32),
    /// Reading reaches this byte, and the comment that begins there isn't closed.
    OpenComment(u32),
    /// Reading reaches this byte, and the token that begins there has a part of more than 255 bytes.
    LongName(u32),
    /// Memory was wanted.
    NoMemory,
}

impl From<NoMemory> for LexRefusal {
    ghost use Rattle.std.specs.Prelude.{◌≡◌};
    ghost use Rattle.sml_lexer.specs.declared.token.LexRefusal.TheVariants.{NoMemory};

    ghost from_gives = { λ _ refusal. refusal ≡ NoMemory };

    fn from(_: NoMemory) -> LexRefusal {
        LexRefusal::NoMemory
    }
}
