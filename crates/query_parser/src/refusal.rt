// Why a query is refused.
ghost use Rattle.std.specs.Prelude.{◌≡◌};
ghost use Rattle.query_parser.specs.Queries.{of_text};
ghost use Rattle.query_parser.specs.Views.{refusal_of};
ghost use Rattle.query_parser.specs.declared.refusal.QueryRefusal.TheVariants as refusal;
ghost use Rattle.query_parser.specs.declared.refusal.Stop.TheVariants as stop;

use elab_types::{TextFault, TextRefusal};
use sig_base::NoMemory;

/// What is wrong with a query, at a place that is told beside it.
#[derive(Clone, Copy, Debug, PartialEq, Eq)]
pub enum QueryWhy {
    /// No separator, comment or token begins there.
    BadByte,
    /// A comment begins there that isn't closed.
    OpenComment,
    /// A token begins there that has a part of more than 255 bytes.
    LongName,
    /// The tokens before it begin a type, and with the one there they don't.
    Syntax,
    /// A `(` or a `{` stands there, with 200 of them open before it.
    TooDeep,
    /// No type constructor has this path.
    Unbound,
    /// The type constructor takes another number of arguments.
    WrongArity,
    /// The label stood before in its record.
    Duplicate,
    /// The query has more than 4,194,304 bytes, or a type in it more than 200 nodes.
    TooLarge,
    /// The normal form of the type has more than 8,000 nodes.
    NormalTooLarge,
}

/// Why a query has no scheme.
#[derive(Clone, Copy, Debug, PartialEq, Eq)]
pub enum QueryRefusal {
    /// This is wrong with it, at this byte.
    Refused(QueryWhy, u32),
    NoMemory,
}

impl From<NoMemory> for QueryRefusal {
    ghost from_gives = { λ _ r. r ≡ refusal.NoMemory };

    fn from(_: NoMemory) -> QueryRefusal {
        QueryRefusal::NoMemory
    }
}

impl From<TextRefusal> for QueryRefusal {
    ghost from_gives = { λ text r. r ≡ refusal_of text };

    fn from(text: TextRefusal) -> QueryRefusal {
        match text {
            TextRefusal::Refused(wrong, place) => QueryRefusal::Refused(why_of(wrong), place),
            TextRefusal::NoMemory => QueryRefusal::NoMemory,
        }
    }
}

// How a query is refused for a fault of its text.
fn why_of(wrong: TextFault) -> QueryWhy
    ensures value { result ≡ of_text wrong }
{
    match wrong {
        TextFault::BadByte => QueryWhy::BadByte,
        TextFault::OpenComment => QueryWhy::OpenComment,
        TextFault::LongName => QueryWhy::LongName,
        TextFault::Syntax => QueryWhy::Syntax,
        TextFault::TooDeep => QueryWhy::TooDeep,
    }
}

/// Why a type expression has no type: the condition that failed and the number of its token, or want of
/// memory.
#[derive(Clone, Copy, Debug, PartialEq, Eq)]
pub enum Stop {
    Failed(QueryWhy, u32),
    NoMemory,
}

impl From<NoMemory> for Stop {
    ghost from_gives = { λ _ r. r ≡ stop.NoMemory };

    fn from(_: NoMemory) -> Stop {
        Stop::NoMemory
    }
}
