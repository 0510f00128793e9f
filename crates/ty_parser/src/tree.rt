// The trees of types, and why there may be none.
use sig_base::{List, NoMemory};

/// A type as it was written. The numbers are those of tokens: a type variable, or a constructor's name.
#[cycle(ty_exp)]
#[derive(Debug, Drop)]
pub enum TyExp {
    /// A type variable.
    Var(u32),
    /// The fields of a record, in the order in which they were written.
    Fields(List<FieldExp>),
    /// The components of a tuple, two or more.
    Tuple(List<TyExp>),
    /// What stands between arrows, two or more sides: an arrow groups to the right.
    Arrows(List<TyExp>),
    /// Arguments, then one or more constructors: the first takes the arguments, each later one the
    /// application before it.
    Apply(List<TyExp>, List<u32>),
}

/// A field of a record: the number of its label's token, and its type.
#[cycle(ty_exp)]
#[derive(Debug, Drop)]
pub struct FieldExp {
    pub label: u32,
    pub ty: TyExp,
}

/// A type and the number of its first token.
#[derive(Debug, Drop)]
pub struct TypeAt {
    pub first: u32,
    pub ty: TyExp,
}

/// A type that stands among other tokens, and the number of the token after it.
#[derive(Debug, Drop)]
pub struct TypePart {
    pub ty: TypeAt,
    pub next: u32,
}

/// Why there is no tree.
#[derive(Debug, Drop)]
pub enum ParseRefusal {
    /// The first so many tokens begin a phrase, and no more of them do. Where only the end is wrong, the
    /// number is that of all tokens.
    Syntax(u32),
    /// The token with this number is a `(`, a `{` or a `sig` that can stand there, with 200 of them open
    /// before it.
    TooDeep(u32),
    NoMemory,
}

impl From<NoMemory> for ParseRefusal {
    ghost use Rattle.std.specs.Prelude.{◌≡◌};
    ghost use Rattle.ty_parser.specs.declared.tree.ParseRefusal.TheVariants as refusal;

    ghost from_gives = { λ _ r. r ≡ refusal.NoMemory };

    fn from(_: NoMemory) -> ParseRefusal {
        ParseRefusal::NoMemory
    }
}
