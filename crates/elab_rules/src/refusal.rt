// Why a file has no elaboration.
use sig_base::NoMemory;

/// The condition that failed.
#[derive(Clone, Copy, Debug, PartialEq, Eq)]
pub enum Why {
    /// No type constructor of this identifier is in scope.
    Unbound,
    /// No signature of this identifier was declared.
    UnboundSignature,
    /// A type constructor has another number of arguments than its arity.
    WrongArity,
    /// The identifier was described before, or the label stood before.
    Duplicate,
    /// A type variable is no parameter.
    FreeVariable,
    /// A parameter stood before.
    RepeatedParameter,
    /// A type constructor that is shared or realized denotes no flexible name.
    NotFlexible,
    /// Two type constructors differ in arity.
    ArityClash,
    /// A name that admits equality is realized by a type that doesn't.
    NeedsEquality,
    /// A datatype is realized by a type that is no name.
    BadRealization,
    /// The identifier was used for an external type before it was declared.
    LateUnit,
    /// A type has more than 2,000 nodes.
    TypeTooLarge,
    /// A type is higher than 200.
    TypeTooHigh,
    /// The normal form of a type has more than 8,000 nodes.
    NormalTooLarge,
    /// The library has more than 100,000 members.
    TooManyMembers,
    /// The library, or all that was described, is too heavy.
    LibraryTooLarge,
}

/// Why a file has no elaboration: the first condition that failed and the number of its token, or want of
/// memory.
#[derive(Clone, Copy, Debug, PartialEq, Eq)]
pub enum ElabRefusal {
    Refused(Why, u32),
    NoMemory,
}

impl From<NoMemory> for ElabRefusal {
    ghost use Rattle.std.specs.Prelude.{◌≡◌};
    ghost use Rattle.elab_rules.specs.declared.refusal.ElabRefusal.TheVariants as refusal;

    ghost from_gives = { λ _ r. r ≡ refusal.NoMemory };

    fn from(_: NoMemory) -> ElabRefusal {
        ElabRefusal::NoMemory
    }
}
