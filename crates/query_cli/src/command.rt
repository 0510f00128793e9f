// What can be asked for.
use sig_base::{List, NoMemory, Str};

/// In which way a search compares types.
#[derive(Clone, Copy, Debug, PartialEq, Eq)]
pub enum FindMode {
    /// Up to the names of type variables.
    Same,
    /// Up to isomorphism.
    Iso,
    /// As instances up to linear isomorphism.
    General,
}

/// What a list of words asks for.
#[derive(Debug, Drop)]
pub enum Command {
    /// All members of files, or of one index.
    Listing {
        files: List<Str>,
        from_index: bool,
    },
    /// The members that a query finds; with `names` neither instances nor converters are told.
    Find {
        mode: FindMode,
        query: Str,
        files: List<Str>,
        names: bool,
        from_index: bool,
    },
    /// To write the index of files.
    Index {
        out: Str,
        files: List<Str>,
    },
    /// To search a library that is made from a number.
    Gen {
        n: u32,
    },
}

/// Why there is no command.
#[derive(Clone, Copy, Debug, PartialEq, Eq)]
pub enum WordsRefusal {
    /// The words are no command, as `list` without a file.
    Usage,
    /// Memory was wanted.
    NoMemory,
}

impl From<NoMemory> for WordsRefusal {
    ghost use Rattle.std.specs.Prelude.{◌≡◌};
    ghost use Rattle.query_cli.specs.declared.command.WordsRefusal.TheVariants as refusal;

    ghost from_gives = { λ _ given. given ≡ refusal.NoMemory };

    fn from(_: NoMemory) -> WordsRefusal {
        WordsRefusal::NoMemory
    }
}
