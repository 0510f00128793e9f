// What is wrong with a text.
ghost use Rattle.std.specs.Prelude.{◌≡◌};
ghost use Rattle.elab_types.specs.declared.fault.TextRefusal.TheVariants as refusal;

use sig_base::NoMemory;

/// What is wrong with a text that is no phrase, at a place that is told beside it.
#[derive(Clone, Copy, Debug, PartialEq, Eq)]
pub enum TextFault {
    /// No separator, comment or token begins there.
    BadByte,
    /// A comment begins there that isn't closed.
    OpenComment,
    /// A token begins there that has a part of more than 255 bytes.
    LongName,
    /// The tokens before it begin a phrase, and with the one there they don't.
    Syntax,
    /// A `(`, a `{` or a `sig` stands there, with 200 of them open before it.
    TooDeep,
}

/// Why a text is no phrase.
#[derive(Clone, Copy, Debug, PartialEq, Eq)]
pub enum TextRefusal {
    /// This is wrong with it, at this byte.
    Refused(TextFault, u32),
    NoMemory,
}

impl From<NoMemory> for TextRefusal {
    ghost from_gives = { λ _ r. r ≡ refusal.NoMemory };

    fn from(_: NoMemory) -> TextRefusal {
        TextRefusal::NoMemory
    }
}
