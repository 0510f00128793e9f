// Why bytes give no library.
ghost use Rattle.std.specs.Prelude.{◌≡◌};
ghost use Rattle.lib_index.specs.declared.refusal.IndexRefusal.TheVariants as refusal;

use sig_base::NoMemory;

/// Why bytes give no library.
#[derive(Clone, Copy, Debug, PartialEq, Eq)]
pub enum IndexRefusal {
    /// They are the index text of no valid library.
    NotAnIndex,
    NoMemory,
}

impl From<NoMemory> for IndexRefusal {
    ghost from_gives = { λ _ r. r ≡ refusal.NoMemory };

    fn from(_: NoMemory) -> IndexRefusal {
        IndexRefusal::NoMemory
    }
}
