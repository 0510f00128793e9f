// Top identifiers.
ghost use Rattle.elab_rules.specs.Details.{AreDetails};
ghost use Rattle.elab_rules.specs.Places.{ArePlaced};

use crate::detail::Detail;
use crate::entry::UnitEntry;
use elab_types::Places;

/// Top identifiers in the order of their declaration, with what they have, what is kept beside each, and the
/// places of their texts.
#[derive(Drop)]
pub struct Units {
    pub entries: Vec<UnitEntry>,
    pub details: Vec<Detail>,
    pub places: Places,
    ghost placed: { ArePlaced places entries.items },
    ghost detailed: { AreDetails details.items entries.items },
}
