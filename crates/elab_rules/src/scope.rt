// What is seen of an environment.
ghost use Rattle.elab_rules.specs.Indexes.{IsSeen};

use crate::entry::Entry;
use crate::index::Index;

/// What is seen of an environment: its first entries, and where the identifiers of all of them stand.
#[derive(Clone, Copy)]
pub struct Scope<'a> {
    pub entries: &'a [Entry],
    pub index: &'a Index,
    ghost seen: { IsSeen index.now entries.now },
}
