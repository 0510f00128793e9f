// What is kept beside a unit.
use crate::entry::UnitEntry;
use crate::index::Index;
use crate::own_names::OwnNames;

/// What is kept beside a unit: where its identifiers stand, and its own names.
#[derive(Drop)]
pub struct Detail {
    pub index: Index,
    pub own: OwnNames,
}

/// A unit that was found.
#[derive(Clone, Copy)]
pub struct Top<'a> {
    pub unit: &'a UnitEntry,
    pub detail: &'a Detail,
}
