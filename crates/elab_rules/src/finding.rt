// Finding identifiers in what is seen of an environment.
ghost use Rattle.std.specs.Prelude.{◌≡◌, ◌<◌, IfSome};
ghost use Rattle.std.specs.Option.{option_copied};
ghost use Rattle.elab_rules.specs.Environments.{is_new_structure, is_new_type, is_new_value, structure_in, type_in, value_in};
ghost use Rattle.elab_rules.specs.Indexes.{below};
ghost use Rattle.elab_rules.specs.Specifications.{is_new_step};
ghost use Rattle.elab_rules.specs.Views.{entries_seen};
ghost use Rattle.elab_rules.specs.declared.entry.Entry.{out-Entry};

use crate::entry::{Entry, TypeEntry, ValueEntry};
use crate::index::Inner;
use crate::scope::Scope;

/// The place, if it is one of the first `count`.
pub fn below(place: Option<usize>, count: usize) -> Option<usize>
    ensures value { result ≡ below place count }
    ensures within { IfSome result (λ place. place < count) }
{
    match place {
        Some(place) if place < count => Some(place),
        _ => None,
    }
}

impl<'a> Scope<'a> {
    /// The type constructor of this identifier.
    pub fn find_type(&self, id: &[u8]) -> Option<&'a TypeEntry>
        ensures value { option_copied result ≡ type_in id.now self.now.entries.now }
    {
        let place = below(self.index.types.get(id), self.entries.len())?;
        match &self.entries[place] {
            Entry::Tycon(entry) => Some(entry),
            _ => None,
        }
    }

    /// The value of this identifier.
    pub fn find_value(&self, id: &[u8]) -> Option<&'a ValueEntry>
        ensures value { option_copied result ≡ value_in id.now self.now.entries.now }
    {
        let place = below(self.index.values.get(id), self.entries.len())?;
        match &self.entries[place] {
            Entry::Value(entry) => Some(entry),
            _ => None,
        }
    }

    /// What the structure of this identifier has.
    pub fn find_structure(&self, id: &[u8]) -> Option<Scope<'a>>
        ensures value { entries_seen result ≡ structure_in id.now self.now.entries.now }
    {
        let inner: &'a Inner = self.index.inner.get(self.index.structures.get(id)?)?;
        let place = below(Some(inner.place), self.entries.len())?;
        match &self.entries[place] {
            Entry::Structure(_, entries) => Some(Scope {
                entries: entries.as_slice(),
                index: &inner.index,
            }),
            _ => None,
        }
    }

    /// Whether no type constructor has the identifier.
    pub fn is_new_type(&self, id: &[u8]) -> bool
        ensures value { result ≡ is_new_type id.now self.now.entries.now }
    {
        self.find_type(id).is_none()
    }

    /// Whether no value has the identifier.
    pub fn is_new_value(&self, id: &[u8]) -> bool
        ensures value { result ≡ is_new_value id.now self.now.entries.now }
    {
        self.find_value(id).is_none()
    }

    /// Whether no structure has the identifier.
    pub fn is_new_structure(&self, id: &[u8]) -> bool
        ensures value { result ≡ is_new_structure id.now self.now.entries.now }
    {
        self.find_structure(id).is_none()
    }

    /// Whether the entry's identifier is new, among those of its kind.
    pub fn is_new(&self, entry: &Entry) -> bool
        ensures value { result ≡ is_new_step self.now.entries.now (out-Entry entry.now) }
    {
        match entry {
            Entry::Tycon(entry) => self.is_new_type(entry.id.as_slice()),
            Entry::Value(entry) => self.is_new_value(entry.id.as_slice()),
            Entry::Structure(id, _) => self.is_new_structure(id.as_slice()),
        }
    }
}
