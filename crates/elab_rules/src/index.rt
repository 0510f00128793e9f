// Where the identifiers of an environment stand.
ghost use Rattle.std.specs.Prelude.{◌≡◌, ◌++◌, ◌∷◌, [], IfOk, OnOk, length, List};
ghost use Rattle.elab_rules.specs.Environments.{the_structure};
ghost use Rattle.elab_rules.specs.Indexes.{IsIndex};
ghost use Rattle.elab_rules.specs.declared.entry.Entry.{Entry as AnEntry};

use crate::entry::Entry;
use elab_types::Places;
use sig_base::{List, NoMemory};
use std::alloc::Global;

/// For each identifier of an environment the place of the first entry that has it, among the type
/// constructors, the values and the structures. A structure's place is that of its `Inner`.
#[cycle(index)]
#[derive(Drop)]
pub struct Index {
    pub types: Places,
    pub values: Places,
    pub structures: Places,
    pub inner: List<Inner>,
}

/// The place of a structure, and where the identifiers of what it has stand.
#[cycle(index)]
#[derive(Drop)]
pub struct Inner {
    pub place: usize,
    pub index: Index,
}

impl Index {
    pub fn new(alloc: Global) -> Index
        ensures empty { IsIndex result [] }
    {
        Index {
            types: Places::new(alloc),
            values: Places::new(alloc),
            structures: Places::new(alloc),
            inner: List::new(alloc),
        }
    }

    /// Gives a structure's identifier its place, where it has none.
    pub fn add_structure(
        &mut self,
        alloc: Global,
        id: &[u8],
        place: usize,
        index: Index,
    ) -> Result<(), NoMemory>
        ensures added { OnOk result ((before : List AnEntry) (inner : List AnEntry) → IsIndex self.old before → place ≡ length before → IsIndex index inner → IsIndex self.new (before ++ the_structure id.now inner ∷ [])) }
    {
        if self.structures.has(id) {
            return Ok(());
        }
        self.structures.insert(alloc, id, self.inner.len())?;
        self.inner.push(Inner { place, index })
    }
}

// Gives the identifier of the entry at a place its place, where it has none.
#[cycle(indexing)]
pub fn index_entry(
    alloc: Global,
    entry: &Entry,
    place: usize,
    index: &mut Index,
) -> Result<(), NoMemory>
    ensures added { OnOk result ((before : List AnEntry) → IsIndex index.old before → place ≡ length before → IsIndex index.new (before ++ entry.now ∷ [])) }
{
    match entry {
        Entry::Tycon(tycon) => index.types.insert_new(alloc, tycon.id.as_slice(), place),
        Entry::Value(value) => index.values.insert_new(alloc, value.id.as_slice(), place),
        Entry::Structure(id, entries) => {
            let inner = index_of(alloc, entries.as_slice())?;
            index.add_structure(alloc, id.as_slice(), place, inner)
        }
    }
}

/// Where the identifiers of an environment stand.
#[cycle(indexing)]
pub fn index_of(alloc: Global, entries: &[Entry]) -> Result<Index, NoMemory>
    ensures value { IfOk result (λ index. IsIndex index entries.now) }
{
    let mut index = Index::new(alloc);
    for (place, entry) in entries.iter().enumerate() {
        index_entry(alloc, entry, place, &mut index)?;
    }
    Ok(index)
}
