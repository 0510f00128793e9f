// A body so far.
ghost use Rattle.std.specs.Prelude.{◌≡◌, ◌++◌, ◌∷◌, [], ℕ, IfOk, IsTrue, List, None, take};
ghost use Rattle.elab_rules.specs.Environments.{is_new_structure, is_new_type, is_new_value, structure_of, the_structure, the_type, the_value};
ghost use Rattle.elab_rules.specs.Distinct.{AreDistinct};
ghost use Rattle.elab_rules.specs.Indexes.{IsIndex};
ghost use Rattle.elab_rules.specs.declared.entry.Entry.{out-Entry};
ghost use Rattle.elab_rules.specs.Specifications.{are_new, is_new_step};

use crate::entry::{Entry, TypeEntry, ValueEntry};
use crate::index::{Index, index_entry, index_of};
use crate::scope::Scope;
use sig_base::{List, NoMemory, Text};
use std::alloc::Global;

/// What a body describes so far, with the places of its identifiers.
#[derive(Drop)]
pub struct Body {
    pub entries: Vec<Entry>,
    pub index: Index,
    ghost indexed: { IsIndex index entries.items },
    ghost distinct: { AreDistinct entries.items },
}

impl Body {
    pub fn new(alloc: Global) -> Body
        ensures empty { result.entries.items ≡ [] }
    {
        Body {
            entries: Vec::new(alloc),
            index: Index::new(alloc),
        }
    }

    /// A body of these entries.
    pub fn of(alloc: Global, entries: Vec<Entry>) -> Result<Body, NoMemory>
        requires distinct { AreDistinct entries.items }
        ensures value { IfOk result (λ body. body.entries.items ≡ entries.items) }
    {
        let index = index_of(alloc, entries.as_slice())?;
        Ok(Body { entries, index })
    }

    /// All of it.
    pub fn scope(&self) -> Scope<'_>
        ensures value { result.entries.now ≡ self.now.entries.items }
    {
        Scope {
            entries: self.entries.as_slice(),
            index: &self.index,
        }
    }

    /// So many of its entries.
    pub fn scope_before(&self, count: usize) -> Scope<'_>
        ensures value { result.entries.now ≡ take count self.now.entries.items }
    {
        let count = count.min(self.entries.len());
        Scope {
            entries: &self.entries[..count],
            index: &self.index,
        }
    }

    /// The body with one more type constructor, whose identifier is new.
    pub fn with_type(self, alloc: Global, entry: TypeEntry) -> Result<Body, NoMemory>
        requires new { IsTrue (is_new_type entry.id self.entries.items) }
        ensures pushed { IfOk result (λ body. body.entries.items ≡ self.entries.items ++ the_type entry ∷ []) }
    {
        self.with(alloc, Entry::Tycon(entry))
    }

    /// The body with one more value, whose identifier is new.
    pub fn with_value(self, alloc: Global, entry: ValueEntry) -> Result<Body, NoMemory>
        requires new { IsTrue (is_new_value entry.id self.entries.items) }
        ensures pushed { IfOk result (λ body. body.entries.items ≡ self.entries.items ++ the_value entry ∷ []) }
    {
        self.with(alloc, Entry::Value(entry))
    }

    /// The body with one more structure, whose identifier is new.
    pub fn with_structure(self, alloc: Global, id: &[u8], inner: Body) -> Result<Body, NoMemory>
        requires new { IsTrue (is_new_structure id.now self.entries.items) }
        ensures pushed { IfOk result (λ body. body.entries.items ≡ self.entries.items ++ the_structure id.now inner.entries.items ∷ []) }
    {
        let Body {
            mut entries,
            mut index,
        } = self;
        let Body {
            entries: inner_entries,
            index: inner_index,
        } = inner;
        index.add_structure(alloc, id, entries.len(), inner_index)?;
        let id = Text::from_slice(alloc, id)?;
        entries.push(Entry::Structure(id, List::from_vec(inner_entries)))?;
        Ok(Body { entries, index })
    }

    /// The body with the entries of another one, all of which are new.
    pub fn with_all(self, alloc: Global, more: Body) -> Result<Body, NoMemory>
        requires new { IsTrue (are_new more.entries.items self.entries.items) }
        ensures pushed { IfOk result (λ body. body.entries.items ≡ self.entries.items ++ more.entries.items) }
    {
        let Body {
            mut entries,
            mut index,
        } = self;
        let Body {
            entries: mut added,
            index: _,
        } = more;
        let count = entries.len();
        entries.append(&mut added)?;
        for place in count..entries.len() {
            index_entry(alloc, &entries[place], place, &mut index)?;
        }
        Ok(Body { entries, index })
    }

    // The body with one more entry, which is no structure.
    fn with(self, alloc: Global, entry: Entry) -> Result<Body, NoMemory>
        requires new { IsTrue (is_new_step self.entries.items (out-Entry entry)) }
        requires plain { (id : List ℕ) → structure_of id entry ≡ None }
        ensures pushed { IfOk result (λ body. body.entries.items ≡ self.entries.items ++ entry ∷ []) }
    {
        let Body {
            mut entries,
            mut index,
        } = self;
        index_entry(alloc, &entry, entries.len(), &mut index)?;
        entries.push(entry)?;
        Ok(Body { entries, index })
    }
}
