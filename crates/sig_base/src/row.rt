// A list of values with several owners.
ghost use Rattle.std.specs.Prelude.{◌≡◌, ◌↔◌, ◌<◌, [], length, slice_get, IsTrue, IfOk, OnSome};
ghost use Rattle.std.specs.Option.{option_copied};
ghost use Rattle.std.specs.Cmp.Lexicographic.{pointwise, lists_per, lists_equiv};
ghost use Rattle.std.specs.Hash as fed;
ghost use Rattle.std.specs.Hash.{items_Alike};

use crate::{List, NoMemory};
use std::alloc::Global;
use std::hash::{Hash, Hasher};
use std::marker::Model;
use std::rc::Rc;

/// A list that stays as it is, and whose copies share its values. The empty one takes no memory.
#[derive(Debug, Drop)]
pub struct Row<T> {
    items: Option<Rc<List<T>>>,
}

impl<T> Model for Row<T> {
    ghost use Rattle.std.specs.Coded.{coded_list};
    ghost use Rattle.std.specs.Prelude.{List as Values};
    ghost use Rattle.sig_base.specs.Rows.{items_of};

    ghost Value = { Values T };

    ghost coded = { coded_list T.code };

    ghost view = { λ row. items_of row.items };
}

impl<T> Row<T> {
    /// The list of nothing.
    pub fn empty() -> Row<T>
        ensures empty { result ≡ [] }
    {
        Row { items: None }
    }

    /// The values as a slice.
    pub fn as_slice(&self) -> &[T]
        ensures value { result.now ≡ self.now }
    {
        match &self.items {
            None => &[],
            Some(items) => items.as_ref().as_slice(),
        }
    }
}

impl<T> Row<T> {
    /// How many values there are.
    pub fn len(&self) -> usize
        ensures value { result ≡ length self.now }
    {
        self.as_slice().len()
    }

    /// Whether there is none.
    pub fn is_empty(&self) -> bool
        ensures value { IsTrue result ↔ (self.now ≡ []) }
    {
        self.as_slice().is_empty()
    }

    /// The value at a place, counted from 0; `None` exactly where the place is at or past the length.
    pub fn get(&self, i: usize) -> Option<&T>
        ensures value { option_copied result ≡ slice_get self.now i }
        ensures within { OnSome result (i < length self.now) }
    {
        self.as_slice().get(i)
    }
}

impl<T: Drop> Row<T> {
    /// The values of a list.
    pub fn new(alloc: Global, list: List<T>) -> Result<Row<T>, NoMemory>
        ensures value { IfOk result (λ row. row ≡ list) }
    {
        if list.is_empty() {
            return Ok(Row { items: None });
        }
        let items = Rc::new(alloc, list)?;
        Ok(Row { items: Some(items) })
    }

    /// One more owner of the same values; nothing is copied.
    pub fn share(&self) -> Result<Row<T>, NoMemory>
        ensures value { IfOk result (λ row. row ≡ self.now) }
    {
        match &self.items {
            None => Ok(Row { items: None }),
            Some(items) => {
                let items = items.clone()?;
                Ok(Row { items: Some(items) })
            }
        }
    }
}

impl<T: PartialEq> PartialEq for Row<T> {
    ghost eq = { pointwise T.eq };

    ghost laws = { lists_per T.laws };

    fn eq(&self, other: &Self) -> bool {
        self.as_slice() == other.as_slice()
    }
}

impl<T: Eq> Eq for Row<T> {
    ghost laws = { lists_equiv T.Eq.laws };
}

impl<T: Hash> Hash for Row<T> {
    ghost hash_input = { fed.slice T.hash_input };

    ghost respects_eq = { (items_Alike (record { fed = T.respects_eq })).fed };

    fn hash<H: Hasher>(&self, state: &mut H) {
        self.as_slice().hash(state);
    }
}
