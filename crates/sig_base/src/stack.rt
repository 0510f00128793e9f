// A stack of values.
ghost use Rattle.std.specs.Prelude.{◌≡◌, [], ◌∷◌, ◌++◌, ◌↔◌, length, IsTrue, IfOk, IfSome, IfNone, OnOk, OnErr};
ghost use Rattle.sig_base.specs.Stacks.{last_of, before_last};

use crate::{List, NoMemory};
use std::alloc::Global;
use std::marker::Model;
use std::mem;

// So many values are handed over with their memory, and not copied into a list of their size.
const MANY: usize = 1024;

/// A list of values, of which the last so many can be taken off at once.
#[derive(Debug, Drop)]
pub struct Stack<T> {
    items: Vec<T>,
}

impl<T> Model for Stack<T> {
    ghost use Rattle.std.specs.Coded.{coded_list};
    ghost use Rattle.std.specs.Prelude.{List};

    ghost Value = { List T };

    ghost coded = { coded_list T.code };

    ghost view = { λ stack. stack.items.items };
}

impl<T> Stack<T> {
    /// The stack of nothing.
    pub fn new(alloc: Global) -> Stack<T>
        ensures empty { result ≡ [] }
    {
        Stack {
            items: Vec::new(alloc),
        }
    }

    /// The values as a slice.
    pub fn as_slice(&self) -> &[T]
        ensures value { result.now ≡ self.now }
    {
        self.items.as_slice()
    }

    /// How many values there are.
    pub fn len(&self) -> usize
        ensures value { result ≡ length self.now }
    {
        self.items.len()
    }

    /// Whether there is none.
    pub fn is_empty(&self) -> bool
        ensures value { IsTrue result ↔ (self.now ≡ []) }
    {
        self.items.is_empty()
    }

    /// Whether there is none among the last so many.
    pub fn has_none(&self, count: usize) -> bool
        ensures value { IsTrue result ↔ (last_of count self.now ≡ []) }
    {
        if count == 0 {
            return true;
        }
        self.is_empty()
    }
}

impl<T: Drop> Stack<T> {
    /// Adds a value at the end. The first of all takes no more room than it needs. Where memory is wanting
    /// the stack stays as it was, and `item` is dropped.
    pub fn push(&mut self, item: T) -> Result<(), NoMemory>
        ensures pushed { OnOk result (self.new ≡ self.old ++ item ∷ []) }
        ensures kept { OnErr result (self.new ≡ self.old) }
    {
        if self.items.capacity() == 0 {
            self.items.reserve_exact(1)?;
        }
        match self.items.push(item) {
            Ok(()) => Ok(()),
            Err(_) => Err(NoMemory),
        }
    }

    /// Adds a value at the end, and gives how many the last so many are with it. Where memory is wanting the
    /// stack stays as it was, and `item` is dropped.
    pub fn push_counted(&mut self, count: usize, item: T) -> Result<usize, NoMemory>
        ensures last { IfOk result (λ more. last_of more self.new ≡ last_of count self.old ++ item ∷ []) }
        ensures before { IfOk result (λ more. before_last more self.new ≡ before_last count self.old) }
        ensures kept { OnErr result (self.new ≡ self.old) }
    {
        self.push(item)?;
        let all = self.items.len();
        if count < all {
            return Ok(count + 1);
        }
        Ok(all)
    }

    /// Takes the last value off; `None` exactly where there is none.
    pub fn pop(&mut self) -> Option<T>
        ensures popped { IfSome result (λ x. self.old ≡ self.new ++ x ∷ []) }
        ensures none { IfNone result ((self.old ≡ []) × (self.new ≡ [])) }
    {
        self.items.pop()
    }

    /// Takes the last so many values off, or all where there are fewer. Where memory is wanting the stack
    /// stays as it was.
    pub fn take_last(&mut self, count: usize) -> Result<List<T>, NoMemory>
        ensures taken { IfOk result (λ taken. taken ≡ last_of count self.old) }
        ensures rest { OnOk result (self.new ≡ before_last count self.old) }
        ensures kept { OnErr result (self.new ≡ self.old) }
    {
        let at = self.items.len().saturating_sub(count);
        if at == 0 {
            return self.take_all();
        }
        let taken = self.items.split_off(at)?;
        Ok(List::from_vec(taken))
    }

    /// Takes all values off, as a list. Where memory is wanting the stack stays as it was.
    pub fn take_all(&mut self) -> Result<List<T>, NoMemory>
        ensures taken { IfOk result (λ taken. taken ≡ self.old) }
        ensures rest { OnOk result (self.new ≡ []) }
        ensures kept { OnErr result (self.new ≡ self.old) }
    {
        if self.items.len() < MANY {
            let taken = self.items.split_off(0)?;
            return Ok(List::from_vec(taken));
        }
        let alloc = *self.items.allocator();
        let taken = mem::replace(&mut self.items, Vec::new(alloc));
        Ok(List::from_vec(taken))
    }

    /// Takes all values off.
    pub fn clear(&mut self)
        ensures empty { self.new ≡ [] }
    {
        self.items.clear();
    }
}
