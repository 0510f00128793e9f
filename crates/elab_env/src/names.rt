// All names.
ghost use Rattle.std.specs.Prelude.{◌≡◌, ◌<◌, ◌≤◌, ◌++◌, ◌∷◌, [], IfOk, OnErr, OnOk, length, slice_get};
ghost use Rattle.std.specs.Option.{option_copied};
ghost use Rattle.elab_env.specs.Names.{external_number, with_equality};

use crate::externals::Externals;
use sig_base::{NoMemory, Text};
use std::alloc::Global;
use std::marker::Model;
use type_core::{Equality, NameId, TypeName};

/// Names in the order of their numbers, of which the external ones are found by path and arity.
#[derive(Drop)]
pub struct Names {
    list: Vec<TypeName>,
    externals: Externals,
}

impl Model for Names {
    ghost use Rattle.std.specs.Prelude.{List};
    ghost use Rattle.type_core.specs.declared.names.TypeName.{TypeName};

    ghost Value = { List TypeName };

    ghost use Rattle.elab_env.specs.Externals.{AreNumbered};

    ghost view = { λ names. names.list.items };

    ghost invariant = { λ names. AreNumbered names.list.items names.externals };
}

fn copy_name(alloc: Global, name: &TypeName) -> Result<TypeName, NoMemory>
    ensures value { IfOk result (λ copy. copy ≡ name.now) }
{
    Ok(TypeName {
        path: Text::from_slice(alloc, name.path.as_slice())?,
        arity: name.arity,
        equality: name.equality,
        external: name.external,
    })
}

impl Names {
    /// Copies of these names.
    pub fn copy_of(alloc: Global, names: &[TypeName]) -> Result<Names, NoMemory>
        requires numbered { length names.now ≤ 4294967296 }
        ensures value { IfOk result (λ copies. copies ≡ names.now) }
    {
        let mut copies = Names {
            list: Vec::new(alloc),
            externals: Externals::new(alloc),
        };
        for name in names {
            copies.push(alloc, copy_name(alloc, name)?)?;
        }
        Ok(copies)
    }

    pub fn as_slice(&self) -> &[TypeName]
        ensures value { result.now ≡ self.now }
    {
        self.list.as_slice()
    }

    pub fn len(&self) -> usize
        ensures value { result ≡ length self.now }
    {
        self.list.len()
    }

    /// The name with this number, if there are so many.
    pub fn get(&self, n: NameId) -> Option<&TypeName>
        ensures value { option_copied result ≡ slice_get self.now n.0 }
    {
        self.list.get(n.0 as usize)
    }

    /// The number of the external name of this path and arity, if there is one.
    pub fn find(&self, alloc: Global, path: &[u8], arity: u32) -> Result<Option<u32>, NoMemory>
        ensures value { IfOk result (λ n. n ≡ external_number path.now arity self.now) }
    {
        self.externals.find(alloc, path, arity)
    }

    /// Adds a name at the end.
    pub fn push(&mut self, alloc: Global, name: TypeName) -> Result<(), NoMemory>
        requires numbered { length self.old < 4294967296 }
        ensures pushed { OnOk result (self.new ≡ self.old ++ name ∷ []) }
        ensures kept { OnErr result (self.new ≡ self.old) }
    {
        let n = self.list.len();
        self.list.push(name)?;
        match self.externals.add(alloc, &self.list[n], n as u32) {
            Ok(()) => Ok(()),
            Err(NoMemory) => {
                let _ = self.list.pop();
                Err(NoMemory)
            }
        }
    }

    /// Gives a name another equality.
    pub fn set_equality(&mut self, n: NameId, equality: Equality)
        requires within { n.0 < length self.old }
        ensures value { self.new ≡ with_equality n.0 equality self.old }
    {
        self.list[n.0 as usize].equality = equality;
    }
}
