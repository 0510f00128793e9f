// Variables in the order in which they are met.
ghost use Rattle.std.specs.Prelude.{◌≡◌, ◌≤◌, [], length, OnOk};
ghost use Rattle.type_core.specs.Variables.{meet, place};

use crate::ty::VarId;
use indexmap::IndexSet;
use sig_base::NoMemory;
use std::alloc::Global;
use std::marker::Model;

/// Variables, each once, in the order in which they were first met. A variable's place is found by its hash.
#[derive(Drop)]
pub(crate) struct Met {
    variables: IndexSet<VarId>,
}

impl Model for Met {
    ghost use Rattle.std.specs.Coded.{codes};
    ghost use Rattle.std.specs.Prelude.{List};
    ghost use Rattle.type_core.specs.contracts.ty.VarId as the_variables;
    ghost use Rattle.type_core.specs.declared.ty.VarId.{VarId};

    ghost Value = { List VarId };

    ghost coded = { Prim.hlevel (codes, the_variables.the_row.coded) };

    ghost view = { λ met. met.variables.keys };
}

impl Met {
    /// No variable has been met.
    pub(crate) fn new(alloc: Global) -> Met
        ensures empty { result ≡ [] }
    {
        Met {
            variables: IndexSet::new(alloc),
        }
    }

    /// Adds a variable, where it is new.
    pub(crate) fn meet(&mut self, v: VarId) -> Result<(), NoMemory>
        ensures met { OnOk result (self.new ≡ meet self.old v) }
    {
        let _ = self.variables.insert_full(v)?;
        Ok(())
    }

    /// How many variables were met before this one; all of them, where it wasn't met.
    pub(crate) fn place(&self, v: VarId) -> usize
        ensures value { result ≡ place v self.now }
        ensures within { result ≤ length self.now }
    {
        match self.variables.get_index_of(&v) {
            Some(place) => place,
            None => self.variables.len(),
        }
    }

    /// The variables.
    pub(crate) fn as_slice(&self) -> &[VarId]
        ensures value { result.now ≡ self.now }
    {
        self.variables.as_slice()
    }
}
