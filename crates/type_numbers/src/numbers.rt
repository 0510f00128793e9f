// Types that are numbered as they come.
ghost use Rattle.std.specs.Prelude.{◌≡◌, ◌⊎◌, [], ◌∷◌, ◌++◌, IfOk, OnErr};
ghost use Rattle.type_intern.specs.Numbering.{StandsOnce};
ghost use Rattle.type_numbers.specs.Numbers.{IsNumbered};

use indexmap::IndexSet;
use sig_base::NoMemory;
use std::alloc::Global;
use std::marker::Model;
use type_core::Ty;
use type_intern::{Arena, TyId};

/// Distinct types, numbered from 0 in the order in which they come.
///
/// Contracts see the list of these types.
#[derive(Drop)]
pub struct TypeNumbers {
    arena: Arena,
    ids: IndexSet<TyId>,
}

impl Model for TypeNumbers {
    ghost use Rattle.std.specs.Prelude.{List};
    ghost use Rattle.type_core.specs.declared.ty.Ty.{Ty};

    ghost Value = { List Ty };

    ghost use Rattle.type_core.specs.contracts.ty.Ty as the_types;
    ghost use Rattle.std.specs.Coded.{codes};

    ghost coded = { Prim.hlevel (codes, the_types.the_row.coded) };

    ghost use Rattle.type_numbers.specs.Numbers.{AreNumbers, types_under};

    ghost view = { λ numbers. types_under numbers.arena.types numbers.ids.keys };

    ghost invariant = { λ numbers. AreNumbers numbers.arena.types numbers.ids.keys };
}

impl TypeNumbers {
    /// No types.
    pub fn new(alloc: Global) -> Result<TypeNumbers, NoMemory>
        ensures empty { IfOk result (λ numbers. numbers ≡ []) }
    {
        Ok(TypeNumbers {
            arena: Arena::new(alloc)?,
            ids: IndexSet::new(alloc),
        })
    }

    /// The number of the type; a type that hasn't come before gets the next.
    pub fn number(&mut self, t: &Ty) -> Result<usize, NoMemory>
        ensures value { IfOk result (IsNumbered self.old t.now self.new) }
        ensures once { StandsOnce self.new }
        ensures kept { OnErr result (self.new ≡ self.old) }
    {
        let id = self.arena.intern(t)?;
        place_of(&mut self.ids, id)
    }
}

// The place of the number; one that isn't there goes to the end.
fn place_of(ids: &mut IndexSet<TyId>, id: TyId) -> Result<usize, NoMemory>
    ensures value { IfOk result (IsNumbered ids.old.keys id ids.new.keys) }
    ensures grows { (ids.new.keys ≡ ids.old.keys) ⊎ (ids.new.keys ≡ ids.old.keys ++ id ∷ []) }
    ensures once { StandsOnce ids.old.keys → StandsOnce ids.new.keys }
    ensures kept { OnErr result (ids.new.keys ≡ ids.old.keys) }
{
    let (place, _) = ids.insert_full(id)?;
    Ok(place)
}
