// The table of names.
ghost use Rattle.std.specs.Prelude.{◌≡◌, ◌<◌, ◌++◌, ◌∷◌, [], IfOk, IsTrue, OnOk, OnErr, None, Some, drop, length, min, replicate, slice_get, unwrap_or};
ghost use Rattle.type_core.specs.InitialNames.{initial_names};
ghost use Rattle.type_core.specs.Size.{size_of};
ghost use Rattle.type_core.specs.TypeFunctions.{IsTypeFn};
ghost use Rattle.type_core.specs.Types.{IsOver, IsTypeOver};
ghost use Rattle.elab_env.specs.Avoids.{Avoids};
ghost use Rattle.elab_env.specs.Names.{arity_of, described, external_number, is_described, joined_equality, with_equality, with_external};
ghost use Rattle.elab_env.specs.Places.{place_in};
ghost use Rattle.elab_env.specs.Realizations.{function_resolved, resolved};
ghost use Rattle.elab_env.specs.Sound.{IsResolved, IsSound};
ghost use Rattle.elab_env.specs.Table.{Table, is_free, joining, with_joined};

use crate::denoting::name_function;
use crate::names::Names;
use crate::realization::{Realization, copy_realizations};
use crate::resolving::resolve;
use crate::sizes::{Sizes, size_from};
use sig_base::{List, NoMemory, Text};
use std::alloc::Global;
use std::marker::Model;
use type_core::{Equality, NameId, Ty, TypeFn, TypeName, initial_names};

// How many names are initial.
const INITIAL: u32 = 14;

/// All names, and what became of those that were realized.
#[derive(Drop)]
pub struct NameTable {
    alloc: Global,
    names: Names,
    realizations: List<Realization>,
    /// For each name the place of its realization, if it has one.
    places: Vec<Option<usize>>,
}

impl Model for NameTable {
    ghost use Rattle.std.specs.Coded.{codes};
    ghost use Rattle.type_core.specs.contracts.ty.Ty as types;
    ghost use Rattle.elab_env.specs.Table.{Table};

    ghost Value = { Table };

    ghost coded = { Prim.hlevel (codes, types.the_row.coded) };

    ghost use Rattle.elab_env.specs.Places.{IsKept};

    ghost view = { λ t. record { names = t.names; realizations = t.realizations } };

    ghost invariant = { λ t. IsKept (record { names = t.names; realizations = t.realizations }) t.places.items };
}

// So many names without a realization.
fn no_places(alloc: Global, count: usize) -> Result<Vec<Option<usize>>, NoMemory>
    ensures value { IfOk result (λ places. places.items ≡ replicate count None) }
{
    let mut places = Vec::new(alloc);
    for _i in 0..count {
        places.push(None)?;
    }
    Ok(places)
}

fn joined_equality(kept: Equality, gone: Equality) -> Equality
    ensures value { result ≡ joined_equality kept gone }
{
    match gone {
        Equality::IfArgs => gone,
        Equality::Never | Equality::Always => kept,
    }
}

impl NameTable {
    /// The table of the initial names.
    pub fn new(alloc: Global) -> Result<NameTable, NoMemory>
        ensures names { IfOk result (λ table. table.names ≡ initial_names) }
        ensures realizations { IfOk result (λ table. table.realizations ≡ []) }
    {
        let initial = initial_names(alloc)?;
        let names = Names::copy_of(alloc, initial.as_slice())?;
        let places = no_places(alloc, names.len())?;
        Ok(NameTable {
            alloc,
            names,
            realizations: List::new(alloc),
            places,
        })
    }

    /// The same table again.
    pub fn copy(&self, alloc: Global) -> Result<NameTable, NoMemory>
        ensures value { IfOk result (λ table. table ≡ self.now) }
    {
        Ok(NameTable {
            alloc,
            names: Names::copy_of(alloc, self.names.as_slice())?,
            realizations: copy_realizations(alloc, self.realizations.as_slice())?,
            places: Vec::from_slice(alloc, self.places.as_slice())?,
        })
    }

    /// What holds of every table.
    pub fn is_sound(&self)
        ensures sound { IsSound self.now }
    {
        let _ = &self.names;
    }

    /// How many names there are, those that were realized included.
    pub fn len(&self) -> u32
        ensures value { result ≡ length self.now.names }
    {
        self.names.len() as u32
    }

    /// The name with this number.
    pub fn name(&self, n: NameId) -> &TypeName
        requires within { n.0 < length self.now.names }
        ensures value { slice_get self.now.names n.0 ≡ Some result.now }
    {
        &self.names.as_slice()[n.0 as usize]
    }

    /// Whether the name was described, and neither realized nor joined away.
    pub fn is_free(&self, n: NameId) -> bool
        ensures value { result ≡ is_free self.now n.0 }
    {
        self.is_described(n) && self.place_after(n, 0).is_none()
    }

    /// A new name that a file describes, which gets the next number.
    pub fn describe(
        &mut self,
        path: Text,
        arity: u32,
        equality: Equality,
    ) -> Result<NameId, NoMemory>
        requires room { length self.old.names < 4294967295 }
        ensures number { IfOk result (λ n. n.0 ≡ length self.old.names) }
        ensures names { OnOk result (self.new.names ≡ self.old.names ++ described path arity equality ∷ []) }
        ensures realizations { OnOk result (self.new.realizations ≡ self.old.realizations) }
        ensures kept { OnErr result (self.new ≡ self.old) }
    {
        self.push(TypeName {
            path,
            arity,
            equality,
            external: false,
        })
    }

    /// The external name of this path and arity, which is a new one where none was mentioned before.
    pub fn external(&mut self, path: Text, arity: u32) -> Result<NameId, NoMemory>
        requires room { length self.old.names < 4294967295 }
        ensures number { IfOk result (λ n. n.0 ≡ unwrap_or (external_number path arity self.old.names) (length self.old.names)) }
        ensures names { OnOk result (self.new.names ≡ with_external path arity self.old.names) }
        ensures realizations { OnOk result (self.new.realizations ≡ self.old.realizations) }
        ensures kept { OnErr result (self.new ≡ self.old) }
    {
        match self.names.find(self.alloc, path.as_slice(), arity)? {
            Some(n) => Ok(NameId(n)),
            None => self.push(TypeName {
                path,
                arity,
                equality: Equality::IfArgs,
                external: true,
            }),
        }
    }

    /// Settles when applications of a free name admit equality (the Definition, section 4.9).
    pub fn settle(&mut self, n: NameId, equality: Equality)
        requires free { IsTrue (is_free self.old n.0) }
        ensures names { self.new.names ≡ with_equality n.0 equality self.old.names }
        ensures realizations { self.new.realizations ≡ self.old.realizations }
    {
        self.names.set_equality(n, equality);
    }

    /// Puts a type function in the place of a free name, from now on (the Definition, section 5.2).
    pub fn realize(&mut self, n: NameId, f: TypeFn) -> Result<(), NoMemory>
        requires free { IsTrue (is_free self.old n.0) }
        requires arity { f.arity ≡ arity_of (slice_get self.old.names n.0) }
        requires function { IsTypeFn f }
        requires body { IsTypeOver self.old.names f.body }
        requires other { Avoids n.0 (resolved self.old.realizations f.body) }
        ensures names { OnOk result (self.new.names ≡ self.old.names) }
        ensures realizations { OnOk result (self.new.realizations ≡ self.old.realizations ++ record { name = n; fun = function_resolved self.old.realizations f } ∷ []) }
        ensures kept { OnErr result (self.new ≡ self.old) }
    {
        let body = self.resolve(self.alloc, &f.body)?;
        let fun = TypeFn {
            arity: f.arity,
            body,
        };
        let place = self.realizations.len();
        self.realizations.push(Realization { name: n, fun })?;
        self.places[n.0 as usize] = Some(place);
        Ok(())
    }

    /// Makes two free names one: the greater is the lesser from now on, and that admits equality as its
    /// arguments do where one of the two did (the Definition, section 5.7).
    pub fn join(&mut self, a: NameId, b: NameId) -> Result<(), NoMemory>
        requires first { IsTrue (is_free self.old a.0) }
        requires second { IsTrue (is_free self.old b.0) }
        requires arity { arity_of (slice_get self.old.names a.0) ≡ arity_of (slice_get self.old.names b.0) }
        ensures names { OnOk result (self.new.names ≡ with_joined a.0 b.0 self.old.names) }
        ensures realizations { OnOk result (self.new.realizations ≡ self.old.realizations ++ joining self.old.names a.0 b.0) }
        ensures kept { OnErr result (self.new ≡ self.old) }
    {
        if a.0 == b.0 {
            return Ok(());
        }
        let kept = NameId(a.0.min(b.0));
        let gone = NameId(a.0.max(b.0));
        let equality = joined_equality(self.name(kept).equality, self.name(gone).equality);
        let fun = name_function(self.alloc, kept, self.name(kept).arity)?;
        self.realize(gone, fun)?;
        self.settle(kept, equality);
        Ok(())
    }

    /// What the type means by now: the type without realized names.
    pub fn resolve(&self, alloc: Global, t: &Ty) -> Result<Ty, NoMemory>
        requires over { IsOver self.now.names t.now }
        ensures value { IfOk result (λ r. r ≡ resolved self.now.realizations t.now) }
        ensures resolved { IfOk result (λ r. IsResolved self.now.realizations r) }
    {
        self.is_sound();
        resolve(alloc, t, self)
    }

    /// How many nodes the resolved type has, or `u64::MAX` where that is less.
    pub fn resolved_size(&self, t: &Ty) -> u64
        requires over { IsOver self.now.names t.now }
        ensures value { result ≡ min (size_of (resolved self.now.realizations t.now)) u64.MAX }
    {
        size_from(t, self, 0, &Sizes::Nothing)
    }

    /// The place of the name's realization, if that stands at `from` or later.
    pub fn place_after(&self, n: NameId, from: usize) -> Option<usize>
        ensures place { result ≡ place_in from n.0 (drop from self.now.realizations) }
        ensures sound { IsSound self.now }
    {
        match self.places.get(n.0 as usize) {
            Some(Some(place)) if *place >= from => Some(*place),
            _ => None,
        }
    }

    /// The realization at this place.
    pub fn realization(&self, place: usize) -> &Realization
        requires within { place < length self.now.realizations }
        ensures value { slice_get self.now.realizations place ≡ Some result.now }
        ensures fits { place < u64.MAX }
    {
        &self.realizations.as_slice()[place]
    }

    fn is_described(&self, n: NameId) -> bool
        ensures value { result ≡ is_described self.now.names n.0 }
    {
        match self.names.get(n) {
            None => false,
            Some(name) => n.0 >= INITIAL && !name.external,
        }
    }

    // Adds a name at the end, which no realization is of.
    fn push(&mut self, name: TypeName) -> Result<NameId, NoMemory>
        requires room { length self.old.names < 4294967295 }
        ensures number { IfOk result (λ n. n.0 ≡ length self.old.names) }
        ensures names { OnOk result (self.new.names ≡ self.old.names ++ name ∷ []) }
        ensures realizations { OnOk result (self.new.realizations ≡ self.old.realizations) }
        ensures kept { OnErr result (self.new ≡ self.old) }
    {
        let n = self.places.len() as u32;
        self.places.push(None)?;
        match self.names.push(self.alloc, name) {
            Ok(()) => Ok(NameId(n)),
            Err(NoMemory) => {
                let _ = self.places.pop();
                Err(NoMemory)
            }
        }
    }
}
