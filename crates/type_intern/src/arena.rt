// What numbers types, coordinates and keys.
ghost use Rattle.std.specs.Prelude.{◌≡◌, ◌<◌, ◌↔◌, ◌∷◌, [], Some, length, slice_get, IsTrue, IfOk};
ghost use Rattle.type_core.specs.Coordinates.{arguments_of, coordinate, head_of};
ghost use Rattle.type_intern.specs.Meanings.{IsCanonical, IsKey, Keeps, no_meanings};
ghost use Rattle.type_intern.specs.Numbering.{AllBelow, StandsOnce};
ghost use Rattle.type_intern.specs.Tops.{FitsBelow, coord_at, coords_at, numbers_of, tree_of, type_at};

use crate::in_order::in_source_order;
use crate::node::{CoordId, CoordNode, KeyId, Node, TyId};
use crate::tables::Tables;
use sig_base::NoMemory;
use std::alloc::Global;
use std::marker::Model;
use type_core::Ty;

/// Types, coordinates and keys, each kept once under a number.
///
/// Contracts see what the numbers mean. Each call leaves the meaning of every earlier number as it was, also where
/// memory is wanting.
#[derive(Drop)]
pub struct Arena {
    tables: Tables,
}

impl Model for Arena {
    ghost use Rattle.type_intern.specs.Meanings.{Meanings};

    ghost Value = { Meanings };

    ghost use Rattle.type_core.specs.contracts.ty.Ty as the_types;
    ghost use Rattle.type_core.specs.contracts.coordinate.Coordinate as the_coordinates;
    ghost use Rattle.std.specs.Coded.{codes};

    ghost coded = { Prim.hlevel (codes, the_types.the_row.coded, the_coordinates.the_row.coded) };

    ghost use Rattle.type_intern.specs.CoordTables.{IsArena, meanings};

    ghost view = { λ a. meanings a.tables.types a.tables.nodes.entries a.tables.keys.keys };

    ghost invariant = { λ a. IsArena a.tables.types a.tables.nodes.entries a.tables.keys.keys };
}

impl Arena {
    /// The arena of nothing.
    pub fn new(alloc: Global) -> Result<Arena, NoMemory>
        ensures empty { IfOk result (λ arena. arena ≡ no_meanings) }
    {
        Ok(Arena {
            tables: Tables::new(alloc),
        })
    }

    /// The number of the type. Two types get one number exactly where they are identical.
    pub fn intern(&mut self, t: &Ty) -> Result<TyId, NoMemory>
        ensures value { IfOk result (λ id. slice_get self.new.types id.0 ≡ Some t.now) }
        ensures within { IfOk result (λ id. id.0 < length self.new.types) }
        ensures once { StandsOnce self.new.types }
        ensures keeps { Keeps self.old self.new }
    {
        let result = self.tables.types.intern(t);
        let _count = self.tables.types.len();
        result
    }

    /// The top of the type under a number: its parts are lower numbers.
    pub fn node(&self, t: TyId) -> &Node
        requires within { t.0 < length self.now.types }
        ensures value { tree_of self.now.types result.now ≡ type_at self.now.types t }
        ensures parts { FitsBelow t.0 result.now }
    {
        self.tables.types.node(t)
    }

    /// Whether the types under two numbers are identical: they are exactly where the numbers are one.
    pub fn same(&self, a: TyId, b: TyId) -> bool
        requires first { a.0 < length self.now.types }
        requires second { b.0 < length self.now.types }
        ensures value { IsTrue result ↔ (type_at self.now.types a ≡ type_at self.now.types b) }
        ensures numbers { IsTrue result ↔ (a ≡ b) }
    {
        let _count = self.tables.types.len();
        a.0 == b.0
    }

    /// The number of the coordinate with these arguments, in this order, and this head. Two coordinates get one number
    /// exactly where they are identical.
    pub fn coord(&mut self, args: &[CoordId], head: TyId) -> Result<CoordId, NoMemory>
        requires args { AllBelow (length self.old.coords) (numbers_of args.now) }
        requires head { head.0 < length self.old.types }
        ensures value { IfOk result (λ id. slice_get self.new.coords id.0 ≡ Some (coordinate (coords_at self.old.coords args.now) (type_at self.old.types head))) }
        ensures within { IfOk result (λ id. id.0 < length self.new.coords) }
        ensures once { StandsOnce self.new.coords }
        ensures keeps { Keeps self.old self.new }
    {
        let args = in_source_order(self.tables.alloc, args)?;
        self.tables.coord(CoordNode { args, head })
    }

    /// The arguments of a coordinate, in source order.
    pub fn args(&self, c: CoordId) -> &[CoordId]
        requires within { c.0 < length self.now.coords }
        ensures value { coords_at self.now.coords result.now ≡ arguments_of (coord_at self.now.coords c) }
        ensures parts { AllBelow c.0 (numbers_of result.now) }
    {
        self.tables.nodes.keys().as_slice()[c.0].args.as_slice()
    }

    /// The head of a coordinate.
    pub fn head(&self, c: CoordId) -> TyId
        requires within { c.0 < length self.now.coords }
        ensures value { type_at self.now.types result ≡ head_of (coord_at self.now.coords c) }
        ensures within { result.0 < length self.now.types }
    {
        self.tables.nodes.keys().as_slice()[c.0].head
    }

    /// The canonical number of a coordinate: one number for all that differ in the order of arguments alone, at every
    /// depth. It is that of the first of them.
    pub fn canon(&self, c: CoordId) -> CoordId
        requires within { c.0 < length self.now.coords }
        ensures value { IsCanonical self.now.coords (coord_at self.now.coords c) result.0 }
    {
        self.tables.nodes[c.0].canon
    }

    /// The key of a coordinate, which is that of the list of it alone: one number for all that have one canonical
    /// number after each variable is replaced by its mark.
    pub fn erased(&self, c: CoordId) -> KeyId
        requires within { c.0 < length self.now.coords }
        ensures value { IsKey self.now.keys (coord_at self.now.coords c ∷ []) result.0 }
    {
        self.tables.nodes[c.0].key
    }

    /// The key of a list of coordinates as a multiset: one number for all that are equal, as nested multisets, after
    /// each variable is replaced by its mark.
    pub fn key(&mut self, cs: &[CoordId]) -> Result<KeyId, NoMemory>
        requires within { AllBelow (length self.old.coords) (numbers_of cs.now) }
        ensures value { IfOk result (λ k. IsKey self.new.keys (coords_at self.old.coords cs.now) k.0) }
        ensures keeps { Keeps self.old self.new }
    {
        self.tables.key(cs)
    }
}
