// The tables of an arena: types, coordinates with their canonical forms and erasures, and keys.
ghost use Rattle.std.specs.Prelude.{◌≡◌, [], ◌∷◌, ◌++◌, Some, length, map, slice_get, IfOk};
ghost use Rattle.std.specs.Map.{keys_of};
ghost use Rattle.type_intern.specs.Erasure.{as_is, erase};
ghost use Rattle.type_intern.specs.Numbering.{AllBelow};
ghost use Rattle.type_intern.specs.Sorting.{sorted};
ghost use Rattle.type_intern.specs.Tops.{numbers_of};
ghost use Rattle.type_intern.specs.CoordTables.{CoordFits, GrowsTo, IsArena, IsKeyAt, IsReduced, IsReducedAt, canons_in, erased_in, number_at, singles_in};

use crate::in_order::in_order;
use crate::node::{CoordId, CoordNode, KeyId, Numbers};
use crate::type_table::TypeTable;
use indexmap::{IndexMap, IndexSet};
use sig_base::{List, NoMemory};
use std::alloc::Global;

/// Types and coordinates, each under a number, and the keys of lists of coordinates.
#[derive(Drop)]
pub struct Tables {
    pub alloc: Global,
    pub types: TypeTable,
    pub nodes: IndexMap<CoordNode, Numbers>,
    pub keys: IndexSet<List<CoordId>>,
}

impl Tables {
    /// The tables of nothing.
    pub fn new(alloc: Global) -> Tables
        ensures types { result.types ≡ [] }
        ensures nodes { result.nodes.entries ≡ [] }
        ensures keys { result.keys.keys ≡ [] }
    {
        Tables {
            alloc,
            types: TypeTable::new(alloc),
            nodes: IndexMap::new(alloc),
            keys: IndexSet::new(alloc),
        }
    }

    /// The number of the coordinate with this top, which stands in the table from then on.
    pub fn coord(&mut self, node: CoordNode) -> Result<CoordId, NoMemory>
        requires arena { IsArena self.old.types self.old.nodes.entries self.old.keys.keys }
        requires fits { CoordFits (length self.old.types) (length self.old.nodes.entries) node }
        ensures value { IfOk result (λ id. slice_get (keys_of self.new.nodes.entries) id.0 ≡ Some node) }
        ensures grows { GrowsTo self.old.types self.new.types self.old.nodes.entries self.new.nodes.entries self.old.keys.keys self.new.keys.keys }
    {
        match self.nodes.get_index_of(&node) {
            Some(place) => Ok(CoordId(place)),
            None => self.add(node),
        }
    }

    /// The number of the coordinate with this top. Its erasure and its canonical form are put into the table before it.
    fn add(&mut self, node: CoordNode) -> Result<CoordId, NoMemory>
        requires arena { IsArena self.old.types self.old.nodes.entries self.old.keys.keys }
        requires fits { CoordFits (length self.old.types) (length self.old.nodes.entries) node }
        ensures value { IfOk result (λ id. slice_get (keys_of self.new.nodes.entries) id.0 ≡ Some node) }
        ensures grows { GrowsTo self.old.types self.new.types self.old.nodes.entries self.new.nodes.entries self.old.keys.keys self.new.keys.keys }
    {
        let erased = self.erasure(&node)?;
        let key = self.nodes[erased.0].key;
        let canon = self.canonical(&node, erased, key)?;
        self.put(node, Numbers { canon, erased, key })
    }

    /// The number of the erasure of the coordinate with this top.
    fn erasure(&mut self, node: &CoordNode) -> Result<CoordId, NoMemory>
        requires arena { IsArena self.old.types self.old.nodes.entries self.old.keys.keys }
        requires fits { CoordFits (length self.old.types) (length self.old.nodes.entries) node.now }
        ensures value { IfOk result (λ id. IsReducedAt erase self.new.types (keys_of self.new.nodes.entries) (erased_in self.new.nodes.entries) node.now id.0) }
        ensures grows { GrowsTo self.old.types self.new.types self.old.nodes.entries self.new.nodes.entries self.old.keys.keys self.new.keys.keys }
    {
        let args = self.erased_of(node.args.as_slice())?;
        let head = self.types.erased(node.head);
        self.put_erasure(CoordNode { args, head })
    }

    /// The number of the canonical form of the coordinate with this top, whose erasure and key are given.
    fn canonical(
        &mut self,
        node: &CoordNode,
        erased: CoordId,
        key: KeyId,
    ) -> Result<CoordId, NoMemory>
        requires arena { IsArena self.old.types self.old.nodes.entries self.old.keys.keys }
        requires fits { CoordFits (length self.old.types) (length self.old.nodes.entries) node.now }
        requires erased { IsReducedAt erase self.old.types (keys_of self.old.nodes.entries) (erased_in self.old.nodes.entries) node.now erased.0 }
        requires key { slice_get (singles_in self.old.nodes.entries) erased.0 ≡ Some key.0 }
        ensures value { IfOk result (λ id. IsReducedAt as_is self.new.types (keys_of self.new.nodes.entries) (canons_in self.new.nodes.entries) node.now id.0) }
        ensures grows { GrowsTo self.old.types self.new.types self.old.nodes.entries self.new.nodes.entries self.old.keys.keys self.new.keys.keys }
    {
        let args = self.canons_of(node.args.as_slice())?;
        let head = node.head;
        let canon = CoordId(self.nodes.len());
        self.put(CoordNode { args, head }, Numbers { canon, erased, key })
    }

    /// The number of the coordinate with this top, which has these numbers beside it.
    fn put(&mut self, node: CoordNode, numbers: Numbers) -> Result<CoordId, NoMemory>
        requires arena { IsArena self.old.types self.old.nodes.entries self.old.keys.keys }
        requires fits { CoordFits (length self.old.types) (length self.old.nodes.entries) node }
        requires canon { IsReducedAt as_is self.old.types (keys_of self.old.nodes.entries ++ node ∷ []) (canons_in self.old.nodes.entries ++ numbers.canon.0 ∷ []) node numbers.canon.0 }
        requires erased { IsReducedAt erase self.old.types (keys_of self.old.nodes.entries) (erased_in self.old.nodes.entries) node numbers.erased.0 }
        requires key { slice_get (singles_in self.old.nodes.entries) numbers.erased.0 ≡ Some numbers.key.0 }
        ensures value { IfOk result (λ id. slice_get (keys_of self.new.nodes.entries) id.0 ≡ Some node) }
        ensures grows { GrowsTo self.old.types self.new.types self.old.nodes.entries self.new.nodes.entries self.old.keys.keys self.new.keys.keys }
    {
        match self.nodes.get_index_of(&node) {
            Some(place) => Ok(CoordId(place)),
            None => {
                let (place, _) = self.nodes.insert_full(node, numbers)?;
                Ok(CoordId(place))
            }
        }
    }

    /// The number of the coordinate with this top, which is its own erasure. It gets a key with it.
    fn put_erasure(&mut self, node: CoordNode) -> Result<CoordId, NoMemory>
        requires arena { IsArena self.old.types self.old.nodes.entries self.old.keys.keys }
        requires fits { CoordFits (length self.old.types) (length self.old.nodes.entries) node }
        requires erased { IsReduced erase self.old.types (erased_in self.old.nodes.entries) node node }
        requires canonical { IsReduced as_is self.old.types (canons_in self.old.nodes.entries) node node }
        ensures value { IfOk result (λ id. slice_get (keys_of self.new.nodes.entries) id.0 ≡ Some node) }
        ensures grows { GrowsTo self.old.types self.new.types self.old.nodes.entries self.new.nodes.entries self.old.keys.keys self.new.keys.keys }
    {
        match self.nodes.get_index_of(&node) {
            Some(place) => Ok(CoordId(place)),
            None => {
                let own = CoordId(self.nodes.len());
                let alone = one(self.alloc, own)?;
                self.nodes.reserve(1)?;
                let (key, _) = self.keys.insert_full(alone)?;
                let numbers = Numbers {
                    canon: own,
                    erased: own,
                    key: KeyId(key),
                };
                self.nodes.insert_full(node, numbers)?;
                Ok(own)
            }
        }
    }

    /// The key of the coordinates under these numbers.
    pub fn key(&mut self, ids: &[CoordId]) -> Result<KeyId, NoMemory>
        requires arena { IsArena self.old.types self.old.nodes.entries self.old.keys.keys }
        requires within { AllBelow (length self.old.nodes.entries) (numbers_of ids.now) }
        ensures value { IfOk result (λ k. IsKeyAt (erased_in self.new.nodes.entries) self.new.keys.keys ids.now k.0) }
        ensures grows { GrowsTo self.old.types self.new.types self.old.nodes.entries self.new.nodes.entries self.old.keys.keys self.new.keys.keys }
    {
        let erased = self.erased_of(ids)?;
        let (key, _) = self.keys.insert_full(erased)?;
        Ok(KeyId(key))
    }

    /// The numbers of the canonical forms, in their order.
    fn canons_of(&self, ids: &[CoordId]) -> Result<List<CoordId>, NoMemory>
        requires within { AllBelow (length self.now.nodes.entries) (numbers_of ids.now) }
        ensures value { IfOk result (λ canons. numbers_of canons ≡ sorted (map (number_at (canons_in self.now.nodes.entries)) ids.now)) }
    {
        let mut canons = Vec::new(self.alloc);
        for id in ids {
            canons.push(self.nodes[id.0].canon)?;
        }
        Ok(in_order(canons))
    }

    /// The numbers of the erasures, in their order.
    fn erased_of(&self, ids: &[CoordId]) -> Result<List<CoordId>, NoMemory>
        requires within { AllBelow (length self.now.nodes.entries) (numbers_of ids.now) }
        ensures value { IfOk result (λ erased. numbers_of erased ≡ sorted (map (number_at (erased_in self.now.nodes.entries)) ids.now)) }
    {
        let mut erased = Vec::new(self.alloc);
        for id in ids {
            erased.push(self.nodes[id.0].erased)?;
        }
        Ok(in_order(erased))
    }
}

/// The list of one number.
fn one(alloc: Global, id: CoordId) -> Result<List<CoordId>, NoMemory>
    ensures value { IfOk result (λ ids. ids ≡ id ∷ []) }
{
    let mut ids = List::new(alloc);
    ids.push(id)?;
    Ok(ids)
}
