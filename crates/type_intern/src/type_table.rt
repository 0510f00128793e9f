// A table in which each type stands once.
ghost use Rattle.std.specs.Prelude.{◌≡◌, ◌<◌, [], ◌∷◌, ◌++◌, Some, length, map, slice_get, IfOk};
ghost use Rattle.type_intern.specs.Erasure.{erase};
ghost use Rattle.type_intern.specs.Numbering.{AllBelow, Grows, StandsOnce};
ghost use Rattle.type_intern.specs.Tops.{FitsBelow, field_numbers, tree_of, type_at, type_numbers};
ghost use Rattle.type_intern.specs.TypeTables.{AreFieldsStored, AreStored, erased_at, erased_field_at};

use crate::node::{FieldId, Node, TyId};
use indexmap::IndexMap;
use sig_base::{List, NoMemory, Text};
use std::alloc::Global;
use std::marker::Model;
use type_core::{Field, Ty, VarId};

/// Types, each under a number and beside the number of its erasure.
#[derive(Drop)]
pub struct TypeTable {
    alloc: Global,
    nodes: IndexMap<Node, usize>,
}

impl Model for TypeTable {
    ghost use Rattle.std.specs.Prelude.{List};
    ghost use Rattle.type_core.specs.declared.ty.Ty.{Ty};

    ghost Value = { List Ty };

    ghost use Rattle.type_core.specs.contracts.ty.Ty as the_types;
    ghost use Rattle.std.specs.Coded.{codes};

    ghost coded = { Prim.hlevel (codes, the_types.the_row.coded) };

    ghost use Rattle.indexmap.specs.IndexMap.{keys as keys_in, values as values_in};
    ghost use Rattle.type_intern.specs.TypeTables.{types_of, IsTypeTable};

    ghost view = { λ table. types_of (keys_in table.nodes) };

    ghost invariant = { λ table. IsTypeTable (keys_in table.nodes) (values_in table.nodes) };
}

impl TypeTable {
    /// The table of no types.
    pub fn new(alloc: Global) -> TypeTable
        ensures empty { result ≡ [] }
    {
        TypeTable {
            alloc,
            nodes: IndexMap::new(alloc),
        }
    }

    /// How many types there are.
    pub fn len(&self) -> usize
        ensures value { result ≡ length self.now }
        ensures once { StandsOnce self.now }
    {
        self.nodes.len()
    }

    /// The top of a type.
    pub fn node(&self, id: TyId) -> &Node
        requires within { id.0 < length self.now }
        ensures value { slice_get self.now id.0 ≡ Some (tree_of self.now result.now) }
        ensures parts { FitsBelow id.0 result.now }
    {
        &self.nodes.keys().as_slice()[id.0]
    }

    /// The number of a type's erasure.
    pub fn erased(&self, id: TyId) -> TyId
        requires within { id.0 < length self.now }
        ensures value { slice_get self.now result.0 ≡ Some (erased_at self.now id) }
    {
        TyId(self.nodes[id.0])
    }

    /// The number of the type, which stands in the table from then on.
    #[cycle(intern)]
    pub fn intern(&mut self, t: &Ty) -> Result<TyId, NoMemory>
        ensures value { IfOk result (λ id. slice_get self.new id.0 ≡ Some t.now) }
        ensures keeps { Grows self.old self.new }
    {
        match t {
            Ty::Var(v) => self.add(Node::Var(*v)),
            Ty::Con(name, parts) => {
                let ids = self.intern_all(parts.as_slice())?;
                self.add(Node::Con(*name, ids))
            }
            Ty::Rec(fields) => {
                let ids = self.intern_fields(fields.as_slice())?;
                self.add(Node::Rec(ids))
            }
            Ty::Tup(parts) => {
                let ids = self.intern_all(parts.as_slice())?;
                self.add(Node::Tup(ids))
            }
            Ty::Arrow(from, to) => {
                let from = self.intern(from.get())?;
                let to = self.intern(to.get())?;
                self.add(Node::Arrow(from, to))
            }
        }
    }

    #[cycle(intern)]
    fn intern_all(&mut self, parts: &[Ty]) -> Result<List<TyId>, NoMemory>
        ensures value { IfOk result (λ ids. AreStored self.new ids parts.now) }
        ensures keeps { Grows self.old self.new }
    {
        let mut ids = List::new(self.alloc);
        for part in parts {
            ids.push(self.intern(part)?)?;
        }
        Ok(ids)
    }

    #[cycle(intern)]
    fn intern_fields(&mut self, fields: &[Field]) -> Result<List<FieldId>, NoMemory>
        ensures value { IfOk result (λ ids. AreFieldsStored self.new ids fields.now) }
        ensures keeps { Grows self.old self.new }
    {
        let mut ids = List::new(self.alloc);
        for field in fields {
            let label = Text::from_slice(self.alloc, field.label.as_slice())?;
            let ty = self.intern(&field.ty)?;
            ids.push(FieldId { label, ty })?;
        }
        Ok(ids)
    }

    /// The number of the type with this top.
    fn add(&mut self, node: Node) -> Result<TyId, NoMemory>
        requires parts { FitsBelow (length self.old) node }
        ensures value { IfOk result (λ id. slice_get self.new id.0 ≡ Some (tree_of self.old node)) }
        ensures keeps { Grows self.old self.new }
    {
        match self.nodes.get_index_of(&node) {
            Some(place) => Ok(TyId(place)),
            None => self.add_new(node),
        }
    }

    /// The number of the type with this top, whose erasure is put into the table before it.
    fn add_new(&mut self, node: Node) -> Result<TyId, NoMemory>
        requires parts { FitsBelow (length self.old) node }
        ensures value { IfOk result (λ id. slice_get self.new id.0 ≡ Some (tree_of self.old node)) }
        ensures keeps { Grows self.old self.new }
    {
        let erased = self.erased_node(&node)?;
        let own = self.len();
        let erased = self.put(erased, own)?;
        self.put(node, erased.0)
    }

    /// The number of the type with this top, whose erasure has the other number.
    fn put(&mut self, node: Node, erased: usize) -> Result<TyId, NoMemory>
        requires parts { FitsBelow (length self.old) node }
        requires erased { slice_get (self.old ++ tree_of self.old node ∷ []) erased ≡ Some (erase (tree_of self.old node)) }
        ensures value { IfOk result (λ id. slice_get self.new id.0 ≡ Some (tree_of self.old node)) }
        ensures keeps { Grows self.old self.new }
    {
        match self.nodes.get_index_of(&node) {
            Some(place) => Ok(TyId(place)),
            None => {
                let (place, _) = self.nodes.insert_full(node, erased)?;
                Ok(TyId(place))
            }
        }
    }

    /// The top of the erasure.
    fn erased_node(&self, node: &Node) -> Result<Node, NoMemory>
        requires parts { FitsBelow (length self.now) node.now }
        ensures value { IfOk result (λ erased. tree_of self.now erased ≡ erase (tree_of self.now node.now)) }
        ensures parts { IfOk result (FitsBelow (length self.now)) }
    {
        match node {
            Node::Var(v) => Ok(Node::Var(VarId { n: 0, eq: v.eq })),
            Node::Con(name, ids) => Ok(Node::Con(*name, self.erased_all(ids.as_slice())?)),
            Node::Rec(fields) => Ok(Node::Rec(self.erased_fields(fields.as_slice())?)),
            Node::Tup(ids) => Ok(Node::Tup(self.erased_all(ids.as_slice())?)),
            Node::Arrow(from, to) => Ok(Node::Arrow(self.erased(*from), self.erased(*to))),
        }
    }

    fn erased_all(&self, ids: &[TyId]) -> Result<List<TyId>, NoMemory>
        requires within { AllBelow (length self.now) (type_numbers ids.now) }
        ensures value { IfOk result (λ erased. AreStored self.now erased (map (erased_at self.now) ids.now)) }
    {
        let mut erased = List::new(self.alloc);
        for id in ids {
            erased.push(self.erased(*id))?;
        }
        Ok(erased)
    }

    fn erased_fields(&self, fields: &[FieldId]) -> Result<List<FieldId>, NoMemory>
        requires within { AllBelow (length self.now) (field_numbers fields.now) }
        ensures value { IfOk result (λ erased. AreFieldsStored self.now erased (map (erased_field_at self.now) fields.now)) }
    {
        let mut erased = List::new(self.alloc);
        for field in fields {
            let label = Text::from_slice(self.alloc, field.label.as_slice())?;
            let ty = self.erased(field.ty);
            erased.push(FieldId { label, ty })?;
        }
        Ok(erased)
    }
}
