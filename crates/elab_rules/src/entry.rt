// What signatures describe.
use sig_base::{List, Text};
use type_core::{Kind, Scheme, TypeFn, UnitKind};

/// A type constructor: its identifier, what it stands for, and the identifiers of its constructors.
#[derive(Drop)]
pub struct TypeEntry {
    pub id: Text,
    pub fun: TypeFn,
    pub constructors: List<Text>,
}

/// A value, a constructor or an exception: its identifier and its scheme.
#[derive(Drop)]
pub struct ValueEntry {
    pub id: Text,
    pub kind: Kind,
    pub scheme: Scheme,
}

/// What a body describes. The schemes of a type constructor's constructors are those of the values with
/// their identifiers.
#[cycle(entry)]
#[derive(Drop)]
pub enum Entry {
    Tycon(TypeEntry),
    Value(ValueEntry),
    Structure(Text, List<Entry>),
}

/// A top identifier and what its signature expression describes.
#[derive(Drop)]
pub struct UnitEntry {
    pub kind: UnitKind,
    pub id: Text,
    pub entries: List<Entry>,
    /// The number of the first name that was made while it was elaborated, and how many were.
    pub first_name: u32,
    pub name_count: u32,
}
