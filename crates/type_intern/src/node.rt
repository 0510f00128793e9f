// The tops of types and coordinates, whose parts are numbers.
use sig_base::{List, Text};
use type_core::{NameId, VarId};

/// The number of a type in an arena.
#[derive(Clone, Copy, Debug, PartialEq, Eq, Hash)]
pub struct TyId(pub usize);

/// One field of a record type.
#[derive(PartialEq, Eq, Hash, Drop)]
pub struct FieldId {
    pub label: Text,
    pub ty: TyId,
}

/// The top of a type.
#[derive(PartialEq, Eq, Hash, Drop)]
pub enum Node {
    /// A type variable.
    Var(VarId),
    /// A name applied to its arguments.
    Con(NameId, List<TyId>),
    /// A labelled record.
    Rec(List<FieldId>),
    /// A tuple.
    Tup(List<TyId>),
    /// A function type.
    Arrow(TyId, TyId),
}

/// The number of a coordinate in an arena.
#[derive(Clone, Copy, Debug, PartialEq, Eq, PartialOrd, Ord, Hash)]
pub struct CoordId(pub usize);

/// The number of a key in an arena.
#[derive(Clone, Copy, Debug, PartialEq, Eq)]
pub struct KeyId(pub usize);

/// The top of a coordinate.
#[derive(PartialEq, Eq, Hash, Drop)]
pub struct CoordNode {
    pub args: List<CoordId>,
    pub head: TyId,
}

/// What stands beside a coordinate: its canonical form, its erasure, and the key of this alone.
#[derive(Clone, Copy, Debug)]
pub struct Numbers {
    pub canon: CoordId,
    pub erased: CoordId,
    pub key: KeyId,
}
