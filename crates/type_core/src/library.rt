// Libraries.
use crate::member::Member;
use crate::names::TypeName;
use crate::type_fn::TypeFn;
use sig_base::{List, Text};

/// Whether a unit was bound as a signature or as a structure.
#[derive(Clone, Copy, Debug, PartialEq, Eq)]
pub enum UnitKind {
    Sig,
    Str,
}

/// A top identifier, with which the paths of what it has begin.
#[derive(Drop)]
pub struct Unit {
    pub kind: UnitKind,
    pub id: Text,
}

/// A type constructor: a long identifier and the type function that it stands for.
#[derive(Drop)]
pub struct Tycon {
    pub path: Text,
    pub fun: TypeFn,
}

/// What files describe: their units, and the names, type constructors and members of these.
///
/// A `NameId` is a place in `names`, which begins with the initial names.
#[derive(Drop)]
pub struct Library {
    pub units: List<Unit>,
    pub names: List<TypeName>,
    pub tycons: List<Tycon>,
    pub members: List<Member>,
}
