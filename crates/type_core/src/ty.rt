// Types and schemes.
use sig_base::{Row, Shared, Text};

/// The number of a type constructor's name in a list of names.
#[derive(Clone, Copy, Debug, PartialEq, Eq, Hash)]
pub struct NameId(pub u32);

/// A type variable: its number, and whether it has the equality mark, as `''a` has.
#[derive(Clone, Copy, Debug, PartialEq, Eq, Hash)]
pub struct VarId {
    pub n: u32,
    pub eq: bool,
}

/// A type of Standard ML with its abbreviations expanded (the Definition, section 4.2).
///
/// A tuple has any number of components but one, and `unit` is the tuple of none. The labels of a record
/// are distinct and in their order, and are never just those of a tuple.
#[cycle(ty)]
#[derive(Drop)]
pub enum Ty {
    /// A type variable.
    Var(VarId),
    /// A name applied to its arguments.
    Con(NameId, Row<Ty>),
    /// A labelled record.
    Rec(Row<Field>),
    /// A tuple.
    Tup(Row<Ty>),
    /// A function type.
    Arrow(Shared<Ty>, Shared<Ty>),
}

/// One field of a record type.
#[cycle(ty)]
#[derive(Drop)]
pub struct Field {
    pub label: Text,
    pub ty: Ty,
}

/// A type scheme, closed: a type that is meant for all values of its variables (the Definition, section 4.5).
///
/// Its variables are numbered from 0 by first occurrence, and there are `vars` of them.
#[derive(Drop)]
pub struct Scheme {
    pub vars: u32,
    pub body: Ty,
}
