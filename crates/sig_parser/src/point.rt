// How far the reading of a signature file has come.
use crate::tree::{Bind, ConDesc, DataDesc, SigExp, Spec, TopDec, TypeDesc, ValDesc, WherePart};
use sig_base::{List, Stack};
use ty_parser::Reader as TypeReader;

/// Where bindings stand.
#[derive(Clone, Copy)]
pub enum Group {
    /// After a top `signature`.
    Signatures,
    /// After a top `structure`.
    Structures,
    /// After `structure` in a body.
    Members,
}

/// What a signature expression is for.
#[derive(Clone, Copy)]
pub enum Goal {
    /// A binding, by how many stand before it and its identifier.
    Binding(Group, usize, u32),
    /// An `include`.
    Including,
}

/// A body that isn't ended: what it is for, the number of its `sig`, and how many specifications it has.
#[derive(Clone, Copy)]
pub struct Level {
    pub goal: Goal,
    pub first: u32,
    pub specs: usize,
}

/// What stands before `where`.
#[derive(Clone, Copy)]
pub enum Base {
    /// The body that ended last.
    Body,
    /// The identifier of a signature.
    Name(u32),
}

/// A signature expression that may go on by `where`.
#[derive(Clone, Copy)]
pub struct Open {
    pub goal: Goal,
    pub first: u32,
    pub base: Base,
}

/// What parameters and the name of a type constructor are read for.
#[derive(Clone, Copy)]
pub enum Headed {
    /// A part of a `where`, by the number of its first token.
    Where(Open, u32),
    Type,
    Eqtype,
    Datatype,
}

/// What constructors are read for.
#[derive(Clone, Copy)]
pub enum Cons {
    /// A datatype, by its identifier.
    Datatype(u32),
    Exception,
}

/// What a type is read for.
#[derive(Clone, Copy)]
pub enum Owner {
    /// A value, by its identifier.
    Val(u32),
    /// A part of a `where`, by the number of its first token and its type constructor.
    Where(Open, u32, u32),
    /// A type description, by its identifier.
    Type(u32),
    /// A constructor, by its identifier.
    Con(Cons, u32),
}

/// What `sharing` is said of.
#[derive(Clone, Copy)]
pub enum Shared {
    Types,
    Structures,
}

/// What the last token was, with the numbers that were read in the same phrase.
#[derive(Clone, Copy)]
pub enum Point {
    /// Among top declarations or specifications.
    Items,
    /// Before the identifier of a binding.
    WantId(Group, usize),
    /// After it.
    HaveId(Group, usize, u32),
    /// After a binding.
    Bound(Group, usize),
    /// Before a signature expression.
    WantSig(Goal),
    /// After an identifier that is one.
    HaveName(Goal, u32),
    /// After one.
    HaveSig(Open),
    /// After `where`, by the number of that token.
    AfterWhere(Open, u32),
    /// After a part of a `where`.
    HavePart(Open),
    /// After an `and` behind such a part.
    AfterAnd(Open, u32),
    /// Before the identifier of a value.
    WantVal,
    /// After it.
    HaveVal(u32),
    /// After values.
    Vals,
    /// Before parameters.
    WantParams(Headed),
    /// Before a parameter in parentheses.
    WantParam(Headed),
    /// After one.
    HaveParam(Headed),
    /// After parameters.
    WantTycon(Headed),
    /// After the type constructor.
    HaveTycon(Headed, u32),
    /// After type descriptions.
    Types,
    /// After those of an `eqtype`.
    Eqtypes,
    /// After the `=` of a datatype.
    AfterEquals(u32),
    /// Before the type constructor that is replicated.
    WantReplica(u32),
    /// Before a constructor or an exception.
    WantCon(Cons),
    /// After its identifier.
    HaveCon(Cons, u32),
    /// After constructors or exceptions.
    HaveCons(Cons),
    /// After datatypes.
    Datatypes,
    /// After two or more identifiers of signatures.
    Includes,
    /// After `sharing`.
    AfterSharing,
    /// After `sharing type`.
    AfterSharingType,
    /// After the first that is shared.
    OneShared(Shared, u32),
    /// After `=`.
    WantShared(Shared),
    /// After two or more that are shared.
    HaveShared(Shared),
    /// Before a type.
    WantType(Owner),
    /// Inside a type, by the number of its first token.
    InType(Owner, u32),
}

/// A file that isn't read to its end: the point that reading has come to, and what was read and isn't part of a larger
/// phrase yet.
#[derive(Drop)]
pub struct Reading {
    pub decs: Stack<TopDec>,
    /// The bodies that aren't ended, the outermost first.
    pub levels: Stack<Level>,
    /// The specifications of these bodies, and the bindings before them, those of the outermost first.
    pub specs: Stack<Spec>,
    pub bindings: Stack<Bind>,
    /// The body that ended last, and the parts of the `where` behind it.
    pub body: List<Spec>,
    pub parts: Stack<WherePart>,
    pub params: Stack<u32>,
    pub values: Stack<ValDesc>,
    pub types: Stack<TypeDesc>,
    pub datatypes: Stack<DataDesc>,
    pub cons: Stack<ConDesc>,
    pub sigs: Stack<SigExp>,
    /// What is shared.
    pub names: Stack<u32>,
    /// What was read of a type.
    pub reader: TypeReader,
    pub point: Point,
}
