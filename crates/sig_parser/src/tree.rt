// The trees of signature files. Every number is that of a token.
use sig_base::List;
use ty_parser::TypeAt;

/// A file: its top declarations in order.
#[derive(Debug, Drop)]
pub struct SourceFile {
    pub decs: List<TopDec>,
}

/// A top declaration: one or more bindings.
#[derive(Debug, Drop)]
pub enum TopDec {
    /// `signature sigid = sigexp and ..`
    Signature(List<Bind>),
    /// `structure strid : sigexp and ..`, or with `:>`.
    Structure(List<Bind>),
}

/// An identifier and the signature expression that it stands for or is described by.
#[cycle(sig_exp)]
#[derive(Debug, Drop)]
pub struct Bind {
    pub id: u32,
    pub rhs: SigExp,
}

/// A signature expression, its first token, and the parts of its `where`.
#[cycle(sig_exp)]
#[derive(Debug, Drop)]
pub struct SigExp {
    pub first: u32,
    pub base: SigBase,
    pub parts: List<WherePart>,
}

/// What stands before `where`.
#[cycle(sig_exp)]
#[derive(Debug, Drop)]
pub enum SigBase {
    /// `sig .. end`
    Body(List<Spec>),
    /// The identifier of a signature.
    Name(u32),
}

/// `where type params tycon = ty`, or `and` in place of `where`: the first is the number of that word.
#[derive(Debug, Drop)]
pub struct WherePart {
    pub at: u32,
    pub params: List<u32>,
    pub tycon: u32,
    pub ty: TypeAt,
}

/// A specification. Where it describes several things, `and` stands between them.
#[cycle(sig_exp)]
#[derive(Debug, Drop)]
pub enum Spec {
    /// `val vid : ty`
    Val(List<ValDesc>),
    /// `type params tycon`, with or without `= ty`.
    Abbrev(List<TypeDesc>),
    /// `eqtype params tycon`
    Eqtype(List<TypeDesc>),
    /// `datatype params tycon = vid of ty | ..`
    Datatype(List<DataDesc>),
    /// `datatype tycon = datatype longtycon`: the constructor that is described, and the replicated one.
    Replica(u32, u32),
    /// `exception vid of ty`
    Exception(List<ConDesc>),
    /// `structure strid : sigexp`
    Structure(List<Bind>),
    /// `include sigexp`, or `include` and several identifiers of signatures.
    Include(List<SigExp>),
    /// `sharing type longtycon = longtycon = ..`
    SharingType(List<u32>),
    /// `sharing longstrid = longstrid = ..`
    Sharing(List<u32>),
}

/// The description of a value.
#[derive(Debug, Drop)]
pub struct ValDesc {
    pub id: u32,
    pub ty: TypeAt,
}

/// The description of a type constructor.
#[derive(Debug, Drop)]
pub struct TypeDesc {
    pub params: List<u32>,
    pub id: u32,
    pub rhs: Option<TypeAt>,
}

/// The description of a datatype and its constructors.
#[derive(Debug, Drop)]
pub struct DataDesc {
    pub params: List<u32>,
    pub id: u32,
    pub cons: List<ConDesc>,
}

/// The description of a constructor or an exception.
#[derive(Debug, Drop)]
pub struct ConDesc {
    pub id: u32,
    pub arg: Option<TypeAt>,
}
