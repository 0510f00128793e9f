// What a library has.
use crate::ty::Scheme;
use sig_base::Text;

/// What an identifier stands for.
#[derive(Clone, Copy, Debug, PartialEq, Eq)]
pub enum Kind {
    Val,
    /// A constructor of a datatype.
    Con,
    /// An exception.
    Exn,
}

/// A value, a constructor or an exception with its scheme.
#[derive(Drop)]
pub struct Member {
    pub kind: Kind,
    pub path: Text,
    pub scheme: Scheme,
}
