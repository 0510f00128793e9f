// Coordinates.
use crate::ty::Ty;
use sig_base::List;

/// One of the results of a type, with the arguments for which it is given.
///
/// The head is an atom: a variable, an application or a record.
#[cycle(coordinate)]
#[derive(Drop)]
pub struct Coordinate {
    pub arguments: List<Coordinate>,
    pub head: Ty,
}
