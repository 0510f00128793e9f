// What constructors that are described together have in common.
use crate::variables::Variables;
use type_core::{Kind, Ty};

/// What constructors that are described together have in common: their kind, the type that they make, and
/// the variables that may stand in their arguments.
#[derive(Clone, Copy)]
pub struct Family<'a> {
    pub kind: Kind,
    pub made: &'a Ty,
    pub variables: Variables<'a>,
}
