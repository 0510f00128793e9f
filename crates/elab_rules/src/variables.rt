// The type variables that may stand in a type.
use type_core::VarId;

/// Which type variables may stand in a type.
#[derive(Clone, Copy)]
pub enum Variables<'a> {
    /// Any.
    Any,
    /// These parameters, with their marks or without.
    Parameters(bool, &'a [VarId]),
}
