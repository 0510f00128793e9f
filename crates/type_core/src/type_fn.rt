// Type functions.
ghost use Rattle.std.specs.Prelude.{◌≡◌, ◌↔◌, IsTrue, IfOk, length};
ghost use Rattle.type_core.specs.TypeFunctions.{IsTypeFn, applied};

use crate::substitution::{each_variable_is, replace};
use crate::ty::Ty;
use sig_base::{List, NoMemory};
use std::alloc::Global;

/// A type function: its parameters are the variables below `arity`, without mark (the Definition,
/// section 4.4).
#[derive(Drop)]
pub struct TypeFn {
    pub arity: u32,
    pub body: Ty,
}

/// The type that the function gives at these arguments (the Definition, section 4.4).
pub fn apply_fn(alloc: Global, f: &TypeFn, args: &List<Ty>) -> Result<Ty, NoMemory>
    requires arity { f.now.arity ≡ length args.now }
    ensures value { IfOk result (λ r. r ≡ applied f.now args.now) }
{
    replace(alloc, &f.body, args.as_slice())
}

/// Whether no variable occurs in the body but the parameters, which have no mark.
pub fn is_type_fn(f: &TypeFn) -> bool
    ensures value { IsTrue result ↔ IsTypeFn f.now }
{
    each_variable_is(&f.body, f.arity as usize, false)
}
