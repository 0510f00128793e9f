// The type functions that are names.
ghost use Rattle.std.specs.Prelude.{◌≡◌, ◌≢◌, ◌↔◌, ℕ, IfNone, IfOk, IfSome, IsTrue};
ghost use Rattle.elab_env.specs.Parameters.{name_function, parameter, parameters};

use sig_base::{List, NoMemory, Row};
use std::alloc::Global;
use type_core::{NameId, Ty, TypeFn, VarId};

/// The name that the function is, if it is a name applied to the parameters in order.
pub fn denoted_name(f: &TypeFn) -> Option<NameId>
    ensures name { IfSome result (λ n. f.now ≡ name_function n.0 f.now.arity) }
    ensures none { IfNone result ((n : ℕ) → f.now ≢ name_function n f.now.arity) }
{
    match &f.body {
        Ty::Con(name, arguments) if are_parameters(arguments.as_slice(), f.arity) => Some(*name),
        _ => None,
    }
}

// Whether these are just the parameters of a function of this arity.
fn are_parameters(arguments: &[Ty], arity: u32) -> bool
    ensures value { IsTrue result ↔ (arguments.now ≡ parameters arity) }
{
    if arguments.len() != arity as usize {
        return false;
    }
    for (i, argument) in arguments.iter().enumerate() {
        if !is_parameter(argument, i) {
            return false;
        }
    }
    true
}

fn is_parameter(argument: &Ty, n: usize) -> bool
    ensures value { IsTrue result ↔ (argument.now ≡ parameter n) }
{
    match argument {
        Ty::Var(v) => v.n as usize == n && !v.eq,
        _ => false,
    }
}

/// The type function that is this name.
pub fn name_function(alloc: Global, name: NameId, arity: u32) -> Result<TypeFn, NoMemory>
    ensures value { IfOk result (λ f. f ≡ name_function name.0 arity) }
{
    let mut arguments = List::new(alloc);
    for n in 0..arity {
        arguments.push(Ty::Var(VarId { n, eq: false }))?;
    }
    Ok(TypeFn {
        arity,
        body: Ty::Con(name, Row::new(alloc, arguments)?),
    })
}
