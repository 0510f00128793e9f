// The types of factors.
ghost use Rattle.std.specs.Prelude.{◌≡◌, IfOk, map};
ghost use Rattle.iso_normal.specs.Factors.{product, type_of_factor, type_of_factors};

use crate::factor::Factor;
use sig_base::{List, NoMemory, Row, Shared};
use std::alloc::Global;
use type_core::{Ty, copy};

/// The product of the factors: `unit` for none, the type itself for one, else the tuple.
pub fn reify(alloc: Global, fs: &List<Factor>) -> Result<Ty, NoMemory>
    ensures value { IfOk result (λ t. t ≡ type_of_factors fs.now) }
{
    product_of(alloc, fs.as_slice())
}

#[cycle(reify)]
fn product_of(alloc: Global, fs: &[Factor]) -> Result<Ty, NoMemory>
    ensures value { IfOk result (λ t. t ≡ type_of_factors fs.now) }
{
    let types = types_of(alloc, fs)?;
    product(alloc, types)
}

#[cycle(reify)]
fn types_of(alloc: Global, fs: &[Factor]) -> Result<List<Ty>, NoMemory>
    ensures value { IfOk result (λ types. types ≡ map type_of_factor fs.now) }
{
    let mut done = List::new(alloc);
    for f in fs {
        done.push(type_of(alloc, f)?)?;
    }
    Ok(done)
}

#[cycle(reify)]
#[tactic(auto, using(crate::proofs::Complete::factor_types, std::proofs::lemmas::Grind::common_steps))]
fn type_of(alloc: Global, f: &Factor) -> Result<Ty, NoMemory>
    ensures value { IfOk result (λ t. t ≡ type_of_factor f.now) }
{
    match f {
        Factor::Atom(t) => copy(alloc, t),
        Factor::Arr(arguments, results) => {
            let from = product_of(alloc, arguments.as_slice())?;
            let to = product_of(alloc, results.as_slice())?;
            let from = Shared::new(alloc, from)?;
            let to = Shared::new(alloc, to)?;
            Ok(Ty::Arrow(from, to))
        }
    }
}

fn product(alloc: Global, types: List<Ty>) -> Result<Ty, NoMemory>
    ensures value { IfOk result (λ t. t ≡ product types) }
{
    if types.len() != 1 {
        return Ok(Ty::Tup(Row::new(alloc, types)?));
    }
    let mut types = types;
    match types.pop() {
        Some(t) => Ok(t),
        None => Ok(Ty::Tup(Row::empty())),
    }
}
