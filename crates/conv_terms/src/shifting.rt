// The moving of levels.
ghost use Rattle.std.specs.Prelude.{◌≡◌, ◌+◌, ◌<◌, ◌≤◌, ◌^◌, map, IfOk};
ghost use Rattle.conv_terms.specs.Levels.{levels, levels_of_all};
ghost use Rattle.conv_terms.specs.Shifting.{raised, shifted};

use crate::term::Term;
use sig_base::{Boxed, List, NoMemory};
use std::alloc::Global;
use type_core::copy;

fn raise(n: u32, from: u32, by: u32) -> u32
    requires fits { raised from by n < 2 ^ 32 }
    ensures value { result ≡ raised from by n }
{
    if n < from { n } else { n + by }
}

/// A copy of the term in which `by` is added to every variable that is at least `from`. Its levels are to stay
/// below 2^32.
#[cycle(shift)]
#[tactic(auto, using(crate::proofs::Equations::shifted_at, crate::proofs::Equations::levels_at, std::proofs::lemmas::Grind::common_steps))]
pub fn shift(alloc: Global, t: &Term, from: u32, by: u32) -> Result<Term, NoMemory>
    requires fits { levels (shifted from by t.now) ≤ 2 ^ 32 }
    ensures value { IfOk result (λ r. r ≡ shifted from by t.now) }
{
    match t {
        Term::Var(n) => Ok(Term::Var(raise(*n, from, by))),
        Term::Lam(a, body) => {
            let a = copy(alloc, a.get())?;
            let a = Boxed::new(alloc, a)?;
            let body = shift(alloc, body.get(), from, by)?;
            let body = Boxed::new(alloc, body)?;
            Ok(Term::Lam(a, body))
        }
        Term::App(function, argument) => {
            let function = shift(alloc, function.get(), from, by)?;
            let function = Boxed::new(alloc, function)?;
            let argument = shift(alloc, argument.get(), from, by)?;
            let argument = Boxed::new(alloc, argument)?;
            Ok(Term::App(function, argument))
        }
        Term::Tup(components) => {
            let components = shift_all(alloc, components.as_slice(), from, by)?;
            Ok(Term::Tup(components))
        }
        Term::Proj(i, n, e) => {
            let e = shift(alloc, e.get(), from, by)?;
            let e = Boxed::new(alloc, e)?;
            Ok(Term::Proj(*i, *n, e))
        }
    }
}

#[cycle(shift)]
fn shift_all(alloc: Global, components: &[Term], from: u32, by: u32) -> Result<List<Term>, NoMemory>
    requires fits { levels_of_all (map (shifted from by) components.now) ≤ 2 ^ 32 }
    ensures value { IfOk result (λ r. r ≡ map (shifted from by) components.now) }
{
    let mut done = List::new(alloc);
    for component in components {
        done.push(shift(alloc, component, from, by)?)?;
    }
    Ok(done)
}
