// A term for a variable.
ghost use Rattle.std.specs.Prelude.{◌≡◌, ◌+◌, ◌<◌, ◌≤◌, ◌^◌, map, IfOk};
ghost use Rattle.conv_terms.specs.Levels.{levels, levels_of_all, nesting, nesting_of_all};
ghost use Rattle.conv_terms.specs.Substitution.{image, traversed, each_below, substituted};

use crate::shifting::shift;
use crate::term::Term;
use sig_base::{Boxed, List, NoMemory};
use std::alloc::Global;
use type_core::copy;

/// What becomes of a variable below `depth` binders.
fn image_of(alloc: Global, n: u32, level: u32, by: &Term, depth: u32) -> Result<Term, NoMemory>
    requires fits { levels (image level by.now n depth) ≤ 2 ^ 32 }
    ensures value { IfOk result (λ r. r ≡ image level by.now n depth) }
{
    if n < level {
        Ok(Term::Var(n))
    } else if n == level {
        shift(alloc, by, level, depth)
    } else {
        Ok(Term::Var(n - 1))
    }
}

#[cycle(subst)]
#[tactic(auto, using(crate::proofs::Equations::traversed_at, crate::proofs::Equations::levels_at, crate::proofs::Equations::nesting_at, std::proofs::lemmas::Grind::common_steps))]
fn subst_below(alloc: Global, t: &Term, level: u32, by: &Term, depth: u32) -> Result<Term, NoMemory>
    requires fits { levels (traversed (image level by.now) t.now depth) ≤ 2 ^ 32 }
    requires nests { depth + nesting t.now < 2 ^ 32 }
    ensures value { IfOk result (λ r. r ≡ traversed (image level by.now) t.now depth) }
{
    match t {
        Term::Var(n) => image_of(alloc, *n, level, by, depth),
        Term::Lam(a, body) => {
            let a = copy(alloc, a.get())?;
            let a = Boxed::new(alloc, a)?;
            let body = subst_below(alloc, body.get(), level, by, depth + 1)?;
            let body = Boxed::new(alloc, body)?;
            Ok(Term::Lam(a, body))
        }
        Term::App(function, argument) => {
            let function = subst_below(alloc, function.get(), level, by, depth)?;
            let function = Boxed::new(alloc, function)?;
            let argument = subst_below(alloc, argument.get(), level, by, depth)?;
            let argument = Boxed::new(alloc, argument)?;
            Ok(Term::App(function, argument))
        }
        Term::Tup(components) => {
            let components = subst_all(alloc, components.as_slice(), level, by, depth)?;
            Ok(Term::Tup(components))
        }
        Term::Proj(i, n, e) => {
            let e = subst_below(alloc, e.get(), level, by, depth)?;
            let e = Boxed::new(alloc, e)?;
            Ok(Term::Proj(*i, *n, e))
        }
    }
}

#[cycle(subst)]
fn subst_all(
    alloc: Global,
    components: &[Term],
    level: u32,
    by: &Term,
    depth: u32,
) -> Result<List<Term>, NoMemory>
    requires fits { levels_of_all (each_below (map (traversed (image level by.now)) components.now) depth) ≤ 2 ^ 32 }
    requires nests { depth + nesting_of_all components.now < 2 ^ 32 }
    ensures value { IfOk result (λ r. r ≡ each_below (map (traversed (image level by.now)) components.now) depth) }
{
    let mut done = List::new(alloc);
    for component in components {
        done.push(subst_below(alloc, component, level, by, depth)?)?;
    }
    Ok(done)
}

/// The term with `by` for variable `level`, where `t` is in a context of `level + 1` variables and `by` in
/// one of `level`.
///
/// Each occurrence becomes a copy of `by` in which every variable that is at least `level` is raised by the
/// number of binders of `t` around the occurrence, and every variable of `t` above `level` is lowered by one.
/// The levels of the answer are to stay below 2^32, and fewer than 2^32 binders of `t` to enclose one another.
pub fn subst(alloc: Global, t: &Term, level: u32, by: &Term) -> Result<Term, NoMemory>
    requires fits { levels (substituted level by.now t.now) ≤ 2 ^ 32 }
    requires nests { nesting t.now < 2 ^ 32 }
    ensures value { IfOk result (λ r. r ≡ substituted level by.now t.now) }
{
    subst_below(alloc, t, level, by, 0)
}
