// Agreement of lists of factors, decided.
ghost use Rattle.std.specs.Prelude.{◌≡◌, ◌↔◌, ℕ, IsTrue, None, Some, IfOk, IfSome, false, length, slice_get};
ghost use Rattle.iso_normal.specs.Agreement.{Agree, AreAlike};
ghost use Rattle.iso_normal.specs.declared.factor.Factor.{Factor};
ghost use Rattle.iso_normal.specs.declared.factor.Factor.TheViews.{out-Factor};

use crate::factor::Factor;
use sig_base::NoMemory;
use std::alloc::Global;
use type_core::same;

/// Whether the lists agree.
///
/// Each factor of the first takes the first one of the second that is like it and isn't taken yet.
#[cycle(agree)]
pub fn agree(alloc: Global, fs: &[Factor], gs: &[Factor]) -> Result<bool, NoMemory>
    ensures value { IfOk result (λ r. IsTrue r ↔ Agree fs.now gs.now) }
{
    if fs.len() != gs.len() {
        return Ok(false);
    }
    let mut taken = vec![in alloc; false; gs.len()]?;
    for f in fs {
        match place_of_like(alloc, f, gs, taken.as_slice())? {
            Some(place) => taken[place] = true,
            None => return Ok(false),
        }
    }
    Ok(true)
}

/// The first place of a factor that is like this one and isn't taken; `None` exactly where there is none.
#[cycle(agree)]
fn place_of_like(
    alloc: Global,
    f: &Factor,
    gs: &[Factor],
    taken: &[bool],
) -> Result<Option<usize>, NoMemory>
    requires marks { length taken.now ≡ length gs.now }
    ensures found { IfOk result (λ found. IfSome found (λ k. (g : Factor)
        × (slice_get taken.now k ≡ Some false) × (slice_get gs.now k ≡ Some g)
        × AreAlike (out-Factor f.now) (out-Factor g))) }
    ensures none { IfOk result (λ found. found ≡ None → (k : ℕ) (g : Factor)
        → slice_get taken.now k ≡ Some false → slice_get gs.now k ≡ Some g
        → ¬ (AreAlike (out-Factor f.now) (out-Factor g))) }
{
    for j in 0..gs.len() {
        if !taken[j] && alike(alloc, f, &gs[j])? {
            return Ok(Some(j));
        }
    }
    Ok(None)
}

/// Whether the factors are alike.
#[cycle(agree)]
fn alike(alloc: Global, f: &Factor, g: &Factor) -> Result<bool, NoMemory>
    ensures value { IfOk result (λ r. IsTrue r ↔ AreAlike (out-Factor f.now) (out-Factor g.now)) }
{
    match (f, g) {
        (Factor::Atom(t), Factor::Atom(u)) => Ok(same(t, u)),
        (Factor::Arr(arguments, results), Factor::Arr(others, other_results)) => {
            if !agree(alloc, arguments.as_slice(), others.as_slice())? {
                return Ok(false);
            }
            agree(alloc, results.as_slice(), other_results.as_slice())
        }
        _ => Ok(false),
    }
}
