// The instance of the least word.
ghost use Rattle.std.specs.Prelude.{◌≡◌, ◌<◌, ◌^◌, None, IfOk, IfSome};
ghost use Rattle.type_core.specs.declared.ty.Ty.{Ty};
ghost use Rattle.type_core.specs.Schemes.{IsScheme};
ghost use Rattle.type_core.specs.Size.{size_of};
ghost use Rattle.type_core.specs.Types.{IsType};
ghost use Rattle.linear_match.specs.Instances.{IsMatch};
ghost use Rattle.linear_match.specs.LeastWord.{IsFirst};

use crate::bindings::bindings;
use crate::search::{Task, search};
use iso_normal::linear;
use sig_base::{List, NoMemory};
use std::alloc::Global;
use type_core::{Scheme, Ty, TypeName, substitute};

/// An instance of a scheme, and the word that tells it.
#[derive(Drop)]
pub struct Instance {
    /// For each variable of the scheme, by number, the type in its place.
    pub subst: List<Ty>,
    /// The body of the scheme with these types in the places of its variables.
    pub body: Ty,
    /// The letters by which the factors of the subject are split along the scheme.
    pub word: List<u32>,
}

/// The instance of `pattern` that is linearly isomorphic to `subject` and has the least word; `None` exactly where no
/// instance is linearly isomorphic to it. The instance is over the variables of `subject`, and a variable with the
/// equality mark gets a type that admits equality by the attributes of `names`. The body of `pattern` has fewer than 2^32
/// nodes.
pub fn first(
    alloc: Global,
    names: &List<TypeName>,
    pattern: &Scheme,
    subject: &Ty,
) -> Result<Option<Instance>, NoMemory>
    requires scheme { IsScheme pattern.now }
    requires pattern_type { IsType pattern.now.body }
    requires subject_type { IsType subject.now }
    requires few { size_of pattern.now.body < 2 ^ 32 }
    ensures found { IfOk result (λ answer. IfSome answer (λ instance.
        IsFirst names.now pattern.now subject.now instance.word instance.subst instance.body)) }
    ensures matches { IfOk result (λ answer. IfSome answer (λ instance.
        IsMatch names.now pattern.now subject.now instance.subst)) }
    ensures none { IfOk result (λ answer. answer ≡ None → (by : List Ty)
        → ¬ (IsMatch names.now pattern.now subject.now by)) }
{
    let mut tasks = List::new(alloc);
    tasks.push(Task {
        pattern: &pattern.body,
        factors: linear(alloc, subject)?,
    })?;
    let mut met = List::new(alloc);
    let mut word = List::new(alloc);
    if !search(alloc, names, &mut tasks, &mut met, &mut word)? {
        return Ok(None);
    }
    let subst = bindings(alloc, met.as_slice(), pattern.vars)?;
    let body = substitute(alloc, &pattern.body, &subst)?;
    Ok(Some(Instance { subst, body, word }))
}
