// The type of a term.
ghost use Rattle.std.specs.Prelude.{◌≡◌, ◌++◌, ◌∷◌, [], ◌↔◌, slice_get, Some, None, List, IfOk, OnOk};
ghost use Rattle.type_core.specs.declared.ty.Ty.{Ty};
ghost use Rattle.type_core.specs.declared.ty.Ty.TheVariants as ty;
ghost use Rattle.conv_typing.specs.Typing.{HasType};
ghost use Rattle.conv_typing.specs.deciding.TypeOf.{IsTypeOf, AreTypesOf, IsResult, if_type, function_from, tuple_of, component};

use conv_terms::Term;
use sig_base::{List, NoMemory, Row, Shared};
use std::alloc::Global;
use type_core::{Ty, copy, copy_all, is_type, same};

/// The type of the variable of this level, where the context has a type for it.
fn variable_type(alloc: Global, ctx: &[Ty], level: u32) -> Result<Option<Ty>, NoMemory>
    ensures value { IfOk result (λ r. r ≡ if_type (slice_get ctx.now level)) }
{
    match ctx.get(level as usize) {
        Some(own) => {
            if !is_type(own) {
                return Ok(None);
            }
            let own = copy(alloc, own)?;
            Ok(Some(own))
        }
        None => Ok(None),
    }
}

fn type_at(alloc: Global, types: &[Ty], place: u32) -> Result<Option<Ty>, NoMemory>
    ensures value { IfOk result (λ r. r ≡ slice_get types.now place) }
{
    match types.get(place as usize) {
        Some(a) => {
            let a = copy(alloc, a)?;
            Ok(Some(a))
        }
        None => Ok(None),
    }
}

/// Takes the last variable out of the context.
fn leave(ctx: &mut List<Ty>)
    ensures left { (front : List Ty) (a : Ty) → ctx.old ≡ front ++ a ∷ [] → ctx.new ≡ front }
{
    ctx.pop();
}

/// The type of an abstraction over `a`, by that of its body.
fn function_type(alloc: Global, a: &Ty, body: Option<Ty>) -> Result<Option<Ty>, NoMemory>
    ensures value { IfOk result (λ r. r ≡ function_from a.now body) }
{
    if !is_type(a) {
        return Ok(None);
    }
    match body {
        Some(b) => {
            let a = Shared::new(alloc, copy(alloc, a)?)?;
            let b = Shared::new(alloc, b)?;
            Ok(Some(Ty::Arrow(a, b)))
        }
        None => Ok(None),
    }
}

/// The type of an application, by those of its function and its argument.
fn result_type(
    alloc: Global,
    function: Option<Ty>,
    argument: Option<Ty>,
) -> Result<Option<Ty>, NoMemory>
    ensures value { IfOk result (λ r. IsResult function argument r) }
{
    match (function, argument) {
        (Some(Ty::Arrow(a, b)), Some(argument)) => {
            if !same(a.get(), &argument) {
                return Ok(None);
            }
            let b = copy(alloc, b.get())?;
            Ok(Some(b))
        }
        _ => Ok(None),
    }
}

/// The type of a tuple, by those of its components.
fn tuple_type(alloc: Global, components: Option<List<Ty>>) -> Result<Option<Ty>, NoMemory>
    ensures value { IfOk result (λ r. r ≡ tuple_of components) }
{
    match components {
        Some(types) => {
            if types.len() == 1 {
                return Ok(None);
            }
            let types = Row::new(alloc, types)?;
            Ok(Some(Ty::Tup(types)))
        }
        None => Ok(None),
    }
}

/// The type of component `i`, counted from 1, of `n` components, by that of the tuple.
#[tactic(auto, using(crate::proofs::Types::out_at, std::proofs::lemmas::Grind::common_steps))]
fn component_type(alloc: Global, i: u32, n: u32, e: Option<Ty>) -> Result<Option<Ty>, NoMemory>
    ensures value { IfOk result (λ r. r ≡ component i n e) }
{
    match e {
        Some(Ty::Tup(types)) => {
            if types.len() != n as usize || n == 1 || i == 0 {
                return Ok(None);
            }
            type_at(alloc, types.as_slice(), i - 1)
        }
        _ => Ok(None),
    }
}

#[cycle(typing)]
fn find_type(alloc: Global, t: &Term, ctx: &mut List<Ty>) -> Result<Option<Ty>, NoMemory>
    ensures value { IfOk result (λ r. IsTypeOf ctx.old t.now r) }
    ensures kept { OnOk result (ctx.new ≡ ctx.old) }
{
    match t {
        Term::Var(n) => variable_type(alloc, ctx.as_slice(), *n),
        Term::Lam(a, body) => {
            ctx.push(copy(alloc, a.get())?)?;
            let b = find_type(alloc, body.get(), ctx)?;
            leave(ctx);
            function_type(alloc, a.get(), b)
        }
        Term::App(function, argument) => {
            let function = find_type(alloc, function.get(), ctx)?;
            let argument = find_type(alloc, argument.get(), ctx)?;
            result_type(alloc, function, argument)
        }
        Term::Tup(components) => {
            let types = find_types(alloc, components.as_slice(), ctx)?;
            tuple_type(alloc, types)
        }
        Term::Proj(i, n, e) => {
            let e = find_type(alloc, e.get(), ctx)?;
            component_type(alloc, *i, *n, e)
        }
    }
}

#[cycle(typing)]
fn find_types(
    alloc: Global,
    terms: &[Term],
    ctx: &mut List<Ty>,
) -> Result<Option<List<Ty>>, NoMemory>
    ensures value { IfOk result (λ r. AreTypesOf ctx.old terms.now r) }
    ensures kept { OnOk result (ctx.new ≡ ctx.old) }
{
    let mut done = List::new(alloc);
    for t in terms {
        match find_type(alloc, t, ctx)? {
            Some(a) => done.push(a)?,
            None => return Ok(None),
        }
    }
    Ok(Some(done))
}

/// The type of the term in the context, whose first type is that of the variable of level 0; `None` exactly
/// where the term has no type there.
pub fn type_of(alloc: Global, ctx: &List<Ty>, t: &Term) -> Result<Option<Ty>, NoMemory>
    ensures some { IfOk result (λ r. (a : Ty) → (r ≡ Some a) ↔ HasType ctx.now t.now a) }
    ensures none { IfOk result (λ r. (r ≡ None) ↔ ((a : Ty) → ¬ (HasType ctx.now t.now a))) }
{
    let mut ctx = copy_all(alloc, ctx.as_slice())?;
    find_type(alloc, t, &mut ctx)
}
