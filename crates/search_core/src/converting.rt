// The converters of a hit, in the variables of the query.
ghost use Rattle.std.specs.Prelude.{◌≡◌, ◌+◌, IfOk, IfSome, None, Some, length, map, slice_get};
ghost use Rattle.type_core.specs.declared.ty.VarId.{VarId as the_variable};
ghost use Rattle.type_core.specs.Lists.{concatenated};
ghost use Rattle.type_core.specs.Renaming.{Renaming, listed};
ghost use Rattle.type_core.specs.Schemes.{IsScheme};
ghost use Rattle.type_core.specs.Types.{IsType};
ghost use Rattle.type_core.specs.Variables.{by_first_occurrence, field_variables, occurs, variables};
ghost use Rattle.search_core.specs.Converters.{ArePartners, IsLeastWith, completed, marked, type_beside as the_type_beside};
ghost use Rattle.search_core.specs.Search.{IsPaired};

use conv_build::{Converters, build};
use iso_normal::PairTree;
use sig_base::{List, NoMemory};
use std::alloc::Global;
use type_core::{
    Field, Scheme, Ty, VarId, renaming_is_substitution, scheme_variables_are_below, substitute,
};

/// A pairing of a member's coordinates with the query's, and the variables of the query that those of the member's
/// coordinates go to, by number.
#[derive(Drop)]
pub struct Paired {
    pub tree: PairTree,
    pub partners: List<Option<VarId>>,
}

/// The converters along the pairing from the scheme's type, in the query's variables, to the query's type and back.
pub fn converters(
    alloc: Global,
    scheme: &Scheme,
    query: &Scheme,
    pairing: &Paired,
) -> Result<Converters, NoMemory>
    requires scheme { IsScheme scheme.now }
    requires type_ { IsType scheme.now.body }
    requires query { IsType query.now.body }
    requires least { IsLeastWith scheme.now query.now pairing.now.partners pairing.now.tree }
    ensures paired { IfOk result (IsPaired scheme.now query.now pairing.now.tree) }
{
    let own = type_beside(alloc, scheme, query, pairing.partners.as_slice())?;
    build(alloc, &own, &query.body, &pairing.tree)
}

/// The scheme's type in the variables of the query.
fn type_beside(
    alloc: Global,
    scheme: &Scheme,
    query: &Scheme,
    partners: &[Option<VarId>],
) -> Result<Ty, NoMemory>
    requires scheme { IsScheme scheme.now }
    ensures value { IfOk result (λ t. (r : Renaming) → ArePartners partners.now r scheme.now
        → t ≡ the_type_beside r scheme.now query.now) }
{
    let by = images(alloc, scheme, partners, query.vars)?;
    scheme_variables_are_below();
    renaming_is_substitution();
    substitute(alloc, &scheme.body, &by)
}

/// For each variable of the scheme its partner; one without partner gets the next number from `from` on, with its mark.
fn images(
    alloc: Global,
    scheme: &Scheme,
    partners: &[Option<VarId>],
    from: u32,
) -> Result<List<Ty>, NoMemory>
    requires scheme { IsScheme scheme.now }
    ensures count { IfOk result (λ by. length by ≡ scheme.now.vars) }
    ensures value { IfOk result (λ by. (r : Renaming) → ArePartners partners.now r scheme.now
        → by ≡ listed (completed r scheme.now from) (by_first_occurrence scheme.now.body)) }
{
    let mut by = List::new(alloc);
    let mut next = from;
    for n in 0..scheme.vars {
        match partner(partners, n) {
            Some(v) => by.push(Ty::Var(v))?,
            None => {
                let eq = has_mark(&scheme.body, n);
                by.push(Ty::Var(VarId { n: next, eq }))?;
                next = one_more(next)?;
            }
        }
    }
    Ok(by)
}

fn one_more(n: u32) -> Result<u32, NoMemory>
    ensures value { IfOk result (λ more. more ≡ n + 1) }
{
    n.checked_add(1).ok_or(NoMemory)
}

fn partner(partners: &[Option<VarId>], n: u32) -> Option<VarId>
    ensures some { IfSome result (λ v. slice_get partners.now n ≡ Some (Some v)) }
    ensures none { result ≡ None → (v : the_variable) → ¬ (slice_get partners.now n ≡ Some (Some v)) }
{
    match partners.get(n as usize) {
        Some(v) => *v,
        None => None,
    }
}

/// Whether the variable of this number that has the mark occurs in the type.
#[cycle(marks)]
#[tactic(auto, using(crate::proofs::Marks::marking, std::proofs::lemmas::Grind::common_steps))]
fn has_mark(t: &Ty, n: u32) -> bool
    ensures value { result ≡ occurs (marked n) (variables t.now) }
{
    match t {
        Ty::Var(v) => v.n == n && v.eq,
        Ty::Con(_, arguments) => any_has_mark(arguments.as_slice(), n),
        Ty::Rec(fields) => any_field_has_mark(fields.as_slice(), n),
        Ty::Tup(components) => any_has_mark(components.as_slice(), n),
        Ty::Arrow(from, to) => has_mark(from.get(), n) || has_mark(to.get(), n),
    }
}

#[cycle(marks)]
#[tactic(auto, using(crate::proofs::Marks::marking, std::proofs::lemmas::Grind::common_steps))]
fn any_has_mark(parts: &[Ty], n: u32) -> bool
    ensures value { result ≡ occurs (marked n) (concatenated (map variables parts.now)) }
{
    for part in parts {
        if has_mark(part, n) {
            return true;
        }
    }
    false
}

#[cycle(marks)]
#[tactic(auto, using(crate::proofs::Marks::marking, std::proofs::lemmas::Grind::common_steps))]
fn any_field_has_mark(fields: &[Field], n: u32) -> bool
    ensures value { result ≡ occurs (marked n) (concatenated (map field_variables fields.now)) }
{
    for field in fields {
        if has_mark(&field.ty, n) {
            return true;
        }
    }
    false
}
