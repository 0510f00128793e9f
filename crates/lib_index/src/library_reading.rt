// The parts of a library, read from its index text.
ghost use Rattle.std.specs.Prelude.{◌≡◌, ◌+◌, length, min};
ghost use Rattle.lib_index.specs.Reading as reading;
ghost use Rattle.lib_index.specs.Reading.{Reads, Spends, charged, coded, equality_of, flag_of, kind_of, library_at, list_at, many, member_at, members_at, name_at, names_at, rest_of, scheme_at, tycon_at, unit_at, unit_of, with_front};
ghost use Rattle.type_core.specs.Weight as weight;
ghost use Rattle.type_core.specs.Weight.{member_weight, tycon_weight, unit_weight};

use crate::refusal::IndexRefusal;
use crate::rest::{Rest, byte, bytes, flag, number, spent};
use crate::type_reading::{Place, whole_type};
use sig_base::{List, Text};
use std::alloc::Global;
use type_core::{
    Equality, Kind, Library, Member, Scheme, Ty, Tycon, TypeFn, TypeName, Unit, UnitKind,
    initial_names, type_weight,
};

const MAX_MEMBERS: u32 = 100_000;

fn path_weight(path: &Text) -> u64
    ensures value { result ≡ min (1 + length path.now) u64.MAX }
{
    1u64.saturating_add(path.len() as u64)
}

// Spends the weight of a type constructor or a member.
fn item_spent<'a>(path: &Text, body: &Ty, rest: Rest<'a>) -> Result<Rest<'a>, IndexRefusal>
    ensures spent { Spends (reading.spent (1 + (length path.now + weight.type_weight body.now)) (rest_of rest.entry)) result }
{
    let cost = path_weight(path).saturating_add(type_weight(body));
    spent(cost, rest)
}

#[tactic(auto, unfolding(crate::specs::Reading::coded))]
fn unit_kind(rest: Rest<'_>) -> Result<(UnitKind, Rest<'_>), IndexRefusal>
    ensures read { Reads (coded unit_of (rest_of rest.entry)) result }
{
    let (first, rest) = byte(rest)?;
    match first {
        0 => Ok((UnitKind::Sig, rest)),
        1 => Ok((UnitKind::Str, rest)),
        _ => Err(IndexRefusal::NotAnIndex),
    }
}

#[tactic(auto, unfolding(crate::specs::Reading::unit_at))]
fn unit(alloc: Global, rest: Rest<'_>) -> Result<(Unit, Rest<'_>), IndexRefusal>
    ensures read { Reads (unit_at (rest_of rest.entry)) result }
{
    let (kind, rest) = unit_kind(rest)?;
    let (id, rest) = bytes(alloc, rest)?;
    Ok((Unit { kind, id }, rest))
}

#[tactic(auto, unfolding(crate::specs::Reading::charged))]
fn charged_unit(alloc: Global, rest: Rest<'_>) -> Result<(Unit, Rest<'_>), IndexRefusal>
    ensures read { Reads (charged unit_weight unit_at (rest_of rest.entry)) result }
{
    let (unit, rest) = unit(alloc, rest)?;
    let rest = spent(path_weight(&unit.id), rest)?;
    Ok((unit, rest))
}

fn units(alloc: Global, count: u32, rest: Rest<'_>) -> Result<(List<Unit>, Rest<'_>), IndexRefusal>
    ensures read { Reads (many (charged unit_weight unit_at) count (rest_of rest.entry)) result }
{
    let mut units = List::new(alloc);
    let mut after = rest;
    for _ in 0..count {
        let (unit, next) = charged_unit(alloc, after)?;
        units.push(unit)?;
        after = next;
    }
    Ok((units, after))
}

#[tactic(auto, unfolding(crate::specs::Reading::list_at))]
fn all_units(alloc: Global, rest: Rest<'_>) -> Result<(List<Unit>, Rest<'_>), IndexRefusal>
    ensures read { Reads (list_at (charged unit_weight unit_at) (rest_of rest.entry)) result }
{
    let (count, rest) = number(rest)?;
    units(alloc, count, rest)
}

#[tactic(auto, unfolding(crate::specs::Reading::coded))]
fn equality(rest: Rest<'_>) -> Result<(Equality, Rest<'_>), IndexRefusal>
    ensures read { Reads (coded equality_of (rest_of rest.entry)) result }
{
    let (first, rest) = byte(rest)?;
    match first {
        0 => Ok((Equality::Never, rest)),
        1 => Ok((Equality::IfArgs, rest)),
        _ => Err(IndexRefusal::NotAnIndex),
    }
}

#[tactic(auto, unfolding(crate::specs::Reading::name_at))]
fn name(alloc: Global, rest: Rest<'_>) -> Result<(TypeName, Rest<'_>), IndexRefusal>
    ensures read { Reads (name_at (rest_of rest.entry)) result }
{
    let (path, rest) = bytes(alloc, rest)?;
    let (arity, rest) = number(rest)?;
    let (equality, rest) = equality(rest)?;
    let (external, rest) = flag(rest)?;
    let name = TypeName {
        path,
        arity,
        equality,
        external,
    };
    Ok((name, rest))
}

fn name_weight(name: &TypeName) -> u64
    ensures value { result ≡ min (weight.name_weight name.now) u64.MAX }
{
    if name.external {
        path_weight(&name.path)
    } else {
        0
    }
}

#[tactic(auto, unfolding(crate::specs::Reading::charged))]
fn charged_name(alloc: Global, rest: Rest<'_>) -> Result<(TypeName, Rest<'_>), IndexRefusal>
    ensures read { Reads (charged weight.name_weight name_at (rest_of rest.entry)) result }
{
    let (name, rest) = name(alloc, rest)?;
    let rest = spent(name_weight(&name), rest)?;
    Ok((name, rest))
}

fn names(
    alloc: Global,
    known: List<TypeName>,
    count: u32,
    rest: Rest<'_>,
) -> Result<(List<TypeName>, Rest<'_>), IndexRefusal>
    ensures read { Reads (with_front known (many (charged weight.name_weight name_at) count (rest_of rest.entry))) result }
{
    let mut names = known;
    let mut after = rest;
    for _ in 0..count {
        let (name, next) = charged_name(alloc, after)?;
        names.push(name)?;
        after = next;
    }
    Ok((names, after))
}

#[tactic(auto, unfolding(crate::specs::Reading::names_at, crate::specs::Reading::list_at))]
fn all_names(alloc: Global, rest: Rest<'_>) -> Result<(List<TypeName>, Rest<'_>), IndexRefusal>
    ensures read { Reads (names_at (rest_of rest.entry)) result }
{
    let (count, rest) = number(rest)?;
    let initial = initial_names(alloc)?;
    names(alloc, initial, count, rest)
}

#[tactic(auto, unfolding(crate::specs::Reading::tycon_at))]
fn tycon<'a>(
    alloc: Global,
    names: &[TypeName],
    rest: Rest<'a>,
) -> Result<(Tycon, Rest<'a>), IndexRefusal>
    ensures read { Reads (tycon_at names.now (rest_of rest.entry)) result }
{
    let (path, rest) = bytes(alloc, rest)?;
    let (arity, rest) = number(rest)?;
    let place = Place { names, marks: None };
    let (body, rest) = whole_type(alloc, place, rest)?;
    let fun = TypeFn { arity, body };
    Ok((Tycon { path, fun }, rest))
}

#[tactic(auto, unfolding(crate::specs::Reading::charged))]
fn charged_tycon<'a>(
    alloc: Global,
    names: &[TypeName],
    rest: Rest<'a>,
) -> Result<(Tycon, Rest<'a>), IndexRefusal>
    ensures read { Reads (charged tycon_weight (tycon_at names.now) (rest_of rest.entry)) result }
{
    let (tycon, rest) = tycon(alloc, names, rest)?;
    let rest = item_spent(&tycon.path, &tycon.fun.body, rest)?;
    Ok((tycon, rest))
}

fn tycons<'a>(
    alloc: Global,
    names: &[TypeName],
    count: u32,
    rest: Rest<'a>,
) -> Result<(List<Tycon>, Rest<'a>), IndexRefusal>
    ensures read { Reads (many (charged tycon_weight (tycon_at names.now)) count (rest_of rest.entry)) result }
{
    let mut tycons = List::new(alloc);
    let mut after = rest;
    for _ in 0..count {
        let (tycon, next) = charged_tycon(alloc, names, after)?;
        tycons.push(tycon)?;
        after = next;
    }
    Ok((tycons, after))
}

#[tactic(auto, unfolding(crate::specs::Reading::list_at))]
fn all_tycons<'a>(
    alloc: Global,
    names: &[TypeName],
    rest: Rest<'a>,
) -> Result<(List<Tycon>, Rest<'a>), IndexRefusal>
    ensures read { Reads (list_at (charged tycon_weight (tycon_at names.now)) (rest_of rest.entry)) result }
{
    let (count, rest) = number(rest)?;
    tycons(alloc, names, count, rest)
}

#[tactic(auto, unfolding(crate::specs::Reading::coded))]
fn kind(rest: Rest<'_>) -> Result<(Kind, Rest<'_>), IndexRefusal>
    ensures read { Reads (coded kind_of (rest_of rest.entry)) result }
{
    let (first, rest) = byte(rest)?;
    match first {
        0 => Ok((Kind::Val, rest)),
        1 => Ok((Kind::Con, rest)),
        2 => Ok((Kind::Exn, rest)),
        _ => Err(IndexRefusal::NotAnIndex),
    }
}

fn marks(alloc: Global, count: u32, rest: Rest<'_>) -> Result<(List<bool>, Rest<'_>), IndexRefusal>
    ensures read { Reads (many (coded flag_of) count (rest_of rest.entry)) result }
{
    let mut marks = List::new(alloc);
    let mut after = rest;
    for _ in 0..count {
        let (mark, next) = flag(after)?;
        marks.push(mark)?;
        after = next;
    }
    Ok((marks, after))
}

#[tactic(auto, unfolding(crate::specs::Reading::scheme_at))]
fn scheme<'a>(
    alloc: Global,
    names: &[TypeName],
    rest: Rest<'a>,
) -> Result<(Scheme, Rest<'a>), IndexRefusal>
    ensures read { Reads (scheme_at names.now (rest_of rest.entry)) result }
{
    let (vars, rest) = number(rest)?;
    let (marks, rest) = marks(alloc, vars, rest)?;
    let told = Some(marks.as_slice());
    let place = Place { names, marks: told };
    let (body, rest) = whole_type(alloc, place, rest)?;
    Ok((Scheme { vars, body }, rest))
}

#[tactic(auto, unfolding(crate::specs::Reading::member_at))]
fn member<'a>(
    alloc: Global,
    names: &[TypeName],
    rest: Rest<'a>,
) -> Result<(Member, Rest<'a>), IndexRefusal>
    ensures read { Reads (member_at names.now (rest_of rest.entry)) result }
{
    let (kind, rest) = kind(rest)?;
    let (path, rest) = bytes(alloc, rest)?;
    let (scheme, rest) = scheme(alloc, names, rest)?;
    Ok((Member { kind, path, scheme }, rest))
}

#[tactic(auto, unfolding(crate::specs::Reading::charged))]
fn charged_member<'a>(
    alloc: Global,
    names: &[TypeName],
    rest: Rest<'a>,
) -> Result<(Member, Rest<'a>), IndexRefusal>
    ensures read { Reads (charged member_weight (member_at names.now) (rest_of rest.entry)) result }
{
    let (member, rest) = member(alloc, names, rest)?;
    let rest = item_spent(&member.path, &member.scheme.body, rest)?;
    Ok((member, rest))
}

fn members<'a>(
    alloc: Global,
    names: &[TypeName],
    count: u32,
    rest: Rest<'a>,
) -> Result<(List<Member>, Rest<'a>), IndexRefusal>
    ensures read { Reads (many (charged member_weight (member_at names.now)) count (rest_of rest.entry)) result }
{
    let mut members = List::new(alloc);
    let mut after = rest;
    for _ in 0..count {
        let (member, next) = charged_member(alloc, names, after)?;
        members.push(member)?;
        after = next;
    }
    Ok((members, after))
}

#[tactic(auto, unfolding(crate::specs::Reading::members_at))]
fn all_members<'a>(
    alloc: Global,
    names: &[TypeName],
    rest: Rest<'a>,
) -> Result<(List<Member>, Rest<'a>), IndexRefusal>
    ensures read { Reads (members_at names.now (rest_of rest.entry)) result }
{
    let (count, rest) = number(rest)?;
    if MAX_MEMBERS < count {
        return Err(IndexRefusal::NotAnIndex);
    }
    members(alloc, names, count, rest)
}

/// Reads the parts of a library, behind which nothing stands.
#[tactic(auto, unfolding(crate::specs::Reading::library_at))]
pub fn library(alloc: Global, rest: Rest<'_>) -> Result<(Library, Rest<'_>), IndexRefusal>
    ensures read { Reads (library_at (rest_of rest.entry)) result }
{
    let (units, rest) = all_units(alloc, rest)?;
    let (names, rest) = all_names(alloc, rest)?;
    let (tycons, rest) = all_tycons(alloc, names.as_slice(), rest)?;
    let (members, rest) = all_members(alloc, names.as_slice(), rest)?;
    if !rest.bytes.is_empty() {
        return Err(IndexRefusal::NotAnIndex);
    }
    let library = Library {
        units,
        names,
        tycons,
        members,
    };
    Ok((library, rest))
}
