// What variables have met, and types that meet.
ghost use Rattle.std.specs.Prelude.{◌≡◌, ◌++◌, ◌∷◌, ◌↔◌, [], IsTrue, IfOk, OnOk, false, true, option_copied};
ghost use Rattle.type_core.specs.declared.ty.Ty.TheViews.{out-Ty};
ghost use Rattle.type_core.specs.AdmitsEquality.{AdmitsEquality};
ghost use Rattle.linear_match.specs.Meetings.{MeetEach, MeetFields, Meets, exactly, first_factors, first_type, loosely};
ghost use Rattle.linear_match.specs.Meetings as meetings;
ghost use Rattle.linear_match.specs.search.Bindings.{AreGood, IsBefore, Leads, LeadsBy, LeadsNowhere, has_mark, meetings_of};

use iso_normal::{Factor, agree, linear, reify};
use sig_base::{List, NoMemory, Row};
use std::alloc::Global;
use type_core::{Field, Ty, TypeName, VarId, admits_equality, copy, same};

/// What a variable of the pattern has met.
#[derive(Drop)]
pub enum Met {
    /// A list of factors, where it takes the list.
    Loosely(VarId, List<Factor>),
    /// A type, where it stands inside an atom.
    Exactly(VarId, Ty),
}

/// The first type that the variable of this number has met.
fn exact_type(met: &[Met], n: u32) -> Option<&Ty>
    ensures value { option_copied result ≡ first_type n (meetings_of met.now) }
{
    for one in met {
        if let Met::Exactly(v, t) = one
            && v.n == n
        {
            return Some(t);
        }
    }
    None
}

/// The first list of factors that it has met.
fn loose_factors(met: &[Met], n: u32) -> Option<&List<Factor>>
    ensures value { option_copied result ≡ first_factors n (meetings_of met.now) }
{
    for one in met {
        if let Met::Loosely(v, fs) = one
            && v.n == n
        {
            return Some(fs);
        }
    }
    None
}

/// Whether a variable of this number that has met something has the equality mark.
fn wants_equality(met: &[Met], n: u32) -> bool
    ensures value { result ≡ has_mark n (meetings_of met.now) }
{
    for one in met {
        let v = match one {
            Met::Loosely(v, _) => v,
            Met::Exactly(v, _) => v,
        };
        if v.n == n && v.eq {
            return true;
        }
    }
    false
}

/// Whether the variable may be bound to this type.
fn serves(names: &List<TypeName>, v: VarId, t: &Ty) -> bool
    ensures value { IsTrue result ↔ (IsTrue v.eq → AdmitsEquality names.now t.now) }
{
    !v.eq || admits_equality(names, t)
}

/// Whether a list of factors may be met after the others.
fn allows_list(
    alloc: Global,
    names: &List<TypeName>,
    v: VarId,
    fs: &List<Factor>,
    met: &[Met],
) -> Result<bool, NoMemory>
    requires good { AreGood names.now (meetings_of met.now) }
    ensures value { IfOk result (λ r. IsTrue r ↔ AreGood names.now (meetings_of met.now ++ loosely v fs.now ∷ [])) }
{
    if let Some(t) = exact_type(met, v.n) {
        if !serves(names, v, t) {
            return Ok(false);
        }
        let gs = linear(alloc, t)?;
        return agree(alloc, gs.as_slice(), fs.as_slice());
    }
    if let Some(gs) = loose_factors(met, v.n) {
        if !agree(alloc, gs.as_slice(), fs.as_slice())? {
            return Ok(false);
        }
        let t = reify(alloc, gs)?;
        return Ok(serves(names, v, &t));
    }
    let t = reify(alloc, fs)?;
    Ok(serves(names, v, &t))
}

/// Whether a type may be met after the others.
fn allows_type(
    alloc: Global,
    names: &List<TypeName>,
    v: VarId,
    t: &Ty,
    met: &[Met],
) -> Result<bool, NoMemory>
    requires good { AreGood names.now (meetings_of met.now) }
    ensures value { IfOk result (λ r. IsTrue r ↔ AreGood names.now (meetings_of met.now ++ exactly v t.now ∷ [])) }
{
    if let Some(u) = exact_type(met, v.n) {
        if !serves(names, v, u) {
            return Ok(false);
        }
        return Ok(same(u, t));
    }
    if !serves(names, v, t) {
        return Ok(false);
    }
    let Some(gs) = loose_factors(met, v.n) else {
        return Ok(true);
    };
    if wants_equality(met, v.n) && !admits_equality(names, t) {
        return Ok(false);
    }
    let fs = linear(alloc, t)?;
    agree(alloc, fs.as_slice(), gs.as_slice())
}

/// Whether the variable may take this list of factors; if so it is noted.
pub fn meet_list(
    alloc: Global,
    names: &List<TypeName>,
    v: VarId,
    fs: List<Factor>,
    met: &mut List<Met>,
) -> Result<bool, NoMemory>
    requires good { AreGood names.now (meetings_of met.old) }
    ensures grown { OnOk result (IsBefore met.old met.new) }
    ensures more { IfOk result (λ done. done ≡ true → Leads names.now met.old met.new (loosely v fs ∷ [])) }
    ensures none { IfOk result (λ done. done ≡ false
        → ¬ (AreGood names.now (meetings_of met.old ++ loosely v fs ∷ []))) }
{
    if !allows_list(alloc, names, v, &fs, met.as_slice())? {
        return Ok(false);
    }
    met.push(Met::Loosely(v, fs))?;
    Ok(true)
}

/// Whether the variable may stand for this type; if so it is noted.
fn meet_variable(
    alloc: Global,
    names: &List<TypeName>,
    v: VarId,
    t: &Ty,
    met: &mut List<Met>,
) -> Result<bool, NoMemory>
    requires good { AreGood names.now (meetings_of met.old) }
    ensures grown { OnOk result (IsBefore met.old met.new) }
    ensures more { IfOk result (λ done. done ≡ true → Leads names.now met.old met.new (exactly v t.now ∷ [])) }
    ensures none { IfOk result (λ done. done ≡ false
        → ¬ (AreGood names.now (meetings_of met.old ++ exactly v t.now ∷ []))) }
{
    if !allows_type(alloc, names, v, t, met.as_slice())? {
        return Ok(false);
    }
    met.push(Met::Exactly(v, copy(alloc, t)?))?;
    Ok(true)
}

/// Whether the pattern and the type are one but for the pattern's variables, and these may stand for what is in their
/// places; if so it is noted.
#[cycle(meet)]
pub fn meet_type(
    alloc: Global,
    names: &List<TypeName>,
    p: &Ty,
    t: &Ty,
    met: &mut List<Met>,
) -> Result<bool, NoMemory>
    requires good { AreGood names.now (meetings_of met.old) }
    ensures grown { OnOk result (IsBefore met.old met.new) }
    ensures more { IfOk result (λ done. done ≡ true → LeadsBy names.now met.old met.new (Meets (out-Ty p.now) t.now)) }
    ensures none { IfOk result (λ done. done ≡ false → LeadsNowhere names.now met.old (Meets (out-Ty p.now) t.now)) }
{
    match (p, t) {
        (Ty::Var(v), _) => meet_variable(alloc, names, *v, t, met),
        (Ty::Con(name, parts), Ty::Con(other, others)) => {
            if name.0 != other.0 {
                return Ok(false);
            }
            meet_each(alloc, names, parts.as_slice(), others.as_slice(), met)
        }
        (Ty::Rec(fields), Ty::Rec(others)) => {
            meet_fields(alloc, names, fields.as_slice(), others.as_slice(), met)
        }
        (Ty::Tup(parts), Ty::Tup(others)) => {
            meet_each(alloc, names, parts.as_slice(), others.as_slice(), met)
        }
        (Ty::Arrow(from, to), Ty::Arrow(other_from, other_to)) => {
            if !meet_type(alloc, names, from.get(), other_from.get(), met)? {
                return Ok(false);
            }
            meet_type(alloc, names, to.get(), other_to.get(), met)
        }
        _ => Ok(false),
    }
}

#[cycle(meet)]
fn meet_each(
    alloc: Global,
    names: &List<TypeName>,
    parts: &[Ty],
    others: &[Ty],
    met: &mut List<Met>,
) -> Result<bool, NoMemory>
    requires good { AreGood names.now (meetings_of met.old) }
    ensures grown { OnOk result (IsBefore met.old met.new) }
    ensures more { IfOk result (λ done. done ≡ true
        → LeadsBy names.now met.old met.new (MeetEach parts.now others.now)) }
    ensures none { IfOk result (λ done. done ≡ false → LeadsNowhere names.now met.old (MeetEach parts.now others.now)) }
{
    if parts.len() != others.len() {
        return Ok(false);
    }
    for i in 0..parts.len() {
        if !meet_type(alloc, names, &parts[i], &others[i], met)? {
            return Ok(false);
        }
    }
    Ok(true)
}

#[cycle(meet)]
fn meet_fields(
    alloc: Global,
    names: &List<TypeName>,
    fields: &[Field],
    others: &[Field],
    met: &mut List<Met>,
) -> Result<bool, NoMemory>
    requires good { AreGood names.now (meetings_of met.old) }
    ensures grown { OnOk result (IsBefore met.old met.new) }
    ensures more { IfOk result (λ done. done ≡ true
        → LeadsBy names.now met.old met.new (MeetFields fields.now others.now)) }
    ensures none { IfOk result (λ done. done ≡ false
        → LeadsNowhere names.now met.old (MeetFields fields.now others.now)) }
{
    if fields.len() != others.len() {
        return Ok(false);
    }
    for i in 0..fields.len() {
        let (field, other) = (&fields[i], &others[i]);
        if field.label.as_slice() != other.label.as_slice() {
            return Ok(false);
        }
        if !meet_type(alloc, names, &field.ty, &other.ty, met)? {
            return Ok(false);
        }
    }
    Ok(true)
}

/// What the variable of this number is bound to.
fn binding(alloc: Global, met: &[Met], n: u32) -> Result<Ty, NoMemory>
    ensures value { IfOk result (λ t. t ≡ meetings.binding (meetings_of met.now) n) }
{
    if let Some(t) = exact_type(met, n) {
        return copy(alloc, t);
    }
    if let Some(fs) = loose_factors(met, n) {
        return reify(alloc, fs);
    }
    Ok(Ty::Tup(Row::empty()))
}

/// What the variables of the numbers below `count` are bound to.
pub fn bindings(alloc: Global, met: &[Met], count: u32) -> Result<List<Ty>, NoMemory>
    ensures value { IfOk result (λ by. by ≡ meetings.bindings count (meetings_of met.now)) }
{
    let mut by = List::new(alloc);
    for n in 0..count {
        by.push(binding(alloc, met, n)?)?;
    }
    Ok(by)
}
