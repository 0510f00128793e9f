// The parts of a `where` (the Definition, rule 64).
ghost use Rattle.std.specs.Prelude.{◌≡◌, ◌++◌, ◌∷◌, [], ◌&&◌, ◌||◌, IfOk, IsTrue, OnOk, is_some, map, nat_le, not, slice_get};
ghost use Rattle.elab_env.specs.Avoids.{Avoids};
ghost use Rattle.elab_env.specs.Names.{arity_of, equality_at};
ghost use Rattle.elab_env.specs.Realizations.{resolved as resolved_by};
ghost use Rattle.elab_env.specs.Sound.{IsResolved};
ghost use Rattle.elab_env.specs.Table.{is_free};
ghost use Rattle.elab_rules.specs.Equality.{admits, is_never};
ghost use Rattle.elab_rules.specs.Outcome.{GivesWith};
ghost use Rattle.elab_rules.specs.Replacing.{denoted, type_with};
ghost use Rattle.elab_rules.specs.Standing.{AreOver, Grew, IsSettledType, Mentions, Sees, StandsFrom};
ghost use Rattle.elab_rules.specs.declared.progress.Progress.{Progress as TheProgress};
ghost use Rattle.elab_rules.specs.Views.{GivesBody, body_at, entries_at, site_at, state_of};
ghost use Rattle.elab_rules.specs.Wheres as spec;
ghost use Rattle.elab_rules.specs.Wheres.{part_applied, parts_applied, realized, realizing, types_of, value_types_of, within_limits};
ghost use Rattle.type_core.specs.Height.{height_of};
ghost use Rattle.type_core.specs.Lists.{all_true};
ghost use Rattle.type_core.specs.NormalSize.{normal_size_of};
ghost use Rattle.type_core.specs.Size.{size_of};
ghost use Rattle.type_core.specs.TypeFunctions.{IsTypeFn};
ghost use Rattle.type_core.specs.Types.{IsOver, IsType};

use crate::avoiding::avoids;
use elab_env::{NameTable, denoted_name};
use elab_phrases::equality::{admits, equality};
use elab_phrases::flexible::flexible;
use elab_phrases::look_ups::resolved;
use elab_phrases::settled_entries::entries_by_now;
use elab_phrases::typing::type_of;
use elab_rules::body::Body;
use elab_rules::entry::{Entry, TypeEntry};
use elab_rules::limits::{MAX_NODES, is_low, is_normal_small};
use elab_rules::long_identifiers::type_along;
use elab_rules::parameters::{check_parameters, variables_at};
use elab_rules::place::Place;
use elab_rules::progress::Progress;
use elab_rules::refusal::{ElabRefusal, Why};
use elab_rules::site::Site;
use elab_rules::variables::Variables;
use elab_types::as_number;
use sig_base::NoMemory;
use sig_parser::WherePart;
use std::alloc::Global;
use type_core::{Equality, NameId, Ty, TypeFn, is_type, is_type_fn};

// Whether a type constructor denotes the name by now and has constructors.
fn is_datatype_of(
    alloc: Global,
    name: NameId,
    entry: &TypeEntry,
    table: &NameTable,
) -> Result<bool, NoMemory>
    requires over { IsOver table.now.names entry.now.fun.body }
    ensures value { IfOk result (λ b. b ≡ spec.is_datatype_of name.0 (type_with (resolved_by table.now.realizations) entry.now)) }
{
    if entry.constructors.is_empty() {
        return Ok(false);
    }
    let fun = resolved(alloc, table, &entry.fun)?;
    match denoted_name(&fun) {
        Some(n) => Ok(n.0 == name.0),
        None => Ok(false),
    }
}

// Whether a type constructor of the entry denotes the name and has constructors.
#[cycle(constructed)]
fn has_constructors_in(
    alloc: Global,
    entry: &Entry,
    name: NameId,
    table: &NameTable,
) -> Result<bool, NoMemory>
    requires over { AreOver table.now.names (entry.now ∷ []) }
    ensures value { IfOk result (λ b. b ≡ spec.has_constructors name.0 (entries_at table.now (entry.now ∷ []))) }
{
    match entry {
        Entry::Tycon(entry) => is_datatype_of(alloc, name, entry, table),
        Entry::Value(_) => Ok(false),
        Entry::Structure(_, entries) => has_constructors(alloc, entries.as_slice(), name, table),
    }
}

// Whether a name has constructors: a type constructor of the entries denotes it and has them.
#[cycle(constructed)]
fn has_constructors(
    alloc: Global,
    entries: &[Entry],
    name: NameId,
    table: &NameTable,
) -> Result<bool, NoMemory>
    requires over { AreOver table.now.names entries.now }
    ensures value { IfOk result (λ b. b ≡ spec.has_constructors name.0 (entries_at table.now entries.now)) }
{
    for entry in entries {
        if has_constructors_in(alloc, entry, name, table)? {
            return Ok(true);
        }
    }
    Ok(false)
}

fn is_small_by_now(t: &Ty, table: &NameTable) -> bool
    requires over { IsOver table.now.names t.now }
    ensures value { result ≡ nat_le (size_of (resolved_by table.now.realizations t.now)) 2000 }
{
    table.resolved_size(t) <= MAX_NODES
}

// Whether all types of an entry have at most 2,000 nodes by now.
#[cycle(small)]
fn is_entry_small(entry: &Entry, table: &NameTable) -> bool
    requires over { AreOver table.now.names (entry.now ∷ []) }
    ensures value { result ≡ all_true (map (λ t. nat_le (size_of t) 2000) (types_of (entries_at table.now (entry.now ∷ [])))) }
{
    match entry {
        Entry::Tycon(entry) => is_small_by_now(&entry.fun.body, table),
        Entry::Value(entry) => is_small_by_now(&entry.scheme.body, table),
        Entry::Structure(_, entries) => are_small(entries.as_slice(), table),
    }
}

// Whether all types have at most 2,000 nodes by now.
#[cycle(small)]
fn are_small(entries: &[Entry], table: &NameTable) -> bool
    requires over { AreOver table.now.names entries.now }
    ensures value { result ≡ all_true (map (λ t. nat_le (size_of t) 2000) (types_of (entries_at table.now entries.now))) }
{
    for entry in entries {
        if !is_entry_small(entry, table) {
            return false;
        }
    }
    true
}

// Whether the height of all types of an entry is at most 200.
#[cycle(low)]
fn is_entry_low(entry: &Entry) -> bool
    ensures value { result ≡ all_true (map (λ t. nat_le (height_of t) 200) (types_of (entry.now ∷ []))) }
{
    match entry {
        Entry::Tycon(entry) => is_low(&entry.fun.body),
        Entry::Value(entry) => is_low(&entry.scheme.body),
        Entry::Structure(_, entries) => are_low(entries.as_slice()),
    }
}

// Whether the height of all types is at most 200.
#[cycle(low)]
fn are_low(entries: &[Entry]) -> bool
    ensures value { result ≡ all_true (map (λ t. nat_le (height_of t) 200) (types_of entries.now)) }
{
    for entry in entries {
        if !is_entry_low(entry) {
            return false;
        }
    }
    true
}

// Whether the normal forms of all values of an entry have at most 8,000 nodes.
#[cycle(normal)]
fn is_entry_normal(entry: &Entry) -> bool
    ensures value { result ≡ all_true (map (λ t. nat_le (normal_size_of t) 8000) (value_types_of (entry.now ∷ []))) }
{
    match entry {
        Entry::Tycon(_) => true,
        Entry::Value(entry) => is_normal_small(&entry.scheme.body),
        Entry::Structure(_, entries) => are_normal(entries.as_slice()),
    }
}

// Whether the normal forms of all values have at most 8,000 nodes.
#[cycle(normal)]
fn are_normal(entries: &[Entry]) -> bool
    ensures value { result ≡ all_true (map (λ t. nat_le (normal_size_of t) 8000) (value_types_of entries.now)) }
{
    for entry in entries {
        if !is_entry_normal(entry) {
            return false;
        }
    }
    true
}

// The body with what its types mean by now.
fn body_by_now(alloc: Global, body: Body, table: &NameTable) -> Result<Body, NoMemory>
    requires over { AreOver table.now.names body.entries.items }
    ensures value { IfOk result (λ settled. settled.entries.items ≡ entries_at table.now body.entries.items) }
{
    let Body { entries, index } = body;
    let entries = entries_by_now(alloc, entries.as_slice(), table)?;
    Ok(Body { entries, index })
}

// The body with what its types mean by now, within the limits; else these are refused at the token. The nodes
// are counted before a type is built.
fn limited_by_now(
    alloc: Global,
    token: u32,
    body: Body,
    table: &NameTable,
) -> Result<Body, ElabRefusal>
    requires over { AreOver table.now.names body.entries.items }
    ensures outcome { (progress : TheProgress) → progress.table ≡ table.now → GivesBody (within_limits token (entries_at table.now body.entries.items) (state_of progress)) result progress }
    ensures value { IfOk result (λ settled. settled.entries.items ≡ entries_at table.now body.entries.items) }
{
    if !are_small(body.entries.as_slice(), table) {
        return Err(ElabRefusal::Refused(Why::TypeTooLarge, token));
    }
    table.is_sound();
    let settled = body_by_now(alloc, body, table)?;
    if !are_low(settled.entries.as_slice()) {
        return Err(ElabRefusal::Refused(Why::TypeTooHigh, token));
    }
    if !are_normal(settled.entries.as_slice()) {
        return Err(ElabRefusal::Refused(Why::NormalTooLarge, token));
    }
    Ok(settled)
}

fn is_never(equality: Equality) -> bool
    ensures value { result ≡ is_never equality }
{
    matches!(equality, Equality::Never)
}

// Whether a name that has constructors may be realized by the type function: that has to be a name.
fn may_have_constructors(
    alloc: Global,
    name: NameId,
    fun: &TypeFn,
    entries: &[Entry],
    table: &NameTable,
) -> Result<bool, NoMemory>
    requires over { AreOver table.now.names entries.now }
    ensures value { IfOk result (λ b. b ≡ (not (spec.has_constructors name.0 (entries_at table.now entries.now)) || is_some (denoted fun.now))) }
{
    if denoted_name(fun).is_some() {
        return Ok(true);
    }
    Ok(!has_constructors(alloc, entries, name, table)?)
}

// Whether a name may be realized by the type function as far as equality goes: that admits it where the name does.
fn keeps_equality(name: NameId, fun: &TypeFn, table: &NameTable) -> bool
    ensures value { result ≡ (is_never (equality_at table.now.names name.0) || admits table.now.names fun.now.body) }
{
    is_never(equality(table, name)) || admits(&fun.body, table)
}

// Whether a free name may be realized by the type function: that has its parameters alone, its body is a type,
// and it doesn't mention the name. The right side of a part is such a function.
fn may_be_realized(name: NameId, fun: &TypeFn) -> bool
    ensures function { IsTrue result → IsTypeFn fun.now }
    ensures body { IsTrue result → IsType fun.now.body }
    ensures avoids { IsTrue result → Avoids name.0 fun.now.body }
{
    is_type_fn(fun) && is_type(&fun.body) && avoids(&fun.body, name)
}

// Puts a type function in the place of a free name. A function that may not stand there, as none is that a
// right side gives, is answered as want of memory.
fn replace(name: NameId, fun: TypeFn, table: &mut NameTable) -> Result<(), NoMemory>
    requires free { IsTrue (is_free table.old name.0) }
    requires arity { fun.arity ≡ arity_of (slice_get table.old.names name.0) }
    requires over { IsOver table.old.names fun.body }
    requires resolved { IsResolved table.old.realizations fun.body }
    ensures names { OnOk result (table.new.names ≡ table.old.names) }
    ensures realizations { OnOk result (table.new.realizations ≡ table.old.realizations ++ record { name = name; fun = fun } ∷ []) }
{
    if !may_be_realized(name, &fun) {
        return Err(NoMemory);
    }
    table.realize(name, fun)
}

// Realizes a flexible name of a body by a type function, where that may be.
fn realize(
    alloc: Global,
    name: NameId,
    fun: TypeFn,
    token: u32,
    env: Body,
    progress: &mut Progress,
) -> Result<Body, ElabRefusal>
    requires over { AreOver progress.old.table.names env.entries.items }
    requires settled { IsSettledType progress.old.table fun.body }
    requires free { IsTrue (is_free progress.old.table name.0) }
    ensures outcome { GivesBody (realized name.0 fun token (body_at progress.old env.entries.items) (state_of progress.old)) result progress.new }
    ensures value { IfOk result (λ body. body.entries.items ≡ entries_at progress.new.table env.entries.items) }
    ensures over { IfOk result (λ body. AreOver progress.new.table.names body.entries.items) }
    ensures names { OnOk result (progress.new.table.names ≡ progress.old.table.names) }
    ensures realizations { OnOk result (progress.new.table.realizations ≡ progress.old.table.realizations ++ record { name = name; fun = fun } ∷ []) }
    ensures firsts { OnOk result (progress.new.firsts ≡ progress.old.firsts) }
    ensures external { OnOk result (progress.new.external_weight ≡ progress.old.external_weight) }
{
    if fun.arity != progress.table.name(name).arity {
        return Err(ElabRefusal::Refused(Why::ArityClash, token));
    }
    let entries = env.entries.as_slice();
    if !may_have_constructors(alloc, name, &fun, entries, &progress.table)? {
        return Err(ElabRefusal::Refused(Why::BadRealization, token));
    }
    if !keeps_equality(name, &fun, &progress.table) {
        return Err(ElabRefusal::Refused(Why::NeedsEquality, token));
    }
    replace(name, fun, &mut progress.table)?;
    progress.table.is_sound();
    limited_by_now(alloc, token, env, &progress.table)
}

// The right side of a part, which sees what stands around the expression.
fn right_side(
    alloc: Global,
    site: &Site<'_>,
    part: &WherePart,
    progress: &mut Progress,
) -> Result<TypeFn, ElabRefusal>
    requires sees { Sees progress.old site.now [] }
    ensures outcome { GivesWith (realizing part.now (site_at progress.old site.now) (state_of progress.old)) result (state_of progress.new) }
    ensures settled { IfOk result (λ f. IsSettledType progress.new.table f.body) }
    ensures sees { OnOk result (Sees progress.new site.now []) }
    ensures mentions { OnOk result (Mentions progress.old progress.new) }
{
    let parameters = variables_at(alloc, &site.source, part.params.as_slice())?;
    let nothing = Body::new(alloc);
    let seen = nothing.scope();
    let place = Place {
        site: *site,
        own: seen,
        first: part.ty.first,
        variables: Variables::Parameters(false, parameters.as_slice()),
    };
    let arity = as_number(parameters.len())?;
    let body = type_of(alloc, &part.ty.ty, &place, progress)?;
    Ok(TypeFn { arity, body })
}

// What the expression before a part gives, which began with so many names, with the part applied.
fn apply_part(
    alloc: Global,
    site: &Site<'_>,
    part: &WherePart,
    base: u32,
    env: Body,
    progress: &mut Progress,
) -> Result<Body, ElabRefusal>
    requires stands { StandsFrom base progress.old site.now env.entries.items }
    ensures outcome { GivesBody (part_applied part.now base (site_at progress.old site.now) (body_at progress.old env.entries.items) (state_of progress.old)) result progress.new }
    ensures stands { IfOk result (λ body. StandsFrom base progress.new site.now body.entries.items) }
    ensures grew { OnOk result (Grew base progress.old progress.new) }
{
    check_parameters(alloc, &site.source, part.params.as_slice())?;
    let Some(found) = type_along(site.source.text(part.tycon), env.scope()) else {
        return Err(ElabRefusal::Refused(Why::Unbound, part.tycon));
    };
    let fun = right_side(alloc, site, part, progress)?;
    match flexible(alloc, base, &found.entry.fun, progress)? {
        None => Err(ElabRefusal::Refused(Why::NotFlexible, part.at)),
        Some(name) => realize(alloc, name, fun, part.at, env, progress),
    }
}

/// What the expression before a `where` gives, which began with so many names, with the parts applied in
/// order. After each of them its types are put down as what they mean by now, so that what a realization
/// drops isn't kept, and no realization stands on another.
pub fn apply_parts(
    alloc: Global,
    site: &Site<'_>,
    parts: &[WherePart],
    base: u32,
    env: Body,
    progress: &mut Progress,
) -> Result<Body, ElabRefusal>
    requires stands { StandsFrom base progress.old site.now env.entries.items }
    ensures outcome { GivesBody (parts_applied parts.now base (site_at progress.old site.now) (body_at progress.old env.entries.items) (state_of progress.old)) result progress.new }
    ensures stands { IfOk result (λ body. StandsFrom base progress.new site.now body.entries.items) }
    ensures grew { OnOk result (Grew base progress.old progress.new) }
{
    let mut body = env;
    for part in parts {
        progress.table.is_sound();
        body = apply_part(alloc, site, part, base, body, progress)?;
    }
    Ok(body)
}
