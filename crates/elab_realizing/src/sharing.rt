// Sharing specifications (the Definition, rules 78 and following, and appendix A).
ghost use Rattle.std.specs.Prelude.{◌≡◌, ◌++◌, ◌∷◌, [], ℕ, IfOk, IsTrue, List, OnOk, Some, drop, length, map, slice_get, ◌≤◌};
ghost use Rattle.std.specs.List.{All, Any};
ghost use Rattle.elab_env.specs.Names.{arity_of};
ghost use Rattle.elab_env.specs.Realizations.{function_resolved};
ghost use Rattle.elab_env.specs.Table.{is_free};
ghost use Rattle.elab_rules.specs.declared.entry.Entry.{Entry as AnEntry};
ghost use Rattle.elab_rules.specs.Bodies as bodies;
ghost use Rattle.elab_rules.specs.Distinct.{AreDistinct};
ghost use Rattle.elab_rules.specs.Environments.{Environment};
ghost use Rattle.sig_base.specs.LongIdentifiers.{parts};
ghost use Rattle.elab_rules.specs.LongIdentifiers.{structure_along as the_structure_along};
ghost use Rattle.elab_rules.specs.Sharing as spec;
ghost use Rattle.elab_rules.specs.Sharing.{entries_of, entry_paths, first_shared, functions_shared, joined, least_of, paths_from, paths_shared, same_function, shared, structures_found, types_shared};
ghost use Rattle.elab_types.specs.Sources.{text_at};
ghost use Rattle.elab_realizing.specs.InTurn.{joined_in_turn};
ghost use Rattle.elab_realizing.specs.SharedStructures.{AreShared, AreThere};
ghost use Rattle.elab_rules.specs.Joining.{ArePlacedAt, IsEntryAlong, IsJoined};
ghost use Rattle.elab_rules.specs.Standing.{Grew, Stands, AreOver};
ghost use Rattle.elab_rules.specs.Views.{AgreesBody, GivesName, GivesNames, Passes, body_at, numbers, site_at, site_of, state_of};
ghost use Rattle.elab_types.specs.Views.{texts};
ghost use Rattle.type_core.specs.Types.{IsOver};

use elab_env::NameTable;
use elab_phrases::flexible::{flexible, flexible_name};
use elab_phrases::look_ups::resolved;
use elab_rules::entry::Entry;
use elab_rules::long_identifiers::{structure_along, type_along};
use elab_rules::progress::Progress;
use elab_rules::refusal::{ElabRefusal, Why};
use elab_rules::scope::Scope;
use elab_rules::site::Site;
use sig_base::{List, NoMemory};
use std::alloc::Global;
use type_core::{NameId, TypeFn, same};

// The arity of a name; 0 where there is no such name.
fn arity(table: &NameTable, name: NameId) -> u32
    ensures value { result ≡ arity_of (slice_get table.now.names name.0) }
{
    if name.0 < table.len() {
        table.name(name).arity
    } else {
        0
    }
}

// The least of the numbers, of which the first is given.
fn least(first: NameId, others: &[NameId]) -> NameId
    ensures value { result.0 ≡ least_of first.0 (numbers others.now) }
{
    let mut least = first;
    for n in others {
        least = NameId(least.0.min(n.0));
    }
    least
}

// Joins a name to a free one that is no greater and has its arity, unless it is that name or isn't free any more.
fn join_one(kept: NameId, n: NameId, table: &mut NameTable) -> Result<(), NoMemory>
    requires kept { IsTrue (is_free table.old kept.0) }
    requires least { kept.0 ≤ n.0 }
    requires arity { arity_of (slice_get table.old.names n.0) ≡ arity_of (slice_get table.old.names kept.0) }
    ensures joined { OnOk result (IsJoined kept.0 n.0 table.old table.new) }
{
    if n.0 == kept.0 {
        return Ok(());
    }
    if !table.is_free(n) {
        return Ok(());
    }
    table.join(kept, n)
}

// Joins the names: the least of them takes the place of the others.
fn join(first: NameId, others: &[NameId], progress: &mut Progress) -> Result<(), NoMemory>
    requires free { All (λ n. IsTrue (is_free progress.old.table n.0)) (first ∷ others.now) }
    requires arity { All (λ n. arity_of (slice_get progress.old.table.names n.0) ≡ arity_of (slice_get progress.old.table.names first.0)) others.now }
    ensures grew { OnOk result ((base : ℕ) → All (λ n. base ≤ n.0) (first ∷ others.now) → Grew base progress.old progress.new) }
    ensures turns { OnOk result (progress.new.table ≡ joined_in_turn (least_of first.0 (numbers others.now)) (first.0 ∷ numbers others.now) progress.old.table) }
    ensures joined { OnOk result ((entries : List AnEntry) → AreOver progress.old.table.names entries → (body_at progress.new entries, state_of progress.new) ≡ joined (first.0 ∷ numbers others.now) (body_at progress.old entries) (state_of progress.old)) }
{
    progress.table.is_sound();
    let kept = least(first, others);
    join_one(kept, first, &mut progress.table)?;
    for n in others {
        join_one(kept, *n, &mut progress.table)?;
    }
    Ok(())
}

// The flexible name of the type constructor at a token, which stands in the body.
fn flexible_at(
    alloc: Global,
    token: u32,
    site: &Site<'_>,
    own: Scope<'_>,
    progress: &Progress,
) -> Result<NameId, ElabRefusal>
    requires stands { Stands progress.now site.now own.entries.now }
    ensures outcome { GivesName (spec.flexible_at token (site_at progress.now site.now) (body_at progress.now own.entry.entries.now) (state_of progress.now)) result }
    ensures free { IfOk result (λ n. (IsTrue (is_free progress.now.table n.0)) × (site.now.base ≤ n.0)) }
{
    let Some(found) = type_along(site.source.text(token), own) else {
        return Err(ElabRefusal::Refused(Why::Unbound, token));
    };
    match flexible(alloc, site.base, &found.entry.fun, progress)? {
        None => Err(ElabRefusal::Refused(Why::NotFlexible, token)),
        Some(name) => Ok(name),
    }
}

// The same of further constructors, which have to have the first one's arity.
fn others_flexible(
    alloc: Global,
    first: NameId,
    tokens: &[u32],
    site: &Site<'_>,
    own: Scope<'_>,
    progress: &Progress,
) -> Result<List<NameId>, ElabRefusal>
    requires stands { Stands progress.now site.now own.entries.now }
    ensures outcome { GivesNames (spec.others_flexible (arity_of (slice_get progress.now.table.names first.0)) tokens.now (site_at progress.now site.now) (body_at progress.now own.entry.entries.now) (state_of progress.now)) result }
    ensures free { IfOk result (λ ns. All (λ n. (IsTrue (is_free progress.now.table n.0)) × (site.now.base ≤ n.0)) ns) }
    ensures arity { IfOk result (λ ns. All (λ n. arity_of (slice_get progress.now.table.names n.0) ≡ arity_of (slice_get progress.now.table.names first.0)) ns) }
{
    let mut names = List::new(alloc);
    for token in tokens {
        let name = flexible_at(alloc, *token, site, own, progress)?;
        if arity(&progress.table, name) != arity(&progress.table, first) {
            return Err(ElabRefusal::Refused(Why::ArityClash, *token));
        }
        names.push(name)?;
    }
    Ok(names)
}

/// `sharing type`: the names of the constructors are joined.
pub fn share_types(
    alloc: Global,
    site: &Site<'_>,
    tokens: &[u32],
    own: Scope<'_>,
    progress: &mut Progress,
) -> Result<(), ElabRefusal>
    requires stands { Stands progress.old site.now own.entries.now }
    ensures outcome { AgreesBody (types_shared tokens.now (site_at progress.old site.now) (body_at progress.old own.entry.entries.now) (state_of progress.old)) result own.entry.entries.now progress.new }
    ensures stands { OnOk result (Stands progress.new site.now own.entry.entries.now) }
    ensures grew { OnOk result (Grew site.now.base progress.old progress.new) }
{
    let [token, others @ ..] = tokens else {
        return Ok(());
    };
    let first = flexible_at(alloc, *token, site, own, progress)?;
    let names = others_flexible(alloc, first, others, site, own, progress)?;
    join(first, names.as_slice(), progress)?;
    Ok(())
}

// Whether two type functions are one.
fn is_same_function(f: &TypeFn, g: &TypeFn) -> bool
    ensures value { result ≡ same_function f.now g.now }
{
    f.arity == g.arity && same(&f.body, &g.body)
}

// Makes two type functions one: they are the same by now, or both are flexible names.
fn share_functions(
    alloc: Global,
    base: u32,
    f: &TypeFn,
    g: &TypeFn,
    token: u32,
    progress: &mut Progress,
) -> Result<(), ElabRefusal>
    requires over { IsOver progress.old.table.names f.now.body × IsOver progress.old.table.names g.now.body }
    ensures same { OnOk result (function_resolved progress.new.table.realizations f.now ≡ function_resolved progress.new.table.realizations g.now) }
    ensures outcome { (site : bodies.Site) (entries : List AnEntry) → site.base ≡ base → AreOver progress.old.table.names entries → AgreesBody (functions_shared (function_resolved progress.old.table.realizations f.now) (function_resolved progress.old.table.realizations g.now) token site (body_at progress.old entries) (state_of progress.old)) result entries progress.new }
    ensures grew { OnOk result (Grew base progress.old progress.new) }
{
    let f = resolved(alloc, &progress.table, f)?;
    let g = resolved(alloc, &progress.table, g)?;
    if is_same_function(&f, &g) {
        return Ok(());
    }
    let Some(n) = flexible_name(base, &f, progress) else {
        return Err(ElabRefusal::Refused(Why::NotFlexible, token));
    };
    let Some(m) = flexible_name(base, &g, progress) else {
        return Err(ElabRefusal::Refused(Why::NotFlexible, token));
    };
    if arity(&progress.table, n) != arity(&progress.table, m) {
        return Err(ElabRefusal::Refused(Why::ArityClash, token));
    }
    join(n, &[m], progress)?;
    Ok(())
}

// Shares what the entry has with what the other environment has of the same path.
#[cycle(sharing)]
fn share_entry(
    alloc: Global,
    entry: &Entry,
    other: Scope<'_>,
    base: u32,
    token: u32,
    progress: &mut Progress,
) -> Result<(), ElabRefusal>
    requires over { AreOver progress.old.table.names (entry.now ∷ []) }
    requires other_over { AreOver progress.old.table.names other.entries.now }
    ensures grew { OnOk result (Grew base progress.old progress.new) }
    ensures same { OnOk result (AreShared progress.new.table.realizations (entry.now ∷ []) other.entry.entries.now) }
    ensures outcome { (whole : Environment) (a b path : List (List ℕ)) (site : bodies.Site) → site.base ≡ base → AreDistinct whole → AreOver progress.old.table.names whole
        → IsEntryAlong (a ++ path) entry.now whole → the_structure_along (b ++ path) whole ≡ Some other.entry.entries.now
        → AgreesBody (paths_shared a b token (entry_paths entry.now path) site (body_at progress.old whole) (state_of progress.old)) result whole progress.new }
{
    match entry {
        Entry::Tycon(entry) => match other.find_type(entry.id.as_slice()) {
            None => Ok(()),
            Some(found) => share_functions(alloc, base, &entry.fun, &found.fun, token, progress),
        },
        Entry::Value(_) => Ok(()),
        Entry::Structure(id, entries) => match other.find_structure(id.as_slice()) {
            None => Ok(()),
            Some(inner) => share_all(alloc, entries.as_slice(), inner, base, token, progress),
        },
    }
}

// Shares each type constructor of the entries with that of the same path in the other environment, where
// there is one.
#[cycle(sharing)]
fn share_all(
    alloc: Global,
    entries: &[Entry],
    other: Scope<'_>,
    base: u32,
    token: u32,
    progress: &mut Progress,
) -> Result<(), ElabRefusal>
    requires over { AreOver progress.old.table.names entries.now }
    requires other_over { AreOver progress.old.table.names other.entries.now }
    ensures grew { OnOk result (Grew base progress.old progress.new) }
    ensures same { OnOk result (AreShared progress.new.table.realizations entries.now other.entry.entries.now) }
    ensures outcome { (whole : Environment) (a b path : List (List ℕ)) (site : bodies.Site) → site.base ≡ base → AreDistinct whole → AreOver progress.old.table.names whole
        → the_structure_along (a ++ path) whole ≡ Some entries.now → the_structure_along (b ++ path) whole ≡ Some other.entry.entries.now
        → AgreesBody (paths_shared a b token (paths_from path entries.now) site (body_at progress.old whole) (state_of progress.old)) result whole progress.new }
{
    for entry in entries {
        share_entry(alloc, entry, other, base, token, progress)?;
    }
    Ok(())
}

// The structures at these tokens, each of which stands in the body.
fn structures_at<'a>(
    alloc: Global,
    tokens: &[u32],
    site: &Site<'_>,
    own: Scope<'a>,
) -> Result<List<Scope<'a>>, ElabRefusal>
    ensures outcome { Passes (structures_found tokens.now (site_of site.now) own.entry.entries.now) result }
    ensures found { IfOk result (λ found. map (λ scope. scope.entries.now) found ≡ map (λ token. entries_of (the_structure_along (parts (text_at (texts site.now.source) token)) own.entry.entries.now)) tokens.now) }
{
    let mut found = List::new(alloc);
    for token in tokens {
        match structure_along(site.source.text(*token), own) {
            None => return Err(ElabRefusal::Refused(Why::Unbound, *token)),
            Some(structure) => found.push(structure)?,
        }
    }
    Ok(found)
}

// Shares the structure at a token with each of those at later tokens.
fn share_first(
    alloc: Global,
    first: Scope<'_>,
    others: &[Scope<'_>],
    tokens: &[u32],
    base: u32,
    progress: &mut Progress,
) -> Result<(), ElabRefusal>
    requires over { AreOver progress.old.table.names first.entries.now }
    requires others_over { All (λ scope. AreOver progress.old.table.names scope.entries.now) others.now }
    requires long { length others.now ≡ length tokens.now }
    ensures grew { OnOk result (Grew base progress.old progress.new) }
    ensures same { OnOk result (All (λ scope. AreShared progress.new.table.realizations first.entry.entries.now scope.entries.now) others.now) }
    ensures outcome { (whole : Environment) (i : ℕ) (site : bodies.Site) → site.base ≡ base → AreDistinct whole → AreOver progress.old.table.names whole
        → ArePlacedAt site whole (i ∷ tokens.now) (first.entry ∷ others.now)
        → AgreesBody (first_shared i tokens.now site (body_at progress.old whole) (state_of progress.old)) result whole progress.new }
{
    for (j, other) in others.iter().enumerate() {
        share_all(alloc, first.entries, *other, base, tokens[j], progress)?;
    }
    Ok(())
}

// Whether the other environment has what the entry has of type constructors, by their paths.
#[cycle(having)]
fn has_entry(entry: &Entry, other: Scope<'_>) -> bool
    ensures there { IsTrue result → AreThere (entry.now ∷ []) other.entry.entries.now }
{
    match entry {
        Entry::Tycon(entry) => other.find_type(entry.id.as_slice()).is_some(),
        Entry::Value(_) => true,
        Entry::Structure(id, entries) => match other.find_structure(id.as_slice()) {
            None => false,
            Some(inner) => has_all(entries.as_slice(), inner),
        },
    }
}

// Whether the other environment has each type constructor of the entries, by their paths.
#[cycle(having)]
fn has_all(entries: &[Entry], other: Scope<'_>) -> bool
    ensures there { IsTrue result → AreThere entries.now other.entry.entries.now }
{
    for entry in entries {
        if !has_entry(entry, other) {
            return false;
        }
    }
    true
}

// Whether one of the structures has each type constructor of the entries, by their paths.
fn one_has_all(entries: &[Entry], structures: &[Scope<'_>]) -> bool
    ensures there { IsTrue result → Any (λ scope. AreThere entries.now scope.entries.now) structures.now }
{
    for structure in structures {
        if has_all(entries, *structure) {
            return true;
        }
    }
    false
}

/// `sharing` of structures: each pair of them in lexicographic order. A structure is passed over where an earlier one
/// that was shared with all later ones has each of its type constructors, since nothing is left to share then.
pub fn share_structures(
    alloc: Global,
    site: &Site<'_>,
    tokens: &[u32],
    own: Scope<'_>,
    progress: &mut Progress,
) -> Result<(), ElabRefusal>
    requires stands { Stands progress.old site.now own.entries.now }
    requires distinct { AreDistinct own.entries.now }
    ensures outcome { AgreesBody (shared tokens.now (site_at progress.old site.now) (body_at progress.old own.entry.entries.now) (state_of progress.old)) result own.entry.entries.now progress.new }
    ensures stands { OnOk result (Stands progress.new site.now own.entry.entries.now) }
    ensures grew { OnOk result (Grew site.now.base progress.old progress.new) }
{
    let found = structures_at(alloc, tokens, site, own)?;
    let found = found.as_slice();
    let mut shared = List::new(alloc);
    for (i, first) in found.iter().enumerate() {
        if one_has_all(first.entries, shared.as_slice()) {
            continue;
        }
        let others = &found[i + 1..];
        share_first(alloc, *first, others, &tokens[i + 1..], site.base, progress)?;
        shared.push(*first)?;
    }
    Ok(())
}
