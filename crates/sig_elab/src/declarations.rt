// Top declarations (the Definition, rules 65 to 68 and 82 and following).
ghost use Rattle.std.specs.Prelude.{◌≡◌, ◌≤◌, ◌++◌, [], ℕ, List, bytes_eq, is_some, length, map, not, take, IfOk, OnOk};
ghost use Rattle.sig_elab.specs.Declarations.{declared_ids};
ghost use Rattle.elab_rules.specs.Details.{HasOwn, IsDetail};
ghost use Rattle.sig_elab.specs.Elaborators.{GivesBasis, basis_of};
ghost use Rattle.elab_rules.specs.Files.{all_bound, all_declared, bindings_declared, bound, declared, identifiers_checked, is_new_unit, top_site, unit_made};
ghost use Rattle.elab_types.specs.Finding.{none_of};
ghost use Rattle.elab_rules.specs.InitialEnvironment.{initial_environment};
ghost use Rattle.elab_types.specs.Places.{place_at};
ghost use Rattle.elab_types.specs.Sources.{text_at};
ghost use Rattle.elab_rules.specs.Specifications.{binding_of};
ghost use Rattle.sig_elab.specs.Kept.{AreKept};
ghost use Rattle.elab_rules.specs.Standing.{AreOver, Grew, IsSettled};
ghost use Rattle.elab_rules.specs.Views.{GivesBody, Passes, body_at, state_of, units_seen};
ghost use Rattle.elab_types.specs.Views.{texts};

use crate::declaration::Declaration;
use crate::draft::Draft;
use crate::specifications::elaborate;
use elab_phrases::settled_entries::entries_by_now;
use elab_rules::body::Body;
use elab_rules::detail::Detail;
use elab_rules::entry::UnitEntry;
use elab_rules::own_names::OwnNames;
use elab_rules::progress::Progress;
use elab_rules::refusal::{ElabRefusal, Why};
use elab_rules::scope::Scope;
use elab_rules::site::Site;
use elab_rules::tops::Tops;
use elab_rules::units::Units;
use elab_types::{Places, Source};
use sig_base::{List, NoMemory, Text};
use sig_parser::{Bind, TopDec};
use std::alloc::Global;
use type_core::UnitKind;

// The units of the files before, and those of this file so far.
#[derive(Drop)]
struct Declared<'a> {
    before: &'a Units,
    added: Units,
}

// The top identifiers of the files before, and so many of this one.
fn tops_of<'a>(units: &'a Declared<'_>, count: usize) -> Tops<'a>
    requires within { count ≤ length units.now.added.entries.items }
    ensures value { units_seen result ≡ units.now.before.now.entries.items ++ take count units.now.added.entries.items }
    ensures before { result.before.now ≡ units.now.before.now }
    ensures added { result.added.now ≡ units.now.added }
{
    Tops {
        before: units.before,
        added: &units.added,
        count,
    }
}

// Whether one of the units so far has the identifier.
fn is_declared(draft: &Draft<'_>, id: &[u8]) -> bool
    ensures value { result ≡ not (is_new_unit id.now (basis_of draft.now).units) }
{
    draft.before.has(id, draft.before.len()) || draft.added.has(id, draft.added.len())
}

// The identifiers of a declaration: each is new, and was no first part of an external name; else it is
// refused.
fn check_identifiers(
    alloc: Global,
    source: &Source<'_>,
    binds: &[Bind],
    draft: &Draft<'_>,
) -> Result<Places, ElabRefusal>
    ensures outcome { Passes (identifiers_checked (texts source.now) (basis_of draft.now) [] (map binding_of binds.now)) result }
    ensures identifiers { IfOk result (λ seen. (id : List ℕ) → is_some (place_at seen id) ≡ not (none_of (λ bind. bytes_eq id (text_at (texts source.now) bind.id)) binds.now)) }
{
    let mut seen = Places::new(alloc);
    for bind in binds {
        let id = source.text(bind.id);
        if is_declared(draft, id) || seen.has(id) {
            return Err(ElabRefusal::Refused(Why::Duplicate, bind.id));
        }
        if draft.progress.firsts.has(id) {
            return Err(ElabRefusal::Refused(Why::LateUnit, bind.id));
        }
        seen.insert(alloc, id, 0)?;
    }
    Ok(seen)
}

// The unit that a binding makes of what its signature expression describes, with what is kept beside it.
fn unit_of(
    alloc: Global,
    kind: UnitKind,
    id: &[u8],
    body: Body,
    first: u32,
    progress: &Progress,
) -> Result<(UnitEntry, Detail), NoMemory>
    requires over { AreOver progress.now.table.names body.entries.items }
    requires first { first ≤ length progress.now.table.names }
    ensures unit { IfOk result (λ r. r.0 ≡ unit_made kind id.now (body_at progress.now body.entries.items) first (length progress.now.table.names)) }
    ensures detail { IfOk result (λ r. IsDetail r.1 r.0) }
    ensures own { IfOk result (λ r. HasOwn (state_of progress.now) r.1 r.0) }
    ensures settled { IfOk result (λ r. IsSettled progress.now.table r.0.entries) }
{
    progress.table.is_sound();
    let Body { entries, index } = body;
    let count = progress.table.len().saturating_sub(first);
    let unit = UnitEntry {
        kind,
        id: Text::from_slice(alloc, id)?,
        entries: List::from_vec(entries_by_now(alloc, entries.as_slice(), &progress.table)?),
        first_name: first,
        name_count: count,
    };
    let own = OwnNames::among(alloc, progress, first, count)?;
    Ok((unit, Detail { index, own }))
}

// Nothing stands around a top signature expression.
fn nothing_around<'a>() -> &'a [Scope<'a>]
    ensures empty { result.now ≡ [] }
{
    &[]
}

// What the right side of a binding describes, which sees the top identifiers before the declaration.
fn right_side<'a>(
    alloc: Global,
    declaration: &'a Declaration<'a>,
    bind: &Bind,
    tops: Tops<'a>,
    progress: &mut Progress,
) -> Result<Body, ElabRefusal>
    requires before_kept { AreKept tops.before.now progress.old }
    requires added_kept { AreKept tops.added.now progress.old }
    ensures outcome { GivesBody ((binding_of bind.now).1.elaborated (top_site (texts declaration.now.source) (units_seen tops.entry) (declared_ids declaration.now) (text_at (texts declaration.now.source) bind.now.id)) (state_of progress.old)) result progress.new }
    ensures over { IfOk result (λ body. AreOver progress.new.table.names body.entries.items) }
    ensures grew { OnOk result (Grew (length progress.old.table.names) progress.old progress.new) }
    ensures before_kept { OnOk result (AreKept tops.entry.before.now progress.new) }
    ensures added_kept { OnOk result (AreKept tops.entry.added.now progress.new) }
{
    let site = Site {
        source: declaration.source,
        path: declaration.source.text(bind.id),
        around: nothing_around(),
        base: 0,
        tops,
        binds: declaration.binds,
        declaring: declaration.declaring,
        initial: declaration.initial,
    };
    progress.table.is_sound();
    elaborate(alloc, &bind.rhs, &site, progress)
}

// The basis after a binding.
fn bind_one<'a>(
    alloc: Global,
    declaration: &Declaration<'_>,
    bind: &Bind,
    draft: Draft<'a>,
) -> Result<Draft<'a>, ElabRefusal>
    requires within { declaration.now.count ≤ length draft.added.entries.items }
    ensures outcome { GivesBasis (bound declaration.now.kind (texts declaration.now.source) (draft.entry.before.now.entries.items ++ take declaration.now.count draft.entry.added.entries.items) (declared_ids declaration.now) (binding_of bind.now) (basis_of draft.entry)) result }
    ensures before { IfOk result (λ after. after.before.now ≡ draft.entry.before.now) }
{
    let Draft {
        before,
        added,
        mut progress,
        totals,
    } = draft;
    let id = declaration.source.text(bind.id);
    let first = progress.table.len();
    let units = Declared { before, added };
    let tops = tops_of(&units, declaration.count);
    let body = right_side(alloc, &*declaration, bind, tops, &mut progress)?;
    progress.weigh((id.len() as u64).saturating_add(1), bind.id)?;
    let (unit, detail) = unit_of(alloc, declaration.kind, id, body, first, &progress)?;
    let totals = totals.with_unit(alloc, &unit)?;
    totals.check(&progress, bind.id)?;
    let Declared { before, added } = units;
    let added = added.with(alloc, unit, detail)?;
    Ok(Draft {
        before,
        added,
        progress,
        totals,
    })
}

// The basis after the bindings of a declaration.
fn bind_all<'a>(
    alloc: Global,
    declaration: &Declaration<'_>,
    draft: Draft<'a>,
) -> Result<Draft<'a>, ElabRefusal>
    requires within { declaration.now.count ≤ length draft.added.entries.items }
    ensures outcome { GivesBasis (all_bound declaration.now.kind (texts declaration.now.source) (draft.entry.before.now.entries.items ++ take declaration.now.count draft.entry.added.entries.items) (declared_ids declaration.now) (map binding_of declaration.now.binds.now) (basis_of draft.entry)) result }
    ensures before { IfOk result (λ after. after.before.now ≡ draft.entry.before.now) }
{
    let mut draft = draft;
    for bind in declaration.binds {
        draft = bind_one(alloc, declaration, bind, draft)?;
    }
    Ok(draft)
}

// The basis after the bindings of a declaration: first all identifiers are looked at.
fn declare_bindings<'a>(
    alloc: Global,
    source: &Source<'_>,
    initial: Scope<'_>,
    kind: UnitKind,
    binds: &[Bind],
    draft: Draft<'a>,
) -> Result<Draft<'a>, ElabRefusal>
    requires initial { initial.entries.now ≡ initial_environment }
    ensures outcome { GivesBasis (bindings_declared kind (texts source.now) (map binding_of binds.now) (basis_of draft.entry)) result }
    ensures before { IfOk result (λ after. after.before.now ≡ draft.entry.before.now) }
{
    let declaring = check_identifiers(alloc, source, binds, &draft)?;
    let declaration = Declaration {
        source: *source,
        kind,
        binds,
        declaring: &declaring,
        count: draft.added.len(),
        initial,
    };
    bind_all(alloc, &declaration, draft)
}

// The basis after a declaration.
fn declare<'a>(
    alloc: Global,
    source: &Source<'_>,
    initial: Scope<'_>,
    dec: &TopDec,
    draft: Draft<'a>,
) -> Result<Draft<'a>, ElabRefusal>
    requires initial { initial.entries.now ≡ initial_environment }
    ensures outcome { GivesBasis (declared (texts source.now) dec.now (basis_of draft.entry)) result }
    ensures before { IfOk result (λ after. after.before.now ≡ draft.entry.before.now) }
{
    match dec {
        TopDec::Signature(binds) => {
            declare_bindings(
                alloc,
                source,
                initial,
                UnitKind::Sig,
                binds.as_slice(),
                draft,
            )
        }
        TopDec::Structure(binds) => {
            declare_bindings(
                alloc,
                source,
                initial,
                UnitKind::Str,
                binds.as_slice(),
                draft,
            )
        }
    }
}

/// The basis after the declarations of a file.
pub fn declare_all<'a>(
    alloc: Global,
    source: &Source<'_>,
    initial: Scope<'_>,
    decs: &[TopDec],
    draft: Draft<'a>,
) -> Result<Draft<'a>, ElabRefusal>
    requires initial { initial.entries.now ≡ initial_environment }
    ensures outcome { GivesBasis (all_declared (texts source.now) decs.now (basis_of draft.entry)) result }
    ensures before { IfOk result (λ after. after.before.now ≡ draft.entry.before.now) }
{
    let mut draft = draft;
    for dec in decs {
        draft = declare(alloc, source, initial, dec, draft)?;
    }
    Ok(draft)
}
