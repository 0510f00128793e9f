// Specifications, bodies and signature expressions (the Definition, rules 61 to 81).
ghost use Rattle.std.specs.Prelude.{◌≡◌, ◌++◌, ◌∷◌, [], length, map, take, IfOk, OnOk};
ghost use Rattle.elab_rules.specs.Bodies.{in_turn, site_from as the_site_from, site_within};
ghost use Rattle.elab_rules.specs.Specifications.{are_new, binding_of, included, signature_of, specified, structure_described, structures_described, base_of};
ghost use Rattle.elab_rules.specs.Standing.{Begins, Grew, Stands, StandsFrom};
ghost use Rattle.elab_rules.specs.declared.entry.Entry.{Entry as AnEntry};
ghost use Rattle.elab_rules.specs.Views.{GivesBody, body_at, site_at, site_of, state_of};

use crate::copies::named_signature;
use elab_phrases::adding::add_structure;
use elab_phrases::constructors::describe_exceptions;
use elab_phrases::datatypes::describe_datatypes;
use elab_phrases::replicas::describe_replica;
use elab_phrases::type_descriptions::describe_types;
use elab_phrases::values::describe_values;
use elab_realizing::sharing::{share_structures, share_types};
use elab_realizing::wheres::apply_parts;
use elab_rules::body::Body;
use elab_rules::entry::Entry;
use elab_rules::naming::within;
use elab_rules::progress::Progress;
use elab_rules::refusal::{ElabRefusal, Why};
use elab_rules::scope::Scope;
use elab_rules::site::Site;
use sig_base::{List, NoMemory};
use sig_parser::{Bind, SigBase, SigExp, Spec};
use std::alloc::Global;
use type_core::Equality;

// The bodies around what stands in a body that is seen so far.
fn around_within<'a>(
    alloc: Global,
    site: &Site<'a>,
    own: Scope<'a>,
) -> Result<List<Scope<'a>>, NoMemory>
    ensures value { IfOk result (λ around. around ≡ site.now.around.now ++ own.entry ∷ []) }
{
    let mut around = List::new(alloc);
    for scope in site.around {
        around.push(*scope)?;
    }
    around.push(own)?;
    Ok(around)
}

// The site of a body that begins with so many names.
fn site_from<'a>(site: &Site<'a>, base: u32) -> Site<'a>
    ensures value { site_of result ≡ the_site_from base (site_of site.now) }
    ensures tops { result.tops ≡ site.now.tops }
{
    Site {
        source: site.source,
        path: site.path,
        around: site.around,
        base,
        tops: site.tops,
        binds: site.binds,
        declaring: site.declaring,
        initial: site.initial,
    }
}

// Whether all entries are new in a body.
fn are_new(entries: &[Entry], own: Scope<'_>) -> bool
    ensures value { result ≡ are_new entries.now own.entry.entries.now }
{
    for entry in entries {
        if !own.is_new(entry) {
            return false;
        }
    }
    true
}

// What a signature expression describes that stands in a body, at a path, and sees so much of the body.
#[cycle(signatures)]
fn elaborate_within(
    alloc: Global,
    signature: &SigExp,
    path: &[u8],
    own: Scope<'_>,
    site: &Site<'_>,
    progress: &mut Progress,
) -> Result<Body, ElabRefusal>
    requires begins { Begins progress.old site.now own.entries.now }
    ensures outcome { GivesBody ((signature_of signature.now).elaborated (site_within path.now (body_at progress.old own.entry.entries.now) (site_at progress.old site.now)) (state_of progress.old)) result progress.new }
    ensures stands { IfOk result (λ body. StandsFrom (length progress.old.table.names) progress.new site.now body.entries.items) }
    ensures grew { OnOk result (Grew (length progress.old.table.names) progress.old progress.new) }
{
    let around = around_within(alloc, &*site, own)?;
    let inner = Site {
        source: site.source,
        path: &*path,
        around: around.as_slice(),
        base: site.base,
        tops: site.tops,
        binds: site.binds,
        declaring: site.declaring,
        initial: site.initial,
    };
    elaborate(alloc, signature, &inner, progress)
}

// The body after the description of a structure, which sees so many entries.
#[cycle(signatures)]
fn describe_structure(
    alloc: Global,
    bind: &Bind,
    before: usize,
    site: &Site<'_>,
    own: Body,
    progress: &mut Progress,
) -> Result<Body, ElabRefusal>
    requires stands { Stands progress.old site.now own.entries.items }
    ensures outcome { GivesBody (structure_described (body_at progress.old (take before own.entries.items)) (binding_of bind.now) (site_at progress.old site.now) (body_at progress.old own.entries.items) (state_of progress.old)) result progress.new }
    ensures stands { IfOk result (λ body. Stands progress.new site.now body.entries.items) }
    ensures grew { OnOk result (Grew (length progress.old.table.names) progress.old progress.new) }
    ensures grown { IfOk result (λ body. (entry : AnEntry) × (body.entries.items ≡ own.entries.items ++ entry ∷ [])) }
{
    let id = site.source.text(bind.id);
    if !own.scope().is_new_structure(id) {
        return Err(ElabRefusal::Refused(Why::Duplicate, bind.id));
    }
    progress.table.is_sound();
    let path = within(alloc, site.path, id)?;
    let seen = own.scope_before(before);
    let inner = elaborate_within(alloc, &bind.rhs, path.as_slice(), seen, site, progress)?;
    add_structure(alloc, site, inner, bind.id, own, progress)
}

// The body after structures, none of which sees those beside it.
#[cycle(signatures)]
fn describe_structures(
    alloc: Global,
    binds: &[Bind],
    site: &Site<'_>,
    own: Body,
    progress: &mut Progress,
) -> Result<Body, ElabRefusal>
    requires stands { Stands progress.old site.now own.entries.items }
    ensures outcome { GivesBody (structures_described (map binding_of binds.now) (site_at progress.old site.now) (body_at progress.old own.entries.items) (state_of progress.old)) result progress.new }
    ensures stands { IfOk result (λ body. Stands progress.new site.now body.entries.items) }
    ensures grew { OnOk result (Grew site.now.base progress.old progress.new) }
{
    progress.table.is_sound();
    let before = own.entries.len();
    let mut body = own;
    for bind in binds {
        body = describe_structure(alloc, bind, before, site, body, progress)?;
    }
    Ok(body)
}

// The body after an inclusion: what the expression gives at the present path is added, where all of its
// identifiers are new.
#[cycle(signatures)]
fn include_one(
    alloc: Global,
    signature: &SigExp,
    site: &Site<'_>,
    own: Body,
    progress: &mut Progress,
) -> Result<Body, ElabRefusal>
    requires stands { Stands progress.old site.now own.entries.items }
    ensures outcome { GivesBody (included (signature_of signature.now) (site_at progress.old site.now) (body_at progress.old own.entries.items) (state_of progress.old)) result progress.new }
    ensures stands { IfOk result (λ body. Stands progress.new site.now body.entries.items) }
    ensures grew { OnOk result (Grew site.now.base progress.old progress.new) }
{
    progress.table.is_sound();
    let inner = elaborate_within(alloc, signature, site.path, own.scope(), site, progress)?;
    if !are_new(inner.entries.as_slice(), own.scope()) {
        return Err(ElabRefusal::Refused(Why::Duplicate, signature.first));
    }
    Ok(own.with_all(alloc, inner)?)
}

// The body after inclusions.
#[cycle(signatures)]
fn include_all(
    alloc: Global,
    signatures: &[SigExp],
    site: &Site<'_>,
    own: Body,
    progress: &mut Progress,
) -> Result<Body, ElabRefusal>
    requires stands { Stands progress.old site.now own.entries.items }
    ensures outcome { GivesBody (in_turn included (map signature_of signatures.now) (site_at progress.old site.now) (body_at progress.old own.entries.items) (state_of progress.old)) result progress.new }
    ensures stands { IfOk result (λ body. Stands progress.new site.now body.entries.items) }
    ensures grew { OnOk result (Grew site.now.base progress.old progress.new) }
{
    let mut body = own;
    for signature in signatures {
        progress.table.is_sound();
        body = include_one(alloc, signature, site, body, progress)?;
    }
    Ok(body)
}

// The body after a specification.
#[cycle(signatures)]
fn describe(
    alloc: Global,
    spec: &Spec,
    site: &Site<'_>,
    own: Body,
    progress: &mut Progress,
) -> Result<Body, ElabRefusal>
    requires stands { Stands progress.old site.now own.entries.items }
    ensures outcome { GivesBody (specified spec.now (site_at progress.old site.now) (body_at progress.old own.entries.items) (state_of progress.old)) result progress.new }
    ensures stands { IfOk result (λ body. Stands progress.new site.now body.entries.items) }
    ensures grew { OnOk result (Grew site.now.base progress.old progress.new) }
{
    match spec {
        Spec::Val(values) => describe_values(alloc, site, values.as_slice(), own, progress),
        Spec::Abbrev(descs) => {
            describe_types(
                alloc,
                site,
                Equality::Never,
                descs.as_slice(),
                own,
                progress,
            )
        }
        Spec::Eqtype(descs) => {
            describe_types(
                alloc,
                site,
                Equality::IfArgs,
                descs.as_slice(),
                own,
                progress,
            )
        }
        Spec::Datatype(descs) => describe_datatypes(alloc, site, descs.as_slice(), own, progress),
        Spec::Replica(id, other) => describe_replica(alloc, site, *id, *other, own, progress),
        Spec::Exception(constructors) => {
            describe_exceptions(alloc, site, constructors.as_slice(), own, progress)
        }
        Spec::Structure(binds) => describe_structures(alloc, binds.as_slice(), site, own, progress),
        Spec::Include(signatures) => include_all(alloc, signatures.as_slice(), site, own, progress),
        Spec::SharingType(tokens) => {
            share_types(alloc, site, tokens.as_slice(), own.scope(), progress)?;
            Ok(own)
        }
        Spec::Sharing(tokens) => {
            share_structures(alloc, site, tokens.as_slice(), own.scope(), progress)?;
            Ok(own)
        }
    }
}

// The body after specifications.
#[cycle(signatures)]
fn describe_all(
    alloc: Global,
    specs: &[Spec],
    site: &Site<'_>,
    own: Body,
    progress: &mut Progress,
) -> Result<Body, ElabRefusal>
    requires stands { Stands progress.old site.now own.entries.items }
    ensures outcome { GivesBody (in_turn specified specs.now (site_at progress.old site.now) (body_at progress.old own.entries.items) (state_of progress.old)) result progress.new }
    ensures stands { IfOk result (λ body. Stands progress.new site.now body.entries.items) }
    ensures grew { OnOk result (Grew site.now.base progress.old progress.new) }
{
    let mut body = own;
    for spec in specs {
        progress.table.is_sound();
        body = describe(alloc, spec, site, body, progress)?;
    }
    Ok(body)
}

// What stands before `where`: a body, or a copy of the signature of an identifier.
#[cycle(signatures)]
fn elaborate_base(
    alloc: Global,
    base: &SigBase,
    site: &Site<'_>,
    progress: &mut Progress,
) -> Result<Body, ElabRefusal>
    requires begins { Begins progress.old site.now [] }
    ensures outcome { GivesBody (base_of base.now (site_at progress.old site.now) (state_of progress.old)) result progress.new }
    ensures stands { IfOk result (λ body. StandsFrom (length progress.old.table.names) progress.new site.now body.entries.items) }
    ensures grew { OnOk result (Grew (length progress.old.table.names) progress.old progress.new) }
{
    match base {
        SigBase::Body(specs) => {
            let inner = site_from(site, progress.table.len());
            describe_all(alloc, specs.as_slice(), &inner, Body::new(alloc), progress)
        }
        SigBase::Name(token) => named_signature(alloc, *token, site, progress),
    }
}

/// What a signature expression describes.
#[cycle(signatures)]
pub fn elaborate(
    alloc: Global,
    signature: &SigExp,
    site: &Site<'_>,
    progress: &mut Progress,
) -> Result<Body, ElabRefusal>
    requires begins { Begins progress.old site.now [] }
    ensures outcome { GivesBody ((signature_of signature.now).elaborated (site_at progress.old site.now) (state_of progress.old)) result progress.new }
    ensures stands { IfOk result (λ body. StandsFrom (length progress.old.table.names) progress.new site.now body.entries.items) }
    ensures grew { OnOk result (Grew (length progress.old.table.names) progress.old progress.new) }
{
    progress.table.is_sound();
    let base = progress.table.len();
    let body = elaborate_base(alloc, &signature.base, site, progress)?;
    apply_parts(
        alloc,
        site,
        signature.parts.as_slice(),
        base,
        body,
        progress,
    )
}
