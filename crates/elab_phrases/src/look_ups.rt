// Looking up type constructors: in the bodies, among the initial types, in top structures, and elsewhere.
ghost use Rattle.type_core.specs.declared.names.TypeName.{TypeName};
ghost use Rattle.std.specs.Prelude.{◌≡◌, IfOk, OnOk, IfSome, List};
ghost use Rattle.elab_env.specs.Realizations.{function_resolved};
ghost use Rattle.sig_base.specs.LongIdentifiers.{parts};
ghost use Rattle.elab_rules.specs.LookUps as spec;
ghost use Rattle.elab_rules.specs.Outcome.{GivesWith};
ghost use Rattle.elab_rules.specs.Standing.{IsSettledType, Mentions, Sees, IsFoundOver, IsSoughtOver, SeesOver};
ghost use Rattle.type_core.specs.Types.{IsOver};
ghost use Rattle.elab_rules.specs.Views.{bodies_seen, body_at, entries_seen, found_seen, site_at, site_of, sought_of, state_of};

use elab_env::{NameTable, name_function};
use elab_rules::found::{Found, Sought};
use elab_rules::long_identifiers::type_along;
use elab_rules::progress::Progress;
use elab_rules::refusal::{ElabRefusal, Why};
use elab_rules::scope::Scope;
use elab_rules::site::Site;
use elab_types::as_number;
use sig_base::{NoMemory, first_dot};
use std::alloc::Global;
use type_core::TypeFn;

// The structure of an identifier: in the bodies from within outwards, else among the top structures.
fn structure_sought<'a>(id: &[u8], site: &Site<'a>, own: Scope<'a>) -> Option<Scope<'a>>
    ensures value { entries_seen result ≡ spec.structure_sought id.now (site_of site.now) (bodies_seen own.entry site.now) }
{
    if let Some(found) = own.find_structure(id) {
        return Some(found);
    }
    let mut level = site.around.len();
    'levels: while level > 0 {
        level -= 1;
        if let Some(found) = site.around[level].find_structure(id) {
            return Some(found);
        }
    }
    site.tops.find_structure(id)
}

// The type constructor of an identifier: in the bodies from within outwards, else among the initial types.
fn simple_sought<'a>(id: &[u8], site: &Site<'a>, own: Scope<'a>) -> Sought<'a>
    ensures value { sought_of result ≡ spec.simple_sought id.now (bodies_seen own.entry site.now) }
    ensures over { (names : List TypeName) → SeesOver names site.now own.entry.entries.now → IsSoughtOver names result }
{
    if let Some(entry) = own.find_type(id) {
        return Sought::Known(Found { entry, env: own });
    }
    let mut level = site.around.len();
    'levels: while level > 0 {
        level -= 1;
        let env = site.around[level];
        if let Some(entry) = env.find_type(id) {
            return Sought::Known(Found { entry, env });
        }
    }
    match site.initial.find_type(id) {
        Some(entry) => Sought::Known(Found {
            entry,
            env: site.initial,
        }),
        None => Sought::Missing,
    }
}

// Whether the identifier was declared at the top, or is being declared.
fn is_top(id: &[u8], site: &Site<'_>) -> bool
    ensures value { result ≡ spec.is_top id.now (site_of site.now) }
{
    site.tops.has(id) || site.declaring.has(id)
}

// The type constructor of a long identifier.
fn sought<'a>(path: &[u8], site: &Site<'a>, own: Scope<'a>) -> Sought<'a>
    ensures value { sought_of result ≡ spec.sought (parts path.now) (site_of site.now) (bodies_seen own.entry site.now) }
    ensures over { (names : List TypeName) → SeesOver names site.now own.entry.entries.now → IsSoughtOver names result }
{
    let Some(dot) = first_dot(path) else {
        return simple_sought(path, site, own);
    };
    let id = &path[..dot];
    match structure_sought(id, site, own) {
        Some(env) => match type_along(&path[dot + 1..], env) {
            Some(found) => Sought::Known(found),
            None => Sought::Missing,
        },
        None => {
            if is_top(id, site) {
                Sought::Missing
            } else {
                Sought::Elsewhere
            }
        }
    }
}

/// What a type function means by now.
pub fn resolved(alloc: Global, table: &NameTable, fun: &TypeFn) -> Result<TypeFn, NoMemory>
    requires over { IsOver table.now.names fun.now.body }
    ensures value { IfOk result (λ f. f ≡ function_resolved table.now.realizations fun.now) }
    ensures settled { IfOk result (λ f. IsSettledType table.now f.body) }
{
    table.is_sound();
    Ok(TypeFn {
        arity: fun.arity,
        body: table.resolve(alloc, &fun.body)?,
    })
}

/// The type function of the long identifier at a token, which is applied to so many arguments.
pub fn function_at(
    alloc: Global,
    token: u32,
    count: usize,
    site: &Site<'_>,
    own: Scope<'_>,
    progress: &mut Progress,
) -> Result<TypeFn, ElabRefusal>
    requires sees { Sees progress.old site.now own.entries.now }
    ensures outcome { GivesWith (spec.function_at token count (site_at progress.old site.now) (body_at progress.old own.entry.entries.now) (state_of progress.old)) result (state_of progress.new) }
    ensures settled { IfOk result (λ f. IsSettledType progress.new.table f.body) }
    ensures sees { OnOk result (Sees progress.new site.now own.entry.entries.now) }
    ensures grew { OnOk result (Mentions progress.old progress.new) }
{
    progress.table.is_sound();
    let path = site.source.text(token);
    match sought(path, site, own) {
        Sought::Known(found) => Ok(resolved(alloc, &progress.table, &found.entry.fun)?),
        Sought::Missing => Err(ElabRefusal::Refused(Why::Unbound, token)),
        Sought::Elsewhere => {
            let arity = as_number(count)?;
            let name = progress.external(alloc, path, arity, token)?;
            Ok(name_function(alloc, name, arity)?)
        }
    }
}

/// What a replication copies.
pub fn datatype_at<'a>(token: u32, site: &Site<'a>, own: Scope<'a>) -> Option<Found<'a>>
    ensures value { found_seen result ≡ spec.datatype_at token (site_of site.now) own.entry.entries.now }
    ensures over { (names : List TypeName) → SeesOver names site.now own.entry.entries.now → IfSome result (IsFoundOver names) }
{
    match sought(site.source.text(token), site, own) {
        Sought::Known(found) => Some(found),
        Sought::Missing | Sought::Elsewhere => None,
    }
}
