// The specifications `type` and `eqtype`.
ghost use Rattle.std.specs.Prelude.{◌≡◌, ◌++◌, ◌∷◌, [], IfOk, take, OnOk};
ghost use Rattle.elab_rules.specs.declared.entry.Entry.{Entry as AnEntry};
ghost use Rattle.elab_rules.specs.Bodies.{in_turn};
ghost use Rattle.elab_rules.specs.Outcome.{GivesWith};
ghost use Rattle.elab_types.specs.Sources.{text_at};
ghost use Rattle.elab_rules.specs.TypeDescriptions as spec;
ghost use Rattle.elab_rules.specs.TypeDescriptions.{type_described, types_described};
ghost use Rattle.elab_rules.specs.Standing.{Stands, IsSettledType, Mentions, Sees};
ghost use Rattle.elab_rules.specs.Views.{GivesBody, body_at, site_at, state_of};
ghost use Rattle.elab_types.specs.Views.{texts};

use crate::adding::add_plain;
use crate::typing::type_of;
use elab_env::name_function;
use elab_rules::body::Body;
use elab_rules::limits::MAX_NODES;
use elab_rules::parameters::{check_parameters, variables_at};
use elab_rules::place::Place;
use elab_rules::progress::Progress;
use elab_rules::refusal::{ElabRefusal, Why};
use elab_rules::site::Site;
use elab_rules::variables::Variables;
use sig_parser::TypeDesc;
use std::alloc::Global;
use ty_parser::TypeAt;
use type_core::{Equality, TypeFn, VarId};

// What a description stands for: a new name, or its right side, which sees so many entries.
fn right_side(
    alloc: Global,
    site: &Site<'_>,
    right: &Option<TypeAt>,
    id: &[u8],
    equality: Equality,
    parameters: &[VarId],
    own: &Body,
    before: usize,
    progress: &mut Progress,
) -> Result<TypeFn, ElabRefusal>
    requires sees { Sees progress.old site.now own.now.entries.items }
    ensures outcome { GivesWith (spec.right_side right.now id.now equality parameters.now (site_at progress.old site.now) (body_at progress.old (take before own.now.entries.items)) (state_of progress.old)) result (state_of progress.new) }
    ensures settled { IfOk result (λ f. IsSettledType progress.new.table f.body) }
    ensures sees { OnOk result (Sees progress.new site.now own.now.entries.items) }
    ensures mentions { OnOk result (Mentions progress.old progress.new) }
{
    progress.table.is_sound();
    let Ok(arity) = u32::try_from(parameters.len()) else {
        return Err(ElabRefusal::NoMemory);
    };
    match right {
        None => {
            let name = progress.describe(alloc, site.path, id, arity, equality)?;
            Ok(name_function(alloc, name, arity)?)
        }
        Some(right) => {
            let seen = own.scope_before(before);
            let place = Place {
                site: *site,
                first: right.first,
                variables: Variables::Parameters(false, parameters),
                own: seen,
            };
            let body = type_of(alloc, &right.ty, &place, progress)?;
            Ok(TypeFn { arity, body })
        }
    }
}

// The body after the description of a type constructor, whose right side sees so many entries.
fn describe_type(
    alloc: Global,
    site: &Site<'_>,
    equality: Equality,
    desc: &TypeDesc,
    before: usize,
    own: Body,
    progress: &mut Progress,
) -> Result<Body, ElabRefusal>
    requires stands { Stands progress.old site.now own.entries.items }
    ensures outcome { GivesBody (type_described equality desc.now (body_at progress.old (take before own.entries.items)) (site_at progress.old site.now) (body_at progress.old own.entries.items) (state_of progress.old)) result progress.new }
    ensures stands { IfOk result (λ body. Stands progress.new site.now body.entries.items) }
    ensures mentions { OnOk result (Mentions progress.old progress.new) }
    ensures grown { IfOk result (λ body. (entry : AnEntry) × (body.entries.items ≡ own.entries.items ++ entry ∷ [])) }
{
    check_parameters(alloc, &site.source, desc.params.as_slice())?;
    let text = site.source.text(desc.id);
    if !own.scope().is_new_type(text) {
        return Err(ElabRefusal::Refused(Why::Duplicate, desc.id));
    }
    if desc.params.len() as u64 >= MAX_NODES {
        return Err(ElabRefusal::Refused(Why::TypeTooLarge, desc.id));
    }
    let parameters = variables_at(alloc, &site.source, desc.params.as_slice())?;
    let fun = right_side(
        alloc,
        site,
        &desc.rhs,
        text,
        equality,
        parameters.as_slice(),
        &own,
        before,
        progress,
    )?;
    add_plain(alloc, site, desc.id, fun, own, progress)
}

/// The body after a specification `type` or `eqtype`.
pub fn describe_types(
    alloc: Global,
    site: &Site<'_>,
    equality: Equality,
    descs: &[TypeDesc],
    own: Body,
    progress: &mut Progress,
) -> Result<Body, ElabRefusal>
    requires stands { Stands progress.old site.now own.entries.items }
    ensures outcome { GivesBody (types_described equality descs.now (site_at progress.old site.now) (body_at progress.old own.entries.items) (state_of progress.old)) result progress.new }
    ensures stands { IfOk result (λ body. Stands progress.new site.now body.entries.items) }
    ensures mentions { OnOk result (Mentions progress.old progress.new) }
{
    let before = own.entries.len();
    let mut body = own;
    for desc in descs {
        body = describe_type(alloc, site, equality, desc, before, body, progress)?;
    }
    Ok(body)
}
