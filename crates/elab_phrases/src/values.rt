// Value specifications.
ghost use Rattle.std.specs.Prelude.{IfOk, OnOk};
ghost use Rattle.elab_rules.specs.Outcome.{GivesWith};
ghost use Rattle.elab_rules.specs.Standing.{Grew, IsSettledType, Mentions, Sees, Stands};
ghost use Rattle.elab_rules.specs.Types.{typed};
ghost use Rattle.elab_rules.specs.Values.{value_described, value_place, values_described};
ghost use Rattle.elab_rules.specs.Views.{GivesBody, body_at, site_at, state_of};

use crate::adding::add_closed;
use crate::typing::type_of;
use elab_rules::body::Body;
use elab_rules::limits::is_normal_small;
use elab_rules::place::Place;
use elab_rules::progress::Progress;
use elab_rules::refusal::{ElabRefusal, Why};
use elab_rules::site::Site;
use elab_rules::variables::Variables;
use sig_parser::ValDesc;
use std::alloc::Global;
use type_core::{Kind, Ty};

// The type of a value, in which any variable may stand.
fn type_of_value(
    alloc: Global,
    site: &Site<'_>,
    value: &ValDesc,
    own: &Body,
    progress: &mut Progress,
) -> Result<Ty, ElabRefusal>
    requires sees { Sees progress.old site.now own.now.entries.items }
    ensures outcome { GivesWith (typed value.now.ty.ty (value_place (site_at progress.old site.now) value.now.ty.first (body_at progress.old own.now.entries.items)) (state_of progress.old)) result (state_of progress.new) }
    ensures settled { IfOk result (IsSettledType progress.new.table) }
    ensures sees { OnOk result (Sees progress.new site.now own.now.entries.items) }
    ensures mentions { OnOk result (Mentions progress.old progress.new) }
{
    let seen = own.scope();
    let place = Place {
        site: *site,
        own: seen,
        first: value.ty.first,
        variables: Variables::Any,
    };
    type_of(alloc, &value.ty.ty, &place, progress)
}

// The body after the description of a value.
fn describe_value(
    alloc: Global,
    site: &Site<'_>,
    value: &ValDesc,
    own: Body,
    progress: &mut Progress,
) -> Result<Body, ElabRefusal>
    requires stands { Stands progress.old site.now own.entries.items }
    ensures outcome { GivesBody (value_described value.now (site_at progress.old site.now) (body_at progress.old own.entries.items) (state_of progress.old)) result progress.new }
    ensures stands { IfOk result (λ body. Stands progress.new site.now body.entries.items) }
    ensures mentions { OnOk result (Mentions progress.old progress.new) }
{
    if !own.scope().is_new_value(site.source.text(value.id)) {
        return Err(ElabRefusal::Refused(Why::Duplicate, value.id));
    }
    let t = type_of_value(alloc, site, value, &own, progress)?;
    if !is_normal_small(&t) {
        return Err(ElabRefusal::Refused(Why::NormalTooLarge, value.ty.first));
    }
    add_closed(alloc, site, Kind::Val, value.id, &t, own, progress)
}

/// The body after a specification of values.
pub fn describe_values(
    alloc: Global,
    site: &Site<'_>,
    values: &[ValDesc],
    own: Body,
    progress: &mut Progress,
) -> Result<Body, ElabRefusal>
    requires stands { Stands progress.old site.now own.entries.items }
    ensures outcome { GivesBody (values_described values.now (site_at progress.old site.now) (body_at progress.old own.entries.items) (state_of progress.old)) result progress.new }
    ensures stands { IfOk result (λ body. Stands progress.new site.now body.entries.items) }
    ensures mentions { OnOk result (Mentions progress.old progress.new) }
{
    let mut body = own;
    for value in values {
        body = describe_value(alloc, site, value, body, progress)?;
    }
    Ok(body)
}
