// Constructors of datatypes and of exceptions.
ghost use Rattle.std.specs.Prelude.{◌≡◌, IfOk, OnOk};
ghost use Rattle.elab_rules.specs.Bodies.{in_turn};
ghost use Rattle.elab_rules.specs.Constructors as spec;
ghost use Rattle.elab_rules.specs.Constructors.{constructor_described, constructor_type, constructors_described};
ghost use Rattle.elab_rules.specs.Exceptions.{exceptions_described};
ghost use Rattle.elab_rules.specs.Extended.{IsExtended};
ghost use Rattle.elab_rules.specs.Outcome.{GivesWith};
ghost use Rattle.elab_rules.specs.Standing.{Stands, IsSettledType, Mentions, Sees};
ghost use Rattle.elab_rules.specs.Views.{GivesBody, body_at, family_of, site_at, state_of};

use crate::adding::add_closed;
use crate::typing::type_of;
use elab_rules::body::Body;
use elab_rules::family::Family;
use elab_rules::initial::constant;
use elab_rules::limits::{is_low, is_normal_small, is_small};
use elab_rules::place::Place;
use elab_rules::progress::Progress;
use elab_rules::refusal::{ElabRefusal, Why};
use elab_rules::site::Site;
use elab_rules::variables::Variables;
use sig_base::{NoMemory, Shared};
use sig_parser::{ConDesc, TypeAt};
use std::alloc::Global;
use type_core::{Kind, Ty, copy};

// The number of `exn` among the initial names.
const EXN: u32 = 6;

// The type of a constructor.
fn type_of_constructor(
    alloc: Global,
    site: &Site<'_>,
    argument: &Option<TypeAt>,
    family: &Family<'_>,
    own: &Body,
    progress: &mut Progress,
) -> Result<Ty, ElabRefusal>
    requires sees { Sees progress.old site.now own.now.entries.items }
    requires made { IsSettledType progress.old.table family.now.made.now }
    ensures outcome { GivesWith (constructor_type argument.now (family_of family.now) (site_at progress.old site.now) (body_at progress.old own.now.entries.items) (state_of progress.old)) result (state_of progress.new) }
    ensures settled { IfOk result (IsSettledType progress.new.table) }
    ensures sees { OnOk result (Sees progress.new site.now own.now.entries.items) }
    ensures mentions { OnOk result (Mentions progress.old progress.new) }
{
    let made = copy(alloc, family.made)?;
    match argument {
        None => Ok(made),
        Some(argument) => {
            let seen = own.scope();
            let place = Place {
                site: *site,
                first: argument.first,
                variables: family.variables,
                own: seen,
            };
            let from = type_of(alloc, &argument.ty, &place, progress)?;
            let whole = Ty::Arrow(Shared::new(alloc, from)?, Shared::new(alloc, made)?);
            if !is_small(&whole) {
                return Err(ElabRefusal::Refused(Why::TypeTooLarge, argument.first));
            }
            if !is_low(&whole) {
                return Err(ElabRefusal::Refused(Why::TypeTooHigh, argument.first));
            }
            if !is_normal_small(&whole) {
                return Err(ElabRefusal::Refused(Why::NormalTooLarge, argument.first));
            }
            Ok(whole)
        }
    }
}

// The body after the description of a constructor.
fn describe_constructor(
    alloc: Global,
    site: &Site<'_>,
    constructor: &ConDesc,
    family: &Family<'_>,
    own: Body,
    progress: &mut Progress,
) -> Result<Body, ElabRefusal>
    requires stands { Stands progress.old site.now own.entries.items }
    requires made { IsSettledType progress.old.table family.now.made.now }
    ensures outcome { GivesBody (constructor_described constructor.now (family_of family.now) (site_at progress.old site.now) (body_at progress.old own.entries.items) (state_of progress.old)) result progress.new }
    ensures stands { IfOk result (λ body. Stands progress.new site.now body.entries.items) }
    ensures mentions { OnOk result (Mentions progress.old progress.new) }
    ensures extended { IfOk result (λ body. IsExtended progress.new own.entries.items body.entries.items) }
{
    if !own.scope().is_new_value(site.source.text(constructor.id)) {
        return Err(ElabRefusal::Refused(Why::Duplicate, constructor.id));
    }
    let t = type_of_constructor(alloc, site, &constructor.arg, family, &own, progress)?;
    add_closed(alloc, site, family.kind, constructor.id, &t, own, progress)
}

/// The body after the constructors of one datatype, or a specification's exceptions.
pub fn describe_constructors(
    alloc: Global,
    site: &Site<'_>,
    constructors: &[ConDesc],
    family: &Family<'_>,
    own: Body,
    progress: &mut Progress,
) -> Result<Body, ElabRefusal>
    requires stands { Stands progress.old site.now own.entries.items }
    requires made { IsSettledType progress.old.table family.now.made.now }
    ensures outcome { GivesBody (constructors_described constructors.now (family_of family.now) (site_at progress.old site.now) (body_at progress.old own.entries.items) (state_of progress.old)) result progress.new }
    ensures stands { IfOk result (λ body. Stands progress.new site.now body.entries.items) }
    ensures mentions { OnOk result (Mentions progress.old progress.new) }
    ensures extended { IfOk result (λ body. IsExtended progress.new own.entries.items body.entries.items) }
{
    let mut body = own;
    for constructor in constructors {
        body = describe_constructor(alloc, site, constructor, family, body, progress)?;
    }
    Ok(body)
}

/// The body after a specification of exceptions.
pub fn describe_exceptions(
    alloc: Global,
    site: &Site<'_>,
    constructors: &[ConDesc],
    own: Body,
    progress: &mut Progress,
) -> Result<Body, ElabRefusal>
    requires stands { Stands progress.old site.now own.entries.items }
    ensures outcome { GivesBody (exceptions_described constructors.now (site_at progress.old site.now) (body_at progress.old own.entries.items) (state_of progress.old)) result progress.new }
    ensures stands { IfOk result (λ body. Stands progress.new site.now body.entries.items) }
    ensures mentions { OnOk result (Mentions progress.old progress.new) }
{
    progress.table.is_sound();
    let made = constant(EXN);
    let family = Family {
        kind: Kind::Exn,
        made: &made,
        variables: Variables::Parameters(false, &[]),
    };
    describe_constructors(alloc, site, constructors, &family, own, progress)
}
