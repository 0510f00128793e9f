// Datatype specifications.
ghost use Rattle.std.specs.Prelude.{◌≡◌, ◌+◌, IfOk, OnOk, length};
ghost use Rattle.elab_rules.specs.Constructors.{constructors_described};
ghost use Rattle.elab_rules.specs.Datatypes.{datatype_entry, datatype_family, datatype_head, datatype_heads, datatypes_described, group_constructed, identifiers};
ghost use Rattle.elab_rules.specs.Extended.{IsExtended};
ghost use Rattle.elab_rules.specs.Parameters.{marked as spec_marked, variables_at as spec_variables};
ghost use Rattle.elab_types.specs.Sources.{text_at};
ghost use Rattle.elab_rules.specs.Standing.{Stands, AreMade, IsSettledType, Mentions};
ghost use Rattle.elab_rules.specs.Views.{GivesBody, body_at, site_at, state_of};
ghost use Rattle.elab_types.specs.Views.{texts};

use crate::adding::add_type;
use crate::constructors::describe_constructors;
use crate::equality::settle_equality;
use elab_env::name_function;
use elab_rules::body::Body;
use elab_rules::entry::TypeEntry;
use elab_rules::family::Family;
use elab_rules::limits::MAX_NODES;
use elab_rules::parameters::{check_parameters, marked, variables_at};
use elab_rules::progress::Progress;
use elab_rules::refusal::{ElabRefusal, Why};
use elab_rules::site::Site;
use elab_rules::variables::Variables;
use elab_types::{Source, as_number};
use sig_base::{List, NoMemory, Text};
use sig_parser::{ConDesc, DataDesc};
use std::alloc::Global;
use type_core::{Equality, Kind, NameId};

// The identifiers of constructors.
fn identifiers(
    alloc: Global,
    source: &Source<'_>,
    constructors: &[ConDesc],
) -> Result<List<Text>, NoMemory>
    ensures value { IfOk result (λ ids. ids ≡ identifiers (texts source.now) constructors.now) }
{
    let mut ids = List::new(alloc);
    for constructor in constructors {
        ids.push(Text::from_slice(alloc, source.text(constructor.id))?)?;
    }
    Ok(ids)
}

// A datatype with its name.
fn datatype(
    alloc: Global,
    site: &Site<'_>,
    desc: &DataDesc,
    name: NameId,
    arity: u32,
) -> Result<TypeEntry, NoMemory>
    ensures value { IfOk result (λ entry. entry ≡ datatype_entry (text_at (texts site.now.source) desc.now.id) name.0 arity (identifiers (texts site.now.source) desc.now.cons)) }
{
    let id = Text::from_slice(alloc, site.source.text(desc.id))?;
    let fun = name_function(alloc, name, arity)?;
    let constructors = identifiers(alloc, &site.source, desc.cons.as_slice())?;
    Ok(TypeEntry {
        id,
        fun,
        constructors,
    })
}

// The body after the head of a datatype.
fn describe_head(
    alloc: Global,
    site: &Site<'_>,
    desc: &DataDesc,
    own: Body,
    progress: &mut Progress,
) -> Result<Body, ElabRefusal>
    requires stands { Stands progress.old site.now own.entries.items }
    ensures outcome { GivesBody (datatype_head desc.now (site_at progress.old site.now) (body_at progress.old own.entries.items) (state_of progress.old)) result progress.new }
    ensures stands { IfOk result (λ body. Stands progress.new site.now body.entries.items) }
    ensures mentions { OnOk result (Mentions progress.old progress.new) }
    ensures extended { IfOk result (λ body. IsExtended progress.new own.entries.items body.entries.items) }
    ensures made { OnOk result (IsSettledType progress.new.table (spec_marked (length progress.old.table.names) (spec_variables (texts site.now.source) desc.now.params))) }
    ensures one { OnOk result (length progress.new.table.names ≡ length progress.old.table.names + 1) }
{
    progress.table.is_sound();
    check_parameters(alloc, &site.source, desc.params.as_slice())?;
    let text = site.source.text(desc.id);
    if !own.scope().is_new_type(text) {
        return Err(ElabRefusal::Refused(Why::Duplicate, desc.id));
    }
    if desc.params.len() as u64 >= MAX_NODES {
        return Err(ElabRefusal::Refused(Why::TypeTooLarge, desc.id));
    }
    let arity = as_number(desc.params.len())?;
    let name = progress.describe(alloc, site.path, text, arity, Equality::IfArgs)?;
    let entry = datatype(alloc, site, desc, name, arity)?;
    add_type(alloc, site, entry, desc.id, own, progress)
}

// The body after the heads of a group.
fn describe_heads(
    alloc: Global,
    site: &Site<'_>,
    descs: &[DataDesc],
    own: Body,
    progress: &mut Progress,
) -> Result<Body, ElabRefusal>
    requires stands { Stands progress.old site.now own.entries.items }
    ensures outcome { GivesBody (datatype_heads descs.now (site_at progress.old site.now) (body_at progress.old own.entries.items) (state_of progress.old)) result progress.new }
    ensures stands { IfOk result (λ body. Stands progress.new site.now body.entries.items) }
    ensures mentions { OnOk result (Mentions progress.old progress.new) }
    ensures extended { IfOk result (λ body. IsExtended progress.new own.entries.items body.entries.items) }
    ensures made { OnOk result (AreMade progress.new.table (length progress.old.table.names) (texts site.now.source) descs.now) }
{
    let mut body = own;
    for desc in descs {
        body = describe_head(alloc, site, desc, body, progress)?;
    }
    Ok(body)
}

// The body after the constructors of the datatype of this name.
fn construct(
    alloc: Global,
    site: &Site<'_>,
    desc: &DataDesc,
    name: u32,
    own: Body,
    progress: &mut Progress,
) -> Result<Body, ElabRefusal>
    requires stands { Stands progress.old site.now own.entries.items }
    requires made { IsSettledType progress.old.table (spec_marked name (spec_variables (texts site.now.source) desc.now.params)) }
    ensures outcome { GivesBody (constructors_described desc.now.cons (datatype_family name (spec_variables (texts site.now.source) desc.now.params)) (site_at progress.old site.now) (body_at progress.old own.entries.items) (state_of progress.old)) result progress.new }
    ensures stands { IfOk result (λ body. Stands progress.new site.now body.entries.items) }
    ensures mentions { OnOk result (Mentions progress.old progress.new) }
    ensures extended { IfOk result (λ body. IsExtended progress.new own.entries.items body.entries.items) }
{
    let parameters = variables_at(alloc, &site.source, desc.params.as_slice())?;
    let made = marked(alloc, NameId(name), parameters.as_slice())?;
    let variables = Variables::Parameters(true, parameters.as_slice());
    let family = Family {
        kind: Kind::Con,
        made: &made,
        variables,
    };
    describe_constructors(alloc, site, desc.cons.as_slice(), &family, own, progress)
}

fn next_number(n: u32) -> Result<u32, NoMemory>
    ensures value { IfOk result (λ next. next ≡ n + 1) }
{
    match n.checked_add(1) {
        None => Err(NoMemory),
        Some(next) => Ok(next),
    }
}

// The body after the constructors of a group whose names are numbered from `first` on.
fn construct_group(
    alloc: Global,
    site: &Site<'_>,
    descs: &[DataDesc],
    first: u32,
    own: Body,
    progress: &mut Progress,
) -> Result<Body, ElabRefusal>
    requires stands { Stands progress.old site.now own.entries.items }
    requires made { AreMade progress.old.table first (texts site.now.source) descs.now }
    ensures outcome { GivesBody (group_constructed descs.now first (site_at progress.old site.now) (body_at progress.old own.entries.items) (state_of progress.old)) result progress.new }
    ensures stands { IfOk result (λ body. Stands progress.new site.now body.entries.items) }
    ensures mentions { OnOk result (Mentions progress.old progress.new) }
    ensures extended { IfOk result (λ body. IsExtended progress.new own.entries.items body.entries.items) }
{
    let mut body = own;
    let mut name = first;
    for desc in descs {
        body = construct(alloc, site, desc, name, body, progress)?;
        let next = next_number(name)?;
        name = next;
    }
    Ok(body)
}

/// The body after a specification of datatypes.
pub fn describe_datatypes(
    alloc: Global,
    site: &Site<'_>,
    descs: &[DataDesc],
    own: Body,
    progress: &mut Progress,
) -> Result<Body, ElabRefusal>
    requires stands { Stands progress.old site.now own.entries.items }
    ensures outcome { GivesBody (datatypes_described descs.now (site_at progress.old site.now) (body_at progress.old own.entries.items) (state_of progress.old)) result progress.new }
    ensures stands { IfOk result (λ body. Stands progress.new site.now body.entries.items) }
    ensures mentions { OnOk result (Mentions progress.old progress.new) }
{
    let from = own.entries.len();
    let first = progress.table.len();
    let heads = describe_heads(alloc, site, descs, own, progress)?;
    let body = construct_group(alloc, site, descs, first, heads, progress)?;
    settle_equality(progress, first, descs.len(), body.entries.as_slice(), from)?;
    Ok(body)
}
