// Datatype replications.
ghost use Rattle.elab_env.specs.Realizations.{resolved as resolved_by};
ghost use Rattle.elab_rules.specs.Replacing.{environment_with};
ghost use Rattle.std.specs.List.{All};
ghost use Rattle.std.specs.Prelude.{◌≡◌, ◌++◌, IfOk, OnOk};
ghost use Rattle.elab_rules.specs.Bodies.{in_turn};
ghost use Rattle.elab_rules.specs.Environments.{values_in};
ghost use Rattle.elab_rules.specs.Replications as spec;
ghost use Rattle.elab_rules.specs.Replications.{replica_described, value_copied};
ghost use Rattle.elab_rules.specs.Standing.{Stands, AreOver, IsSettledScheme, Mentions};
ghost use Rattle.elab_rules.specs.Views.{GivesBody, body_at, site_at, state_of};

use crate::adding::{add_type, add_value};
use crate::look_ups::{datatype_at, resolved};
use crate::settled_entries::value_by_now;
use elab_env::NameTable;
use elab_rules::body::Body;
use elab_rules::copying::{copy_texts, copy_value};
use elab_rules::entry::{TypeEntry, ValueEntry};
use elab_rules::progress::Progress;
use elab_rules::refusal::{ElabRefusal, Why};
use elab_rules::scope::Scope;
use elab_rules::site::Site;
use sig_base::{List, NoMemory, Text};
use std::alloc::Global;

// The values of these identifiers in an environment, with the schemes that they have by now.
fn values_by_now(
    alloc: Global,
    ids: &[Text],
    env: Scope<'_>,
    table: &NameTable,
) -> Result<List<ValueEntry>, NoMemory>
    requires over { AreOver table.now.names env.entries.now }
    ensures value { IfOk result (λ values. values ≡ values_in ids.now (environment_with (resolved_by table.now.realizations) env.entry.entries.now)) }
    ensures settled { IfOk result (λ values. All (λ value. IsSettledScheme table.now value.scheme) values) }
{
    let mut values = List::new(alloc);
    for id in ids {
        match env.find_value(id.as_slice()) {
            None => continue,
            Some(value) => values.push(value_by_now(alloc, value, table)?)?,
        }
    }
    Ok(values)
}

// The body with a copied constructor, which is new in it.
fn copy_constructor(
    alloc: Global,
    site: &Site<'_>,
    token: u32,
    value: &ValueEntry,
    own: Body,
    progress: &mut Progress,
) -> Result<Body, ElabRefusal>
    requires stands { Stands progress.old site.now own.entries.items }
    requires settled { IsSettledScheme progress.old.table value.now.scheme }
    ensures outcome { GivesBody (value_copied token value.now (site_at progress.old site.now) (body_at progress.old own.entries.items) (state_of progress.old)) result progress.new }
    ensures stands { IfOk result (λ body. Stands progress.new site.now body.entries.items) }
    ensures mentions { OnOk result (Mentions progress.old progress.new) }
{
    if !own.scope().is_new_value(value.id.as_slice()) {
        return Err(ElabRefusal::Refused(Why::Duplicate, token));
    }
    let value = copy_value(alloc, value)?;
    add_value(alloc, site, value, token, own, progress)
}

// The body with copied constructors.
fn copy_constructors(
    alloc: Global,
    site: &Site<'_>,
    token: u32,
    values: &[ValueEntry],
    own: Body,
    progress: &mut Progress,
) -> Result<Body, ElabRefusal>
    requires stands { Stands progress.old site.now own.entries.items }
    requires settled { All (λ value. IsSettledScheme progress.old.table value.scheme) values.now }
    ensures outcome { GivesBody (in_turn (value_copied token) values.now (site_at progress.old site.now) (body_at progress.old own.entries.items) (state_of progress.old)) result progress.new }
    ensures stands { IfOk result (λ body. Stands progress.new site.now body.entries.items) }
    ensures mentions { OnOk result (Mentions progress.old progress.new) }
{
    let mut body = own;
    for value in values {
        body = copy_constructor(alloc, site, token, value, body, progress)?;
    }
    Ok(body)
}

/// The body after a datatype replication.
pub fn describe_replica(
    alloc: Global,
    site: &Site<'_>,
    id: u32,
    other: u32,
    own: Body,
    progress: &mut Progress,
) -> Result<Body, ElabRefusal>
    requires stands { Stands progress.old site.now own.entries.items }
    ensures outcome { GivesBody (replica_described id other (site_at progress.old site.now) (body_at progress.old own.entries.items) (state_of progress.old)) result progress.new }
    ensures stands { IfOk result (λ body. Stands progress.new site.now body.entries.items) }
    ensures mentions { OnOk result (Mentions progress.old progress.new) }
{
    let text = site.source.text(id);
    if !own.scope().is_new_type(text) {
        return Err(ElabRefusal::Refused(Why::Duplicate, id));
    }
    progress.table.is_sound();
    let Some(found) = datatype_at(other, site, own.scope()) else {
        return Err(ElabRefusal::Refused(Why::Unbound, other));
    };
    let ids = found.entry.constructors.as_slice();
    let constructors = values_by_now(alloc, ids, found.env, &progress.table)?;
    let entry = TypeEntry {
        id: Text::from_slice(alloc, text)?,
        fun: resolved(alloc, &progress.table, &found.entry.fun)?,
        constructors: copy_texts(alloc, ids)?,
    };
    let body = add_type(alloc, site, entry, other, own, progress)?;
    copy_constructors(alloc, site, other, constructors.as_slice(), body, progress)
}
