// Entries that are weighed and added to a body.
ghost use Rattle.std.specs.Prelude.{◌≡◌, ◌++◌, ◌∷◌, [], IsTrue, IfOk, OnOk};
ghost use Rattle.elab_rules.specs.Bodies.{added};
ghost use Rattle.elab_rules.specs.Environments.{is_new_type, is_new_value, the_type, the_value, is_new_structure, the_structure};
ghost use Rattle.elab_rules.specs.Extended.{IsExtended};
ghost use Rattle.elab_types.specs.Sources.{text_at};
ghost use Rattle.elab_rules.specs.TypeDescriptions.{plain_type};
ghost use Rattle.elab_rules.specs.Values.{closed_value};
ghost use Rattle.elab_rules.specs.Standing.{Stands, AreOver, IsSettledScheme, IsSettledType, Mentions};
ghost use Rattle.elab_rules.specs.Views.{GivesBody, body_at, site_at, state_of};
ghost use Rattle.elab_types.specs.Views.{texts};

use elab_rules::body::Body;
use elab_rules::closing::scheme_of;
use elab_rules::entry::{TypeEntry, ValueEntry};
use elab_rules::progress::Progress;
use elab_rules::refusal::ElabRefusal;
use elab_rules::site::Site;
use elab_rules::weights::{entry_weight, weight_at};
use sig_base::{List, Text};
use std::alloc::Global;
use type_core::{Kind, Ty, TypeFn};

/// The body with one more type constructor, whose identifier is new, weighed at the token.
pub fn add_type(
    alloc: Global,
    site: &Site<'_>,
    entry: TypeEntry,
    token: u32,
    own: Body,
    progress: &mut Progress,
) -> Result<Body, ElabRefusal>
    requires stands { Stands progress.old site.now own.entries.items }
    requires new { IsTrue (is_new_type entry.id own.entries.items) }
    requires settled { IsSettledType progress.old.table entry.fun.body }
    ensures outcome { GivesBody (added (site_at progress.old site.now) (the_type entry) token (body_at progress.old own.entries.items) (state_of progress.old)) result progress.new }
    ensures stands { IfOk result (λ body. Stands progress.new site.now body.entries.items) }
    ensures mentions { OnOk result (Mentions progress.old progress.new) }
    ensures pushed { IfOk result (λ body. body.entries.items ≡ own.entries.items ++ the_type entry ∷ []) }
{
    let weight = entry_weight(site.path, entry.id.as_slice(), &entry.fun.body);
    progress.weigh(weight, token)?;
    Ok(own.with_type(alloc, entry)?)
}

/// The body with one more value, whose identifier is new, weighed at the token.
pub fn add_value(
    alloc: Global,
    site: &Site<'_>,
    entry: ValueEntry,
    token: u32,
    own: Body,
    progress: &mut Progress,
) -> Result<Body, ElabRefusal>
    requires stands { Stands progress.old site.now own.entries.items }
    requires new { IsTrue (is_new_value entry.id own.entries.items) }
    requires settled { IsSettledScheme progress.old.table entry.scheme }
    ensures outcome { GivesBody (added (site_at progress.old site.now) (the_value entry) token (body_at progress.old own.entries.items) (state_of progress.old)) result progress.new }
    ensures stands { IfOk result (λ body. Stands progress.new site.now body.entries.items) }
    ensures mentions { OnOk result (Mentions progress.old progress.new) }
    ensures pushed { IfOk result (λ body. body.entries.items ≡ own.entries.items ++ the_value entry ∷ []) }
{
    let weight = entry_weight(site.path, entry.id.as_slice(), &entry.scheme.body);
    progress.weigh(weight, token)?;
    Ok(own.with_value(alloc, entry)?)
}

/// The body with a type constructor without constructors, whose identifier stands at the token and is new.
pub fn add_plain(
    alloc: Global,
    site: &Site<'_>,
    token: u32,
    fun: TypeFn,
    own: Body,
    progress: &mut Progress,
) -> Result<Body, ElabRefusal>
    requires stands { Stands progress.old site.now own.entries.items }
    requires new { IsTrue (is_new_type (text_at (texts site.now.source) token) own.entries.items) }
    requires settled { IsSettledType progress.old.table fun.body }
    ensures outcome { GivesBody (added (site_at progress.old site.now) (the_type (plain_type (text_at (texts site.now.source) token) fun)) token (body_at progress.old own.entries.items) (state_of progress.old)) result progress.new }
    ensures stands { IfOk result (λ body. Stands progress.new site.now body.entries.items) }
    ensures mentions { OnOk result (Mentions progress.old progress.new) }
    ensures pushed { IfOk result (λ body. body.entries.items ≡ own.entries.items ++ the_type (plain_type (text_at (texts site.now.source) token) fun) ∷ []) }
{
    let id = Text::from_slice(alloc, site.source.text(token))?;
    let entry = TypeEntry {
        id,
        fun,
        constructors: List::new(alloc),
    };
    add_type(alloc, site, entry, token, own, progress)
}

/// The body with a value of this type, whose identifier stands at the token and is new.
pub fn add_closed(
    alloc: Global,
    site: &Site<'_>,
    kind: Kind,
    token: u32,
    t: &Ty,
    own: Body,
    progress: &mut Progress,
) -> Result<Body, ElabRefusal>
    requires stands { Stands progress.old site.now own.entries.items }
    requires new { IsTrue (is_new_value (text_at (texts site.now.source) token) own.entries.items) }
    requires settled { IsSettledType progress.old.table t.now }
    ensures outcome { GivesBody (added (site_at progress.old site.now) (the_value (closed_value (text_at (texts site.now.source) token) kind t.now)) token (body_at progress.old own.entries.items) (state_of progress.old)) result progress.new }
    ensures stands { IfOk result (λ body. Stands progress.new site.now body.entries.items) }
    ensures mentions { OnOk result (Mentions progress.old progress.new) }
    ensures extended { IfOk result (λ body. IsExtended progress.new own.entries.items body.entries.items) }
{
    let id = Text::from_slice(alloc, site.source.text(token))?;
    let scheme = scheme_of(alloc, t)?;
    add_value(
        alloc,
        site,
        ValueEntry { id, kind, scheme },
        token,
        own,
        progress,
    )
}

/// The body with a structure that has what another body describes, weighed at the token of its identifier,
/// which is new.
pub fn add_structure(
    alloc: Global,
    site: &Site<'_>,
    inner: Body,
    token: u32,
    own: Body,
    progress: &mut Progress,
) -> Result<Body, ElabRefusal>
    requires stands { Stands progress.old site.now own.entries.items }
    requires new { IsTrue (is_new_structure (text_at (texts site.now.source) token) own.entries.items) }
    requires over { AreOver progress.old.table.names inner.entries.items }
    ensures outcome { GivesBody (added (site_at progress.old site.now) (the_structure (text_at (texts site.now.source) token) (body_at progress.old inner.entries.items)) token (body_at progress.old own.entries.items) (state_of progress.old)) result progress.new }
    ensures stands { IfOk result (λ body. Stands progress.new site.now body.entries.items) }
    ensures mentions { OnOk result (Mentions progress.old progress.new) }
    ensures pushed { IfOk result (λ body. body.entries.items ≡ own.entries.items ++ the_structure (text_at (texts site.now.source) token) inner.entries.items ∷ []) }
{
    let id = site.source.text(token);
    progress.weigh(weight_at(site.path.len() as u64, id), token)?;
    Ok(own.with_structure(alloc, id, inner)?)
}
