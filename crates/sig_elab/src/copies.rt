// Copies of signatures (the Definition, rule 63 and section 5.3).
ghost use Rattle.std.specs.Prelude.{◌≡◌, ◌++◌, ◌∷◌, [], ℕ, List, IfOk, IsTrue, OnOk, drop, length, min};
ghost use Rattle.elab_rules.specs.Copies as spec;
ghost use Rattle.elab_rules.specs.Copies.{environment_weight, with_copies};
ghost use Rattle.std.specs.List.{All};
ghost use Rattle.elab_env.specs.Names.{is_described};
ghost use Rattle.elab_rules.specs.Details.{HasOwn};
ghost use Rattle.elab_rules.specs.Distinct.{AreDistinct};
ghost use Rattle.elab_rules.specs.Standing.{Begins, IsSettled, Mentions, StandsFrom};
ghost use Rattle.elab_rules.specs.Views.{GivesBody, site_at, state_of};

use elab_phrases::renumbering::{Numbering, entries_renumbered};
use elab_rules::body::Body;
use elab_rules::detail::Top;
use elab_rules::entry::Entry;
use elab_rules::own_names::OwnNames;
use elab_rules::progress::Progress;
use elab_rules::refusal::{ElabRefusal, Why};
use elab_rules::site::Site;
use elab_rules::weights::{type_weight, weight_at};
use sig_base::{NoMemory, Text};
use std::alloc::Global;
use type_core::NameId;

// What an entry of a body whose path has so many bytes weighs with all that is in it, or `u64::MAX` where
// that is less.
#[cycle(weighing)]
fn weight_of(entry: &Entry, path: u64) -> u64
    ensures value { (text : List ℕ) → path ≡ min (length text) u64.MAX → result ≡ min (environment_weight text (entry.now ∷ [])) u64.MAX }
{
    match entry {
        Entry::Tycon(entry) => {
            weight_at(path, entry.id.as_slice()).saturating_add(type_weight(&entry.fun.body))
        }
        Entry::Value(entry) => {
            weight_at(path, entry.id.as_slice()).saturating_add(type_weight(&entry.scheme.body))
        }
        Entry::Structure(id, entries) => {
            let inner = path.saturating_add(id.len() as u64).saturating_add(1);
            weight_at(path, id.as_slice()).saturating_add(weight_of_all(entries.as_slice(), inner))
        }
    }
}

// What the entries of a body whose path has so many bytes weigh with all that is in them, or `u64::MAX`
// where that is less.
#[cycle(weighing)]
fn weight_of_all(entries: &[Entry], path: u64) -> u64
    ensures value { (text : List ℕ) → path ≡ min (length text) u64.MAX → result ≡ min (environment_weight text entries.now) u64.MAX }
{
    let mut total: u64 = 0;
    for entry in entries {
        total = total.saturating_add(weight_of(entry, path));
    }
    total
}

// The path of a name's copy: another path in place of the first bytes, which are so many.
fn moved_path(alloc: Global, path: &[u8], count: usize, name: &[u8]) -> Result<Text, NoMemory>
    ensures value { IfOk result (λ moved. moved ≡ path.now ++ drop count name.now) }
{
    let mut moved = Text::from_slice(alloc, path)?;
    if count <= name.len() {
        moved.extend(&name[count..])?;
    }
    Ok(moved)
}

// Adds a copy of the name with this number, whose path has another one in place of its first bytes.
fn copy_name(
    alloc: Global,
    path: &[u8],
    count: usize,
    n: u32,
    progress: &mut Progress,
) -> Result<(), NoMemory>
    requires described { IsTrue (is_described progress.old.table.names n) }
    ensures copied { OnOk result (state_of progress.new ≡ with_copies path.now count (n ∷ []) (state_of progress.old)) }
    ensures mentions { OnOk result (Mentions progress.old progress.new) }
{
    progress.table.is_sound();
    if progress.table.len() == u32::MAX {
        return Err(NoMemory);
    }
    let name = progress.table.name(NameId(n));
    let arity = name.arity;
    let equality = name.equality;
    let path = moved_path(alloc, path, count, name.path.as_slice())?;
    let _ = progress.table.describe(path, arity, equality)?;
    Ok(())
}

// Adds copies of names.
fn copy_names(
    alloc: Global,
    path: &[u8],
    count: usize,
    own: &OwnNames,
    progress: &mut Progress,
) -> Result<(), NoMemory>
    requires described { All (λ n. IsTrue (is_described progress.old.table.names n)) own.now.numbers.items }
    ensures copied { OnOk result (state_of progress.new ≡ with_copies path.now count own.now.numbers.items (state_of progress.old)) }
    ensures mentions { OnOk result (Mentions progress.old progress.new) }
{
    for n in own.numbers.as_slice() {
        copy_name(alloc, path, count, *n, progress)?;
    }
    Ok(())
}

// A copy of a signature, with new names in place of its own, weighed at the token.
fn copy_signature(
    alloc: Global,
    top: Top<'_>,
    token: u32,
    site: &Site<'_>,
    progress: &mut Progress,
) -> Result<Body, ElabRefusal>
    requires begins { Begins progress.old site.now [] }
    requires own { HasOwn (state_of progress.old) top.detail.now top.unit.now }
    requires settled { IsSettled progress.old.table top.unit.now.entries }
    requires distinct { AreDistinct top.unit.now.entries }
    ensures outcome { GivesBody (spec.copied top.entry.unit.now token (site_at progress.old site.now) (state_of progress.old)) result progress.new }
    ensures stands { IfOk result (λ body. StandsFrom (length progress.old.table.names) progress.new site.now body.entries.items) }
    ensures mentions { OnOk result (Mentions progress.old progress.new) }
{
    progress.table.is_sound();
    let entries = top.unit.entries.as_slice();
    progress.weigh(weight_of_all(entries, site.path.len() as u64), token)?;
    let own = &top.detail.own;
    let first = progress.table.len();
    copy_names(alloc, site.path, top.unit.id.len(), own, progress)?;
    let copies = entries_renumbered(alloc, entries, &Numbering::Copied(own, first))?;
    let body = Body::of(alloc, copies)?;
    Ok(body)
}

/// The signature of the identifier at a token, copied.
pub fn named_signature(
    alloc: Global,
    token: u32,
    site: &Site<'_>,
    progress: &mut Progress,
) -> Result<Body, ElabRefusal>
    requires begins { Begins progress.old site.now [] }
    ensures outcome { GivesBody (spec.named_signature token (site_at progress.old site.now) (state_of progress.old)) result progress.new }
    ensures stands { IfOk result (λ body. StandsFrom (length progress.old.table.names) progress.new site.now body.entries.items) }
    ensures mentions { OnOk result (Mentions progress.old progress.new) }
{
    match site.tops.find_signature(site.source.text(token)) {
        None => Err(ElabRefusal::Refused(Why::UnboundSignature, token)),
        Some(top) => copy_signature(alloc, top, token, site, progress),
    }
}
