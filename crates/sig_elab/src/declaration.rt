// What a declaration is over.
ghost use Rattle.std.specs.Prelude.{◌≡◌, ℕ, List, bytes_eq, is_some, not};
ghost use Rattle.std.specs.Coded.{Coded-set, codes};
ghost use Rattle.elab_types.specs.Finding.{none_of};
ghost use Rattle.elab_rules.specs.InitialEnvironment.{initial_environment};
ghost use Rattle.elab_types.specs.Places.{place_at};
ghost use Rattle.elab_types.specs.Sources.{text_at};
ghost use Rattle.elab_types.specs.Views.{texts};
ghost use Rattle.elab_rules.specs.contracts.entry.Entry as entries;

use elab_rules::scope::Scope;
use elab_types::{Places, Source};
use sig_parser::Bind;
use type_core::UnitKind;

/// What a declaration is over: its file, its bindings with their identifiers, how many units of the file come
/// before it, and the initial environment.
#[derive(Clone, Copy)]
pub struct Declaration<'a> {
    pub source: Source<'a>,
    pub kind: UnitKind,
    pub binds: &'a [Bind],
    pub declaring: &'a Places,
    pub count: usize,
    pub initial: Scope<'a>,
    ghost declared: { (id : List ℕ) → is_some (place_at declaring.now id) ≡ not (none_of (λ bind. bytes_eq id (text_at (texts source) bind.id)) binds.now) },
    ghost is_initial: { initial.entries.now ≡ initial_environment } by { Prim.hlevel (codes, Coded-set, entries.the_row.coded) },
}
