// Where a body stands.
ghost use Rattle.std.specs.Prelude.{◌≡◌, ℕ, List, bytes_eq, is_some, map, not};
ghost use Rattle.std.specs.Coded.{Coded-set, codes};
ghost use Rattle.elab_types.specs.Finding.{none_of};
ghost use Rattle.elab_rules.specs.InitialEnvironment.{initial_environment};
ghost use Rattle.elab_types.specs.Places.{place_at};
ghost use Rattle.elab_types.specs.Sources.{text_at, texts_of};
ghost use Rattle.elab_rules.specs.contracts.entry.Entry as entries;

use crate::scope::Scope;
use crate::tops::Tops;
use elab_types::{Places, Source};
use sig_parser::Bind;

/// Where a body stands: the file, the path of the body, the bodies around it from without inwards, the number
/// of names when it began, the top identifiers that were declared before, those of the present declaration
/// with their texts, and the initial environment.
#[derive(Clone, Copy)]
pub struct Site<'a> {
    pub source: Source<'a>,
    pub path: &'a [u8],
    pub around: &'a [Scope<'a>],
    pub base: u32,
    pub tops: Tops<'a>,
    pub binds: &'a [Bind],
    pub declaring: &'a Places,
    pub initial: Scope<'a>,
    ghost declared: { (id : List ℕ) → is_some (place_at declaring.now id) ≡ not (none_of (λ bind. bytes_eq id (text_at (texts_of source.bytes.now source.tokens.now) bind.id)) binds.now) },
    ghost is_initial: { initial.entries.now ≡ initial_environment } by { Prim.hlevel (codes, Coded-set, entries.the_row.coded) },
}
