// Where a query is read.
ghost use Rattle.std.specs.Prelude.{◌≡◌};
ghost use Rattle.type_core.specs.InitialNames.{initial_names};

use elab_types::Source;
use type_core::{Library, TypeName};

/// Where a query is read: its text, the library, and the initial names.
#[derive(Clone, Copy)]
pub struct Place<'a> {
    pub source: Source<'a>,
    pub library: &'a Library,
    pub initial: &'a [TypeName],
    ghost is_initial: { initial.now ≡ initial_names },
}
