// The top identifiers that a declaration sees.
ghost use Rattle.std.specs.Prelude.{◌≤◌, length};

use crate::units::Units;

/// The top identifiers that a declaration sees: those of the files before its own, and those that its own
/// file declared before it, which are so many.
#[derive(Clone, Copy)]
pub struct Tops<'a> {
    pub before: &'a Units,
    pub added: &'a Units,
    pub count: usize,
    ghost within: { count ≤ length added.now.entries.items },
}
