// Type constructors that were found.
use crate::entry::TypeEntry;
use crate::scope::Scope;

/// A type constructor that was found, and the environment in which it stands.
#[derive(Clone, Copy)]
pub struct Found<'a> {
    pub entry: &'a TypeEntry,
    pub env: Scope<'a>,
}

/// What a long identifier stands for: a type constructor that was found, none, or a name from elsewhere.
#[derive(Clone, Copy)]
pub enum Sought<'a> {
    Known(Found<'a>),
    Missing,
    Elsewhere,
}
