// Where a type expression stands.
use crate::scope::Scope;
use crate::site::Site;
use crate::variables::Variables;
use elab_types::Source;

/// Where a type expression stands: the site and the body so far, the first token of the whole expression, and
/// the variables that may stand in it.
#[derive(Clone, Copy)]
pub struct Place<'a, 'b> {
    pub site: Site<'a>,
    pub own: Scope<'b>,
    pub first: u32,
    pub variables: Variables<'b>,
}
