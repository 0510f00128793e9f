// Terms.
use sig_base::{Boxed, List};
use type_core::Ty;

/// A term of the simply typed lambda calculus with tuples, where `unit` is the tuple of none.
#[cycle(term)]
#[derive(Drop)]
pub enum Term {
    /// A variable: the number of binders that enclose its own binder, counted from the outside.
    Var(u32),
    /// An abstraction, with the type of its variable.
    Lam(Boxed<Ty>, Boxed<Term>),
    /// A function applied to an argument.
    App(Boxed<Term>, Boxed<Term>),
    /// A tuple.
    Tup(List<Term>),
    /// Component `.0`, counted from 1, of `.1` components.
    Proj(u32, u32, Boxed<Term>),
}
