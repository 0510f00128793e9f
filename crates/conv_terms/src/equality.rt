// Equality of terms.
ghost use Rattle.std.specs.Prelude.{◌≡◌, ◌↔◌, IsTrue};

use crate::term::Term;
use type_core::same as is_same_type;

/// Whether the two are one term.
#[cycle(same)]
pub fn same(t: &Term, u: &Term) -> bool
    ensures value { IsTrue result ↔ (t.now ≡ u.now) }
{
    match (t, u) {
        (Term::Var(n), Term::Var(m)) => n == m,
        (Term::Lam(a, body), Term::Lam(b, other)) => {
            is_same_type(a.get(), b.get()) && same(body.get(), other.get())
        }
        (Term::App(f, e), Term::App(g, u)) => same(f.get(), g.get()) && same(e.get(), u.get()),
        (Term::Tup(components), Term::Tup(others)) => {
            same_all(components.as_slice(), others.as_slice())
        }
        (Term::Proj(i, n, e), Term::Proj(j, m, u)) => i == j && n == m && same(e.get(), u.get()),
        _ => false,
    }
}

#[cycle(same)]
fn same_all(components: &[Term], others: &[Term]) -> bool
    ensures value { IsTrue result ↔ (components.now ≡ others.now) }
{
    if components.len() != others.len() {
        return false;
    }
    for i in 0..components.len() {
        if !same(&components[i], &others[i]) {
            return false;
        }
    }
    true
}
