// Lists of one factor.
ghost use Rattle.std.specs.Prelude.{◌≡◌, ◌∷◌, [], None, IfSome};
ghost use Rattle.type_core.specs.declared.ty.Ty.{Ty};
ghost use Rattle.iso_normal.specs.Factors.{IsNotOneArrow};
ghost use Rattle.iso_normal.specs.declared.factor.Factor.{Factor};
ghost use Rattle.iso_normal.specs.declared.factor.Factor.TheOpen.{Arr, Atom};
ghost use Rattle.iso_normal.specs.declared.factor.Factor.TheViews.{out-Factor};

use iso_normal::Factor;
use type_core::Ty;

/// The type of the atom, where the factors are one atom.
pub fn single_atom(factors: &[Factor]) -> Option<&Ty>
    ensures found { IfSome result (λ t. (f : Factor) × (factors.now ≡ f ∷ []) × (out-Factor f ≡ Atom t.now)) }
    ensures none { result ≡ None → (f : Factor) → (t : Ty) → factors.now ≡ f ∷ [] → out-Factor f ≡ Atom t → ⊥ }
{
    if factors.len() != 1 {
        return None;
    }
    match &factors[0] {
        Factor::Atom(t) => Some(t),
        Factor::Arr(_, _) => None,
    }
}

/// The arguments and the results of the arrow, where the factors are one arrow.
pub fn single_arrow(factors: &[Factor]) -> Option<(&[Factor], &[Factor])>
    ensures found { IfSome result (λ sides.
        (f : Factor) × (factors.now ≡ f ∷ []) × (out-Factor f ≡ Arr sides.0.now sides.1.now)) }
    ensures none { result ≡ None → IsNotOneArrow factors.now }
{
    if factors.len() != 1 {
        return None;
    }
    match &factors[0] {
        Factor::Atom(_) => None,
        Factor::Arr(arguments, results) => Some((arguments.as_slice(), results.as_slice())),
    }
}
