// Laws of agreement between lists of factors.
ghost use Rattle.std.specs.Prelude.{◌≡◌, ◌++◌, List};
ghost use Rattle.iso_normal.specs.declared.factor.Factor.{Factor};
ghost use Rattle.iso_normal.specs.Agreement.{Agree};
ghost use Rattle.iso_normal.specs.Factors.{factors_of_arrow};

/// Agreement is an equivalence.
pub fn agreement_is_an_equivalence()
    ensures reflexive { (fs : List Factor) → Agree fs fs }
    ensures symmetric { (fs gs : List Factor) → Agree fs gs → Agree gs fs }
    ensures transitive { (fs gs hs : List Factor) → Agree fs gs → Agree gs hs → Agree fs hs }
{}

/// Lists may be joined in either order, and lists that agree may be joined or be the sides of an arrow.
pub fn agreement_is_kept()
    ensures either_order { (fs gs : List Factor) → Agree (fs ++ gs) (gs ++ fs) }
    ensures joined { (fs gs hs ks : List Factor) → Agree fs gs → Agree hs ks → Agree (fs ++ hs) (gs ++ ks) }
    ensures arrow { (fs gs hs ks : List Factor) → Agree fs gs → Agree hs ks
        → Agree (factors_of_arrow fs hs) (factors_of_arrow gs ks) }
{}

/// An arrow from two lists has the factors of the arrow from the first to that from the second.
pub fn factors_are_curried()
    ensures law { (fs gs results : List Factor)
        → factors_of_arrow (fs ++ gs) results ≡ factors_of_arrow fs (factors_of_arrow gs results) }
{}
