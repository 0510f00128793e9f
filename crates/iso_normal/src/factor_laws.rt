// Laws of factors and their products.
ghost use Rattle.std.specs.Prelude.{◌≡◌, ◌++◌, List};
ghost use Rattle.type_core.specs.declared.ty.Ty.{Ty};
ghost use Rattle.type_core.specs.Types.{IsType};
ghost use Rattle.iso_axioms.specs.Theory.{IsLinearlyIsomorphic};
ghost use Rattle.iso_normal.specs.declared.factor.Factor.{Factor};
ghost use Rattle.iso_normal.specs.Factors.{AreFactors, factors, factors_of_arrow, type_of_factors};

/// A type reads as factors, and lists of factors may be joined or be the sides of an arrow.
pub fn types_have_factors()
    ensures law { (t : Ty) → AreFactors (factors t) }
    ensures joined { (fs gs : List Factor) → AreFactors fs → AreFactors gs → AreFactors (fs ++ gs) }
    ensures arrow { (fs gs : List Factor) → AreFactors fs → AreFactors gs → AreFactors (factors_of_arrow fs gs) }
{}

/// The product of factors has these factors.
pub fn products_keep_factors()
    ensures law { (t : Ty) → factors (type_of_factors (factors t)) ≡ factors t }
    ensures lists { (fs : List Factor) → AreFactors fs → factors (type_of_factors fs) ≡ fs }
{}

/// A type is linearly isomorphic to the product of its factors.
pub fn types_are_products_of_factors()
    ensures law { (t : Ty) → IsType t → IsLinearlyIsomorphic t (type_of_factors (factors t)) }
{}
