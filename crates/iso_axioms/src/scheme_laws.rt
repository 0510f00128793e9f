// Laws of equality of schemes in a theory.
ghost use Rattle.std.specs.Prelude.{◌≡◌, ◌↔◌};
ghost use Rattle.type_core.specs.declared.ty.Scheme.{Scheme};
ghost use Rattle.type_core.specs.Renaming.{AreEqualUpToNames};
ghost use Rattle.type_core.specs.Types.{IsType};
ghost use Rattle.iso_axioms.specs.SchemeEquality.{AreEqualIn, IsEquivalence};
ghost use Rattle.iso_axioms.specs.Theory.{IsIsomorphic, IsLinearlyIsomorphic};

/// In the theory of identity, schemes are equal where they are equal up to the names of variables.
pub fn identity_is_equality_up_to_names()
    ensures law { (a b : Scheme) → AreEqualIn ◌≡◌ a b ↔ AreEqualUpToNames a b }
{}

/// Schemes of types that are equal in one theory are so in the next one: that of identity, the linear one, that of
/// isomorphisms.
pub fn scheme_equalities_are_nested()
    ensures linear { (a b : Scheme) → IsType b.body → AreEqualUpToNames a b → AreEqualIn IsLinearlyIsomorphic a b }
    ensures isomorphic { (a b : Scheme) → AreEqualIn IsLinearlyIsomorphic a b → AreEqualIn IsIsomorphic a b }
{}

/// Equality of schemes is an equivalence, up to names as in both theories.
pub fn scheme_equalities_are_equivalences()
    ensures up_to_names { IsEquivalence AreEqualUpToNames }
    ensures linear { IsEquivalence (AreEqualIn IsLinearlyIsomorphic) }
    ensures isomorphic { IsEquivalence (AreEqualIn IsIsomorphic) }
{}
