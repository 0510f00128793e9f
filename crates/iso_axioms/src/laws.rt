// Laws of the two theories.
ghost use Rattle.std.specs.Prelude.{List, ◌∷◌, ◌++◌};
ghost use Rattle.std.specs.List.{All};
ghost use Rattle.type_core.specs.declared.ty.Ty.{Ty};
ghost use Rattle.type_core.specs.declared.ty.Ty.TheVariants as ty;
ghost use Rattle.type_core.specs.Renaming.{Renaming, renamed};
ghost use Rattle.type_core.specs.Substitution.{substituted};
ghost use Rattle.type_core.specs.Types.{IsType};
ghost use Rattle.iso_axioms.specs.Axioms.{◌⇒◌};
ghost use Rattle.iso_axioms.specs.Theory.{IsIsomorphic, IsLinearlyIsomorphic};

/// Both theories relate types alone.
pub fn theories_relate_types()
    ensures isomorphic { (a b : Ty) → IsIsomorphic a b → IsType a × IsType b }
    ensures linear { (a b : Ty) → IsLinearlyIsomorphic a b → IsType a × IsType b }
{}

/// Each type is equal to itself, equality may be turned round, and two equalities may be joined.
pub fn theories_are_equivalences()
    ensures reflexive { (a : Ty) → IsType a → IsIsomorphic a a × IsLinearlyIsomorphic a a }
    ensures symmetric { (a b : Ty) → IsIsomorphic a b → IsIsomorphic b a }
    ensures linear_symmetric { (a b : Ty) → IsLinearlyIsomorphic a b → IsLinearlyIsomorphic b a }
    ensures transitive { (a b c : Ty) → IsIsomorphic a b → IsIsomorphic b c → IsIsomorphic a c }
    ensures linear_transitive { (a b c : Ty) → IsLinearlyIsomorphic a b → IsLinearlyIsomorphic b c
        → IsLinearlyIsomorphic a c }
{}

/// Both sides of an arrow and the components of a tuple may be replaced by equal ones.
pub fn theories_are_closed()
    ensures arrow { (a b c d : Ty) → IsIsomorphic a b → IsIsomorphic c d → IsIsomorphic (a ⇒ c) (b ⇒ d) }
    ensures linear_arrow { (a b c d : Ty) → IsLinearlyIsomorphic a b → IsLinearlyIsomorphic c d
        → IsLinearlyIsomorphic (a ⇒ c) (b ⇒ d) }
    ensures component { (before after : List Ty) (a b : Ty) → IsType (ty.Tup (before ++ a ∷ after))
        → IsIsomorphic a b → IsIsomorphic (ty.Tup (before ++ a ∷ after)) (ty.Tup (before ++ b ∷ after)) }
    ensures linear_component { (before after : List Ty) (a b : Ty) → IsType (ty.Tup (before ++ a ∷ after))
        → IsLinearlyIsomorphic a b
        → IsLinearlyIsomorphic (ty.Tup (before ++ a ∷ after)) (ty.Tup (before ++ b ∷ after)) }
{}

/// What is linearly isomorphic is isomorphic.
pub fn linear_is_isomorphic()
    ensures law { (a b : Ty) → IsLinearlyIsomorphic a b → IsIsomorphic a b }
{}

/// Types may be substituted for the variables of equal types.
pub fn substitution_keeps_theories()
    ensures isomorphic { (by : List Ty) (a b : Ty) → All IsType by → IsIsomorphic a b
        → IsIsomorphic (substituted by a) (substituted by b) }
    ensures linear { (by : List Ty) (a b : Ty) → All IsType by → IsLinearlyIsomorphic a b
        → IsLinearlyIsomorphic (substituted by a) (substituted by b) }
{}

/// The variables of equal types may be renamed.
pub fn renaming_keeps_theories()
    ensures isomorphic { (r : Renaming) (a b : Ty) → IsIsomorphic a b → IsIsomorphic (renamed r a) (renamed r b) }
    ensures linear { (r : Renaming) (a b : Ty) → IsLinearlyIsomorphic a b
        → IsLinearlyIsomorphic (renamed r a) (renamed r b) }
{}
