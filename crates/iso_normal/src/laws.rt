// Equality in both theories, by normal forms.
ghost use Rattle.std.specs.Prelude.{◌≡◌, ◌↔◌};
ghost use Rattle.type_core.specs.Coordinates.{coordinates};
ghost use Rattle.type_core.specs.declared.ty.Ty.{Ty};
ghost use Rattle.type_core.specs.Types.{IsType};
ghost use Rattle.iso_axioms.specs.Theory.{IsIsomorphic, IsLinearlyIsomorphic};
ghost use Rattle.iso_normal.specs.declared.pair_tree.PairTree.{PairTree};
ghost use Rattle.iso_normal.specs.Agreement.{Agree};
ghost use Rattle.iso_normal.specs.Factors.{factors};
ghost use Rattle.iso_normal.specs.Pairings.{Pairs};

/// Two types are isomorphic exactly where their coordinates can be paired.
pub fn isomorphic_types_have_pairings()
    ensures law { (a b : Ty) → IsType a → IsType b → IsIsomorphic a b
        ↔ ((p : PairTree) × Pairs ◌≡◌ (coordinates a) (coordinates b) p) }
{}

/// Two types are linearly isomorphic exactly where their factors agree.
pub fn linearly_isomorphic_types_have_like_factors()
    ensures law { (a b : Ty) → IsType a → IsType b → IsLinearlyIsomorphic a b ↔ Agree (factors a) (factors b) }
{}
