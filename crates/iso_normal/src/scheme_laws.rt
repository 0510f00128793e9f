// Equality of schemes up to isomorphism, by pairings.
ghost use Rattle.std.specs.Prelude.{◌↔◌};
ghost use Rattle.type_core.specs.Coordinates.{coordinates};
ghost use Rattle.type_core.specs.Renaming.{Renaming};
ghost use Rattle.type_core.specs.Types.{IsType};
ghost use Rattle.type_core.specs.declared.ty.Scheme.{Scheme};
ghost use Rattle.iso_axioms.specs.SchemeEquality.{AreEqualIn};
ghost use Rattle.iso_axioms.specs.Theory.{IsIsomorphic};
ghost use Rattle.iso_normal.specs.Consistency.{IsConsistent};
ghost use Rattle.iso_normal.specs.declared.pair_tree.PairTree.{PairTree};

/// Two schemes are equal up to isomorphism exactly where a pairing of their coordinates is consistent under some
/// renaming of the variables that occur in those of the first.
pub fn isomorphic_schemes_have_pairings()
    ensures law { (a b : Scheme) → IsType a.body → IsType b.body → AreEqualIn IsIsomorphic a b
        ↔ ((r : Renaming) × (p : PairTree) × IsConsistent r (coordinates a.body) (coordinates b.body) p) }
{}
