// Laws of least pairings.
ghost use Rattle.std.specs.Prelude.{◌≡◌, IsTrue, List};
ghost use Rattle.type_core.specs.declared.coordinate.Coordinate.{Coordinate};
ghost use Rattle.type_core.specs.declared.ty.VarId.{VarId};
ghost use Rattle.type_core.specs.Renaming.{Renaming};
ghost use Rattle.type_core.specs.Variables.{occurs};
ghost use Rattle.iso_normal.specs.declared.pair_tree.PairTree.{PairTree};
ghost use Rattle.iso_normal.specs.Consistency.{variables_among};
ghost use Rattle.coord_match.specs.LeastPairing.{IsLeast, IsLeastIdentical};

/// There is at most one least pairing, and one renaming of the variables under which it is consistent.
pub fn least_pairings_are_one()
    ensures pairing { (r s : Renaming) (a b : List Coordinate) (p q : PairTree) → IsLeast r a b p
        → IsLeast s a b q → p ≡ q }
    ensures renaming { (r s : Renaming) (a b : List Coordinate) (p q : PairTree) → IsLeast r a b p
        → IsLeast s a b q → (v : VarId) → IsTrue (occurs v (variables_among a)) → r v ≡ s v }
{}

/// There is at most one least pairing with identical heads.
pub fn least_identical_pairings_are_one()
    ensures pairing { (a b : List Coordinate) (p q : PairTree) → IsLeastIdentical a b p → IsLeastIdentical a b q
        → p ≡ q }
{}
