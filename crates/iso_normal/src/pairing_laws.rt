// Laws of pairings.
ghost use Rattle.std.specs.Prelude.{◌≡◌, List};
ghost use Rattle.type_core.specs.declared.coordinate.Coordinate.{Coordinate};
ghost use Rattle.type_core.specs.Renaming.{Renaming, renamed};
ghost use Rattle.iso_normal.specs.declared.pair_tree.PairTree.{PairTree};
ghost use Rattle.iso_normal.specs.Pairings.{Pairs};
ghost use Rattle.iso_normal.specs.PairTrees.{IsPermuted, inverse};

/// The places of a pairing are a permutation at each level.
pub fn pairings_are_permuted()
    ensures law { (c d : List Coordinate) (p : PairTree) → Pairs ◌≡◌ c d p → IsPermuted p }
    ensures renamed { (r : Renaming) (c d : List Coordinate) (p : PairTree)
        → Pairs (λ h k. renamed r h ≡ k) c d p → IsPermuted p }
{}

/// The inverse of a pairing of c with d is one of d with c.
pub fn inverses_pair()
    ensures law { (c d : List Coordinate) (p : PairTree) → Pairs ◌≡◌ c d p → Pairs ◌≡◌ d c (inverse p) }
{}

/// The inverse of the inverse is the pairing itself.
pub fn inverting_twice_changes_nothing()
    ensures permuted { (p : PairTree) → IsPermuted p → IsPermuted (inverse p) }
    ensures law { (p : PairTree) → IsPermuted p → inverse (inverse p) ≡ p }
{}
