// Laws of words and of the trees that they tell.
ghost use Rattle.std.specs.Prelude.{◌≡◌, ◌⊎◌, ℕ, List, length};
ghost use Rattle.type_core.specs.declared.coordinate.Coordinate.{Coordinate};
ghost use Rattle.type_core.specs.Renaming.{Renaming};
ghost use Rattle.iso_normal.specs.declared.pair_tree.PairTree.{PairTree};
ghost use Rattle.iso_normal.specs.Consistency.{Turns};
ghost use Rattle.iso_normal.specs.Pairings.{Pairs};
ghost use Rattle.iso_normal.specs.PairTrees.{word_of};
ghost use Rattle.iso_normal.specs.Shapes.{HasShape, nodes_of};
ghost use Rattle.iso_normal.specs.WordOrder.{IsNotAfter};

/// A pairing has the shape of its coordinates.
pub fn pairings_have_shapes()
    ensures law { (c d : List Coordinate) (p : PairTree) → Pairs ◌≡◌ c d p → HasShape c p }
    ensures renamed { (r : Renaming) (c d : List Coordinate) (p : PairTree) → Pairs (Turns r) c d p → HasShape c p }
{}

/// A tree of the shape of some coordinates has as many letters as they are at all depths, and is told by its word.
pub fn words_tell_trees()
    ensures long { (c : List Coordinate) (p : PairTree) → HasShape c p → length (word_of p) ≡ nodes_of c }
    ensures one { (c : List Coordinate) (p q : PairTree) → HasShape c p → HasShape c q → word_of p ≡ word_of q → p ≡ q }
{}

/// Words are totally ordered.
pub fn words_are_totally_ordered()
    ensures reflexive { (v : List ℕ) → IsNotAfter v v }
    ensures antisymmetric { (v w : List ℕ) → IsNotAfter v w → IsNotAfter w v → v ≡ w }
    ensures transitive { (u v w : List ℕ) → IsNotAfter u v → IsNotAfter v w → IsNotAfter u w }
    ensures total { (v w : List ℕ) → IsNotAfter v w ⊎ IsNotAfter w v }
{}
