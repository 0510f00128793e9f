// Laws of pairings that are consistent under a renaming.
ghost use Rattle.std.specs.Prelude.{◌≡◌, ◌↔◌, IsTrue, List, map};
ghost use Rattle.type_core.specs.declared.coordinate.Coordinate.{Coordinate};
ghost use Rattle.type_core.specs.declared.ty.Ty.{Ty};
ghost use Rattle.type_core.specs.declared.ty.VarId.{VarId};
ghost use Rattle.type_core.specs.Coordinates.{coordinates};
ghost use Rattle.type_core.specs.Renaming.{Renaming, renamed};
ghost use Rattle.type_core.specs.Variables.{occurs};
ghost use Rattle.iso_normal.specs.declared.pair_tree.PairTree.{PairTree};
ghost use Rattle.iso_normal.specs.Consistency.{IsConsistent, Turns, renamed_coordinate, variables_among};
ghost use Rattle.iso_normal.specs.Pairings.{Pairs};

/// The coordinates of a renamed type are its coordinates, renamed.
pub fn coordinates_are_renamed()
    ensures law { (r : Renaming) (t : Ty) → coordinates (renamed r t) ≡ map (renamed_coordinate r) (coordinates t) }
{}

/// A pairing whose heads a renaming turns into their partners' pairs the renamed coordinates identically.
pub fn renamed_coordinates_are_paired()
    ensures law { (r : Renaming) (c d : List Coordinate) (p : PairTree) → Pairs (Turns r) c d p
        ↔ Pairs ◌≡◌ (map (renamed_coordinate r) c) d p }
    ensures consistent { (r : Renaming) (t : Ty) (d : List Coordinate) (p : PairTree)
        → IsConsistent r (coordinates t) d p → Pairs ◌≡◌ (coordinates (renamed r t)) d p }
{}

/// A pairing fixes what a renaming under which it is consistent makes of the variables of its coordinates.
pub fn pairings_fix_renamings()
    ensures law { (r s : Renaming) (c d : List Coordinate) (p : PairTree)
        → Pairs (Turns r) c d p → Pairs (Turns s) c d p
        → (v : VarId) → IsTrue (occurs v (variables_among c)) → r v ≡ s v }
{}
