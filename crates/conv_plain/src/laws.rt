// Laws of splitting, joining and moving, and of plain converters.
ghost use Rattle.std.specs.Prelude.{◌≡◌, ℕ, List, Some, length, slice_get};
ghost use Rattle.std.specs.List.{All};
ghost use Rattle.type_core.specs.declared.ty.Ty.{Ty};
ghost use Rattle.type_core.specs.declared.coordinate.Coordinate.{Coordinate};
ghost use Rattle.type_core.specs.Coordinates.{arguments_of, coordinates};
ghost use Rattle.type_core.specs.Types.{IsType};
ghost use Rattle.iso_axioms.specs.Theory.{IsIsomorphic};
ghost use Rattle.iso_normal.specs.declared.pair_tree.PairTree.{PairTree};
ghost use Rattle.iso_normal.specs.declared.pair_tree.Entry.{Entry};
ghost use Rattle.iso_normal.specs.PairTrees.{args_of, entries_of, inverse, place_of};
ghost use Rattle.iso_normal.specs.Pairings.{Pairs};
ghost use Rattle.conv_terms.specs.declared.term.Term.{Term};
ghost use Rattle.conv_typing.specs.Typing.{HasType, HaveTypes};
ghost use Rattle.conv_typing.specs.Conversion.{Converts, ConvertEach};
ghost use Rattle.conv_typing.specs.InversePair.{IsInversePair};
ghost use Rattle.conv_plain.specs.CoordinateTypes.{coordinate_types, types_of};
ghost use Rattle.conv_plain.specs.SplitJoin.{split, join};
ghost use Rattle.conv_plain.specs.Moving.{carried, moved, moved_back};
ghost use Rattle.conv_plain.specs.PlainConverter.{plain_converter};

/// The types of the coordinates of a type are types.
pub fn coordinates_have_types()
    ensures law { (a : Ty) → IsType a → All IsType (coordinate_types a) }
{}

/// What splitting gives, joining takes and moving makes are terms of the types of coordinates.
pub fn splitting_joining_and_moving_keep_types()
    ensures split { (ctx : List Ty) (a : Ty) (e : Term) → IsType a → HasType ctx e a → HaveTypes ctx (split a (length ctx) e) (coordinate_types a) }
    ensures join { (ctx : List Ty) (a : Ty) (es : List Term) → IsType a → HaveTypes ctx es (coordinate_types a) → HasType ctx (join a (length ctx) es) a }
    ensures moved { (ctx : List Ty) (c d : List Coordinate) (p : PairTree) (es : List Term) → All IsType (types_of c) → All IsType (types_of d) → Pairs ◌≡◌ c d p → HaveTypes ctx es (types_of c) → HaveTypes ctx (moved p c d (length ctx) es) (types_of d) }
{}

/// A term that is split and joined again, and terms that are joined and split again, convert to what they were.
pub fn splitting_and_joining_undo_each_other()
    ensures joined { (ctx : List Ty) (a : Ty) (e : Term) → IsType a → HasType ctx e a → Converts ctx a (join a (length ctx) (split a (length ctx) e)) e }
    ensures split { (ctx : List Ty) (a : Ty) (es : List Term) → IsType a → HaveTypes ctx es (coordinate_types a) → ConvertEach ctx (coordinate_types a) (split a (length ctx) (join a (length ctx) es)) es }
{}

/// There is a term for each coordinate. At the place of an entry stands its term, which takes the arguments of the coordinate there and is applied to what
/// these are moved to along the inverse of the entry's pairing.
pub fn places_have_the_terms_of_their_entries()
    ensures count { (p : PairTree) (c d : List Coordinate) (n : ℕ) (es : List Term) → length (moved p c d n es) ≡ length d }
    ensures law { (p : PairTree) (c d : List Coordinate) (i n : ℕ) (e : Entry) (one other : Coordinate) (es : List Term) (t : Term) → Pairs ◌≡◌ c d p → slice_get (entries_of p) i ≡ Some e → slice_get c i ≡ Some one → slice_get d (place_of e) ≡ Some other → slice_get es i ≡ Some t → slice_get (moved p c d n es) (place_of e) ≡ Some (carried (types_of (arguments_of other)) (moved (inverse (args_of e)) (arguments_of other) (arguments_of one)) n t) }
{}

/// Moving back along a pairing is moving along its inverse.
pub fn moving_back_is_moving_along_the_inverse()
    ensures law { (p : PairTree) (c d : List Coordinate) (n : ℕ) (es : List Term) → Pairs ◌≡◌ c d p → length es ≡ length d → moved_back p c d n es ≡ moved (inverse p) d c n es }
{}

/// Terms that are moved along a pairing and then along its inverse convert to what they were.
pub fn moving_there_and_back_undoes_itself()
    ensures law { (ctx : List Ty) (c d : List Coordinate) (p : PairTree) (es : List Term) → All IsType (types_of c) → All IsType (types_of d) → Pairs ◌≡◌ c d p → HaveTypes ctx es (types_of c) → ConvertEach ctx (types_of c) (moved (inverse p) d c (length ctx) (moved p c d (length ctx) es)) es }
{}

/// The plain converters of a pairing and of its inverse are an inverse pair.
pub fn plain_converters_are_inverse()
    ensures law { (a b : Ty) (p : PairTree) → IsType a → IsType b → Pairs ◌≡◌ (coordinates a) (coordinates b) p → IsInversePair a b (plain_converter a b p) (plain_converter b a (inverse p)) }
{}

/// Isomorphic types have an inverse pair.
pub fn isomorphic_types_have_inverse_pairs()
    ensures law { (a b : Ty) → IsIsomorphic a b → (to : Term) × (from : Term) × IsInversePair a b to from }
{}
