// Laws of direct converters and of short ones.
ghost use Rattle.std.specs.Prelude.{◌≡◌, ℕ, List};
ghost use Rattle.type_core.specs.declared.ty.Ty.{Ty};
ghost use Rattle.type_core.specs.Coordinates.{coordinates};
ghost use Rattle.type_core.specs.Types.{IsType};
ghost use Rattle.iso_normal.specs.declared.pair_tree.PairTree.{PairTree};
ghost use Rattle.iso_normal.specs.PairTrees.{inverse};
ghost use Rattle.iso_normal.specs.Pairings.{Pairs};
ghost use Rattle.conv_terms.specs.declared.term.Term.{Term};
ghost use Rattle.conv_terms.specs.LongForm.{IsLongForm};
ghost use Rattle.conv_terms.specs.Contraction.{IsContraction};
ghost use Rattle.conv_typing.specs.InversePair.{IsInversePair};
ghost use Rattle.conv_plain.specs.PlainConverter.{plain_converter};
ghost use Rattle.conv_build.specs.ShortConverter.{IsShortConverter};
ghost use Rattle.conv_build.specs.direct.References.{Hole};
ghost use Rattle.conv_build.specs.direct.LongSides.{joined, spine};
ghost use Rattle.conv_build.specs.direct.DirectConverter.{direct_converter, direct_converter_back};
ghost use Rattle.conv_build.specs.direct.TwoPasses.{built, filled, leaves, reached, way};

/// The direct converters are the long forms of the plain ones.
pub fn direct_converters_are_long_forms()
    ensures to { (a b : Ty) (p : PairTree) → IsType a → IsType b → Pairs ◌≡◌ (coordinates a) (coordinates b) p → IsLongForm 0 (plain_converter a b p) (direct_converter a b p) }
    ensures from { (a b : Ty) (p : PairTree) → IsType a → IsType b → Pairs ◌≡◌ (coordinates a) (coordinates b) p → IsLongForm 0 (plain_converter b a (inverse p)) (direct_converter_back a b p) }
    ensures back { (a b : Ty) (p : PairTree) → IsType a → IsType b → Pairs ◌≡◌ (coordinates a) (coordinates b) p → direct_converter_back a b p ≡ direct_converter b a (inverse p) }
{}

/// What the direct converters contract to are the short ones.
pub fn contracted_direct_converters_are_short()
    ensures to { (a b : Ty) (p : PairTree) (to : Term) → IsType a → IsType b → Pairs ◌≡◌ (coordinates a) (coordinates b) p → IsContraction 0 (direct_converter a b p) to → IsShortConverter a b p to }
    ensures from { (a b : Ty) (p : PairTree) (from : Term) → IsType a → IsType b → Pairs ◌≡◌ (coordinates a) (coordinates b) p → IsContraction 0 (direct_converter_back a b p) from → IsShortConverter b a (inverse p) from }
{}

/// There is one short converter of a pairing, and that of its inverse undoes it.
pub fn short_converters_are_inverse()
    ensures exists { (a b : Ty) (p : PairTree) → IsType a → IsType b → Pairs ◌≡◌ (coordinates a) (coordinates b) p → (t : Term) × IsShortConverter a b p t }
    ensures one { (a b : Ty) (p : PairTree) (t u : Term) → IsShortConverter a b p t → IsShortConverter a b p u → t ≡ u }
    ensures inverse { (a b : Ty) (p : PairTree) (to from : Term) → IsType a → IsType b → Pairs ◌≡◌ (coordinates a) (coordinates b) p → IsShortConverter a b p to → IsShortConverter b a (inverse p) from → IsInversePair a b to from }
{}

/// Holes are joined where the atoms of the type stand.
pub fn joining_in_two_passes()
    ensures law { (t : Ty) (n : ℕ) (holes : List Hole) → joined t n holes ≡ built t (filled holes (leaves t n)) }
{}

/// A coordinate is at its arguments where the atoms of these stand.
pub fn coordinates_at_arguments_in_two_passes()
    ensures law { (t : Ty) (place n : ℕ) (e : Term) (holes : List Hole) → spine t place n e holes ≡ reached t place e (filled holes (way t place n)) }
{}
