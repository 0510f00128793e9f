// Laws of inverse pairs.
ghost use Rattle.std.specs.Prelude.{[]};
ghost use Rattle.type_core.specs.declared.ty.Ty.{Ty};
ghost use Rattle.type_core.specs.declared.ty.Ty.TheVariants as ty;
ghost use Rattle.type_core.specs.Types.{IsType};
ghost use Rattle.conv_terms.specs.declared.term.Term.{Term};
ghost use Rattle.conv_typing.specs.Conversion.{Converts};
ghost use Rattle.conv_typing.specs.InversePair.{IsInversePair, identity};

/// The identity of a type undoes itself.
pub fn identities_are_inverse()
    ensures law { (a : Ty) → IsType a → IsInversePair a a (identity a) (identity a) }
{}

/// An inverse pair turned round is one.
pub fn inverse_pairs_turn_round()
    ensures law { (a b : Ty) (to from : Term) → IsInversePair a b to from → IsInversePair b a from to }
{}

/// An inverse pair stays one where each of its terms is converted.
pub fn conversion_keeps_inverse_pairs()
    ensures law { (a b : Ty) (to from other back : Term) → IsInversePair a b to from → Converts [] (ty.Arrow a b) to other → Converts [] (ty.Arrow b a) from back → IsInversePair a b other back }
{}
