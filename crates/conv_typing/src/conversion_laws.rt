// Laws of conversion.
ghost use Rattle.std.specs.Prelude.{◌≡◌, ◌≢◌, ◌++◌, ◌∷◌, [], ◌+◌, ℕ, List, length, slice_get, Some};
ghost use Rattle.type_core.specs.declared.ty.Ty.{Ty};
ghost use Rattle.type_core.specs.declared.ty.Ty.TheVariants as ty;
ghost use Rattle.type_core.specs.Types.{IsType};
ghost use Rattle.conv_terms.specs.declared.term.Term.{Term};
ghost use Rattle.conv_terms.specs.declared.term.Term.TheVariants as term;
ghost use Rattle.conv_terms.specs.Shifting.{shifted};
ghost use Rattle.conv_terms.specs.Substitution.{substituted, substituted_all};
ghost use Rattle.conv_typing.specs.Typing.{HasType};
ghost use Rattle.conv_typing.specs.Conversion.{Converts, ConvertEach, AreConvertible};

/// Terms that convert have the type at which they do.
pub fn convertible_terms_have_the_type()
    ensures law { (ctx : List Ty) (a : Ty) (t u : Term) → Converts ctx a t u → HasType ctx t a × HasType ctx u a }
{}

/// Conversion is an equivalence on the terms of a type.
pub fn conversion_is_an_equivalence()
    ensures reflexive { (ctx : List Ty) (a : Ty) (t : Term) → HasType ctx t a → Converts ctx a t t }
    ensures symmetric { (ctx : List Ty) (a : Ty) (t u : Term) → Converts ctx a t u → Converts ctx a u t }
    ensures transitive { (ctx : List Ty) (a : Ty) (t u v : Term) → Converts ctx a t u → Converts ctx a u v → Converts ctx a t v }
{}

/// Conversion is kept by every form of term; an abstraction is one over a type.
pub fn forms_keep_conversion()
    ensures abstraction { (ctx : List Ty) (a b : Ty) (t u : Term) → IsType a → Converts (ctx ++ a ∷ []) b t u → Converts ctx (ty.Arrow a b) (term.Lam a t) (term.Lam a u) }
    ensures application { (ctx : List Ty) (a b : Ty) (f g t u : Term) → Converts ctx (ty.Arrow a b) f g → Converts ctx a t u → Converts ctx b (term.App f t) (term.App g u) }
    ensures tuple { (ctx types : List Ty) (ts us : List Term) → length types ≢ 1 → ConvertEach ctx types ts us → Converts ctx (ty.Tup types) (term.Tup ts) (term.Tup us) }
    ensures projection { (ctx types : List Ty) (i : ℕ) (a : Ty) (t u : Term) → length types ≢ 1 → slice_get types i ≡ Some a → Converts ctx (ty.Tup types) t u → Converts ctx a (term.Proj (i + 1) (length types) t) (term.Proj (i + 1) (length types) u) }
{}

/// Conversion is kept where further variables stand in the context.
pub fn shifting_keeps_conversion()
    ensures law { (ctx more inner : List Ty) (a : Ty) (t u : Term) → Converts (ctx ++ inner) a t u → Converts ((ctx ++ more) ++ inner) a (shifted (length ctx) (length more) t) (shifted (length ctx) (length more) u) }
{}

/// Conversion is kept where convertible terms are substituted for the last variable.
pub fn substitution_keeps_conversion()
    ensures law { (ctx : List Ty) (b : Ty) (e f : Term) (a : Ty) (t u : Term) → Converts ctx b e f → Converts (ctx ++ b ∷ []) a t u → Converts ctx a (substituted (length ctx) e t) (substituted (length ctx) f u) }
{}

/// Conversion is kept where convertible terms are substituted for all variables of a context.
pub fn substituting_all_keeps_conversion()
    ensures law { (ctx others inner : List Ty) (terms alike : ℕ → Term) (a : Ty) (t u : Term) → AreConvertible terms alike ctx others → Converts (ctx ++ inner) a t u → Converts (others ++ inner) a (substituted_all (length ctx) (length others) terms t (length inner)) (substituted_all (length ctx) (length others) alike u (length inner)) }
{}
