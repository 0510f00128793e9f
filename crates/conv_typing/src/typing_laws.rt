// Laws of typing.
ghost use Rattle.std.specs.Prelude.{◌≡◌, ◌++◌, ◌∷◌, [], ℕ, List, length};
ghost use Rattle.type_core.specs.declared.ty.Ty.{Ty};
ghost use Rattle.type_core.specs.Types.{IsType};
ghost use Rattle.conv_terms.specs.declared.term.Term.{Term};
ghost use Rattle.conv_terms.specs.Shifting.{shifted};
ghost use Rattle.conv_terms.specs.Substitution.{substituted, substituted_all};
ghost use Rattle.conv_typing.specs.Typing.{HasType, AreTyped};

/// Every type that a term has is a type.
pub fn typed_terms_have_types()
    ensures law { (ctx : List Ty) (t : Term) (a : Ty) → HasType ctx t a → IsType a }
{}

/// A term has at most one type.
pub fn types_are_unique()
    ensures law { (ctx : List Ty) (t : Term) (a b : Ty) → HasType ctx t a → HasType ctx t b → a ≡ b }
{}

/// Further variables may stand anywhere in a context: those after them move up. This is weakening.
pub fn shifting_keeps_types()
    ensures law { (ctx more inner : List Ty) (t : Term) (a : Ty) → HasType (ctx ++ inner) t a → HasType ((ctx ++ more) ++ inner) (shifted (length ctx) (length more) t) a }
{}

/// A term of its type may be substituted for the last variable.
pub fn substitution_keeps_types()
    ensures law { (ctx : List Ty) (b : Ty) (e t : Term) (a : Ty) → HasType ctx e b → HasType (ctx ++ b ∷ []) t a → HasType ctx (substituted (length ctx) e t) a }
{}

/// Terms of their types may be substituted for all variables of a context.
pub fn substituting_all_keeps_types()
    ensures law { (ctx others inner : List Ty) (terms : ℕ → Term) (t : Term) (a : Ty) → AreTyped terms ctx others → HasType (ctx ++ inner) t a → HasType (others ++ inner) (substituted_all (length ctx) (length others) terms t (length inner)) a }
{}
