// Laws of the long forms and the contractions of typed terms.
ghost use Rattle.std.specs.Prelude.{ℕ, List, length};
ghost use Rattle.type_core.specs.declared.ty.Ty.{Ty};
ghost use Rattle.conv_terms.specs.declared.term.Term.{Term};
ghost use Rattle.conv_terms.specs.declared.term.Term.TheVariants as term;
ghost use Rattle.conv_terms.specs.Parts.{IsPart};
ghost use Rattle.conv_terms.specs.LongForm.{IsLongForm};
ghost use Rattle.conv_terms.specs.Contraction.{IsContraction};
ghost use Rattle.conv_terms.specs.ShortNormal.{IsShortNormal};
ghost use Rattle.conv_typing.specs.Typing.{HasType};
ghost use Rattle.conv_typing.specs.Conversion.{Converts};

/// Every typed term has a long form.
pub fn typed_terms_have_long_forms()
    ensures law { (ctx : List Ty) (a : Ty) (t : Term) → HasType ctx t a → (u : Term) × IsLongForm (length ctx) t u }
{}

/// The long form of a typed term has its type and converts to it.
pub fn long_forms_keep_types()
    ensures law { (ctx : List Ty) (a : Ty) (t u : Term) → HasType ctx t a → IsLongForm (length ctx) t u → HasType ctx u a }
    ensures converts { (ctx : List Ty) (a : Ty) (t u : Term) → HasType ctx t a → IsLongForm (length ctx) t u → Converts ctx a t u }
{}

/// In the long form of a typed term nothing is projected from a tuple, of whatever length.
pub fn typed_long_forms_project_from_no_tuple()
    ensures law { (ctx : List Ty) (a : Ty) (t u : Term) (i n : ℕ) (ts : List Term) → HasType ctx t a → IsLongForm (length ctx) t u → ¬ (IsPart (term.Proj i n (term.Tup ts)) u) }
{}

/// What a typed term contracts to has its type and converts to it.
pub fn contractions_keep_types()
    ensures law { (ctx : List Ty) (a : Ty) (t u : Term) → HasType ctx t a → IsContraction (length ctx) t u → HasType ctx u a }
    ensures converts { (ctx : List Ty) (a : Ty) (t u : Term) → HasType ctx t a → IsContraction (length ctx) t u → Converts ctx a t u }
{}

/// What the long form of a typed term contracts to is short normal.
pub fn contracted_long_forms_are_short()
    ensures law { (ctx : List Ty) (a : Ty) (t l u : Term) → HasType ctx t a → IsLongForm (length ctx) t l → IsContraction (length ctx) l u → IsShortNormal (length ctx) u }
{}
