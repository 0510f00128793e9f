// Laws of long forms and contractions. They hold of all terms, typed or not.
ghost use Rattle.std.specs.Prelude.{◌≡◌, ℕ, List, length};
ghost use Rattle.type_core.specs.declared.ty.Ty.{Ty};
ghost use Rattle.conv_terms.specs.declared.term.Term.{Term};
ghost use Rattle.conv_terms.specs.declared.term.Term.TheVariants as term;
ghost use Rattle.conv_terms.specs.Parts.{IsPart};
ghost use Rattle.conv_terms.specs.LongForm.{IsLongForm};
ghost use Rattle.conv_terms.specs.Contraction.{IsContraction};

/// No term has two long forms, in a context of any length.
pub fn one_long_form()
    ensures law { (n : ℕ) (t u v : Term) → IsLongForm n t u → IsLongForm n t v → u ≡ v }
{}

/// A long form has no beta redex, and no projection of n from a tuple of n components.
pub fn long_forms_have_no_redex()
    ensures beta { (n : ℕ) (t u : Term) (a : Ty) (b e : Term) → IsLongForm n t u → ¬ (IsPart (term.App (term.Lam a b) e) u) }
    ensures projection { (n : ℕ) (t u : Term) (i : ℕ) (ts : List Term) → IsLongForm n t u → ¬ (IsPart (term.Proj i (length ts) (term.Tup ts)) u) }
{}

/// Every term contracts to one term, in a context of any length.
pub fn one_contraction()
    ensures exists { (n : ℕ) (t : Term) → (u : Term) × IsContraction n t u }
    ensures law { (n : ℕ) (t u v : Term) → IsContraction n t u → IsContraction n t v → u ≡ v }
{}
