// Laws of shifting and of substitution. They hold of all terms, typed or not.
ghost use Rattle.std.specs.Prelude.{◌≡◌, ℕ, ◌≤◌, ◌+◌, max};
ghost use Rattle.conv_terms.specs.declared.term.Term.{Term};
ghost use Rattle.conv_terms.specs.declared.term.Term.TheVariants as term;
ghost use Rattle.conv_terms.specs.Levels.{levels, nesting};
ghost use Rattle.conv_terms.specs.Shifting.{shifted};
ghost use Rattle.conv_terms.specs.Substitution.{substituted, substituted_below, substituted_all, only};

/// Shifting by nothing changes nothing.
pub fn shifting_by_none()
    ensures law { (from : ℕ) (t : Term) → shifted from 0 t ≡ t }
{}

/// Two shifts are one, where the second begins among the places that the first left free.
pub fn shifting_twice()
    ensures law { (from by at more : ℕ) (t : Term) → from ≤ at → at ≤ from + by → shifted at more (shifted from by t) ≡ shifted from (by + more) t }
{}

/// Substituting for a variable that a shift left free leaves a shift by one less.
pub fn substituting_after_a_shift()
    ensures law { (from by at : ℕ) (e t : Term) → from ≤ at → at ≤ from + by → substituted at e (shifted from (by + 1) t) ≡ shifted from by t }
{}

/// A shift substitutes each variable for itself, in a longer context.
pub fn shifting_is_substituting()
    ensures law { (from by depth : ℕ) (t : Term) → shifted from by t ≡ substituted_all from (from + by) term.Var t depth }
{}

/// Substituting for one variable substitutes the others for themselves.
pub fn substituting_for_one()
    ensures law { (level depth : ℕ) (e t : Term) → substituted_below level e t depth ≡ substituted_all (level + 1) level (only level e) t depth }
{}

/// Substitution commutes with a shift of what it passes by; so do two shifts.
pub fn substituting_commutes_with_shifting()
    ensures law { (from to depth by : ℕ) (terms : ℕ → Term) (t : Term) → substituted_all from to terms (shifted (from + depth) by t) (depth + by) ≡ shifted (to + depth) by (substituted_all from to terms t depth) }
{}

/// Substitution commutes with substitution: the substitution lemma. So does a shift, which is one.
pub fn substituting_commutes_with_itself()
    ensures law { (from to depth : ℕ) (terms : ℕ → Term) (e t : Term) → substituted_all from to terms (substituted (from + depth) e t) depth ≡ substituted (to + depth) (substituted_all from to terms e depth) (substituted_all from to terms t (depth + 1)) }
{}

/// A shift adds at most what it shifts by to the levels.
pub fn levels_of_a_shift()
    ensures law { (from by : ℕ) (t : Term) → levels (shifted from by t) ≤ levels t + by }
{}

/// After a substitution the levels are those of the term, or those of what was put in, below its binders.
pub fn levels_of_a_substitution()
    ensures law { (level : ℕ) (e t : Term) → levels (substituted level e t) ≤ max (levels t) (levels e + nesting t) }
{}
