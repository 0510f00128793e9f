// Laws of words and their meetings, and of the instances that match.
ghost use Rattle.std.specs.Prelude.{◌≡◌, ℕ, [], ◌++◌, List, length};
ghost use Rattle.type_core.specs.Schemes.{IsScheme};
ghost use Rattle.type_core.specs.Substitution.{substituted};
ghost use Rattle.type_core.specs.Types.{IsType};
ghost use Rattle.type_core.specs.declared.names.TypeName.{TypeName};
ghost use Rattle.type_core.specs.declared.ty.Scheme.{Scheme};
ghost use Rattle.type_core.specs.declared.ty.Ty.{Ty};
ghost use Rattle.type_core.specs.declared.ty.Ty.TheViews.{out-Ty};
ghost use Rattle.iso_normal.specs.declared.factor.Factor.{Factor};
ghost use Rattle.iso_normal.specs.Agreement.{Agree};
ghost use Rattle.iso_normal.specs.Factors.{AreFactors, factors};
ghost use Rattle.linear_match.specs.Instances.{IsMatch};
ghost use Rattle.linear_match.specs.LeastWord.{IsFirst, Succeeds};
ghost use Rattle.linear_match.specs.Meetings.{AreConsistent, Meeting, ObeysAll, bindings};
ghost use Rattle.linear_match.specs.Splits.{Splits};

/// Where types obey the meetings of a word, the factors of the pattern with these types agree with those that the word
/// splits.
pub fn words_are_sound()
    ensures law { (by : List Ty) (p : Ty) (fs : List Factor) (word : List ℕ) (ms : List Meeting) → AreFactors fs
        → Splits (out-Ty p) fs word ms → ObeysAll by ms → Agree (factors (substituted by p)) fs }
{}

/// Where the factors of the pattern with some types agree with a list of factors, these types obey the meetings of some
/// word that splits the list.
pub fn words_are_complete()
    ensures law { (by : List Ty) (p : Ty) (fs : List Factor) → Agree (factors (substituted by p)) fs
        → (word : List ℕ) × (ms : List Meeting) × Splits (out-Ty p) fs word ms × ObeysAll by ms }
{}

/// A word tells its meetings, and of two words that split one list of factors along one pattern, whether they succeed or
/// not, none is a proper prefix of the other.
pub fn words_tell_meetings()
    ensures law { (p : Ty) (fs : List Factor) (word : List ℕ) (ms ns : List Meeting) → Splits (out-Ty p) fs word ms
        → Splits (out-Ty p) fs word ns → ms ≡ ns }
    ensures prefix { (p : Ty) (fs : List Factor) (word more : List ℕ) (ms ns : List Meeting) → Splits (out-Ty p) fs word ms
        → Splits (out-Ty p) fs (word ++ more) ns → more ≡ [] }
{}

/// The meetings of a word are consistent exactly where some types, one for each variable, obey them, and then those that
/// they bind the variables to do.
pub fn consistent_meetings_are_obeyed()
    ensures obeyed { (pattern : Scheme) (fs : List Factor) (word : List ℕ) (ms : List Meeting) → IsScheme pattern
        → AreFactors fs → Splits (out-Ty pattern.body) fs word ms → AreConsistent ms
        → ObeysAll (bindings pattern.vars ms) ms }
    ensures consistent { (pattern : Scheme) (fs : List Factor) (word : List ℕ) (ms : List Meeting) (by : List Ty)
        → IsScheme pattern → Splits (out-Ty pattern.body) fs word ms → length by ≡ pattern.vars → ObeysAll by ms
        → AreConsistent ms }
{}

/// A word that succeeds binds an instance that matches, and where an instance matches some word succeeds.
pub fn words_succeed_where_instances_match()
    ensures sound { (names : List TypeName) (pattern : Scheme) (subject : Ty) (word : List ℕ) (ms : List Meeting)
        → IsScheme pattern → IsType pattern.body → IsType subject → Succeeds names pattern subject word ms
        → IsMatch names pattern subject (bindings pattern.vars ms) }
    ensures complete { (names : List TypeName) (pattern : Scheme) (subject : Ty) (by : List Ty) → IsScheme pattern
        → IsMatch names pattern subject by
        → (word : List ℕ) × (ms : List Meeting) × Succeeds names pattern subject word ms }
{}

/// The instance of the least word matches, and there is at most one such word and instance.
pub fn first_instances_match()
    ensures matches { (names : List TypeName) (pattern : Scheme) (subject : Ty) (word : List ℕ) (by : List Ty) (body : Ty)
        → IsScheme pattern → IsType pattern.body → IsType subject → IsFirst names pattern subject word by body
        → IsMatch names pattern subject by }
    ensures one { (names : List TypeName) (pattern : Scheme) (subject : Ty) (v w : List ℕ) (by to : List Ty) (a b : Ty)
        → IsFirst names pattern subject v by a → IsFirst names pattern subject w to b
        → (v ≡ w) × (by ≡ to) × (a ≡ b) }
{}
