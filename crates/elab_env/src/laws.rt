// What holds of resolving.
ghost use Rattle.std.specs.Prelude.{◌≡◌, ℕ, ◌++◌, ◌∷◌, [], Bool, false, IsTrue, List, map};
ghost use Rattle.type_core.specs.declared.names.Equality.{Equality};
ghost use Rattle.type_core.specs.declared.names.TypeName.{TypeName};
ghost use Rattle.type_core.specs.declared.ty.Field.{Field};
ghost use Rattle.type_core.specs.declared.ty.NameId.{NameId};
ghost use Rattle.type_core.specs.declared.ty.Ty.{Ty};
ghost use Rattle.type_core.specs.declared.ty.Ty.TheVariants as ty;
ghost use Rattle.type_core.specs.declared.ty.VarId.{VarId};
ghost use Rattle.type_core.specs.Substitution.{each_variable, substituted};
ghost use Rattle.type_core.specs.Types.{IsOver, IsType};
ghost use Rattle.elab_env.specs.declared.realization.Realization.{Realization};
ghost use Rattle.elab_env.specs.Names.{with_equality};
ghost use Rattle.elab_env.specs.Realizations.{field_resolved, replaced, resolved};
ghost use Rattle.elab_env.specs.Sound.{AreRealizations, AreSettled, IsResolved};
ghost use Rattle.elab_env.specs.Table.{is_realized};

/// Resolving after one realization more is replacing its name in what was resolved before.
pub fn resolving_one_realization_more()
    ensures law { (rs : List Realization) (r : Realization) (t : Ty) → resolved (rs ++ r ∷ []) t ≡ replaced r (resolved rs t) }
{}

/// Resolving keeps variables, records, tuples and arrows, and resolves their parts.
pub fn resolving_goes_inside()
    ensures variable { (rs : List Realization) (v : VarId) → resolved rs (ty.Var v) ≡ ty.Var v }
    ensures record_type { (rs : List Realization) (fields : List Field) → resolved rs (ty.Rec fields) ≡ ty.Rec (map (field_resolved rs) fields) }
    ensures tuple { (rs : List Realization) (components : List Ty) → resolved rs (ty.Tup components) ≡ ty.Tup (map (resolved rs) components) }
    ensures arrow { (rs : List Realization) (a b : Ty) → resolved rs (ty.Arrow a b) ≡ ty.Arrow (resolved rs a) (resolved rs b) }
{}

/// Resolving keeps a name that isn't realized, and resolves its arguments.
pub fn resolving_keeps_other_names()
    ensures law { (rs : List Realization) (name : NameId) (arguments : List Ty) → is_realized rs name.0 ≡ false → resolved rs (ty.Con name arguments) ≡ ty.Con name (map (resolved rs) arguments) }
{}

/// To resolve a type with others in place of its variables is to resolve the type and the others.
pub fn resolving_goes_through_substitution()
    ensures law { (names : List TypeName) (rs : List Realization) (by : List Ty) (t : Ty) → AreRealizations names rs → IsOver names t
        → resolved rs (substituted by t) ≡ substituted (map (resolved rs) by) (resolved rs t) }
{}

/// A resolved type mentions no realized name.
pub fn resolving_leaves_no_realized_name()
    ensures law { (rs : List Realization) (t : Ty) → AreSettled rs → IsResolved rs (resolved rs t) }
{}

/// A type that mentions no realized name is resolved to itself.
pub fn resolving_again_changes_nothing()
    ensures law { (rs : List Realization) (t : Ty) → IsResolved rs t → resolved rs t ≡ t }
{}

/// A resolved type is a type over the same names, with no variables but those of the type.
pub fn resolving_keeps_types()
    ensures over { (names : List TypeName) (rs : List Realization) (t : Ty) → AreRealizations names rs → IsOver names t → IsOver names (resolved rs t) }
    ensures type_stays { (names : List TypeName) (rs : List Realization) (t : Ty) → AreRealizations names rs → IsType t → IsType (resolved rs t) }
    ensures variables { (names : List TypeName) (rs : List Realization) (is : VarId → Bool) (t : Ty) → AreRealizations names rs → IsOver names t
        → IsTrue (each_variable is t) → IsTrue (each_variable is (resolved rs t)) }
{}

/// A type over some names is one over these and more.
pub fn more_names_keep_types()
    ensures law { (names more : List TypeName) (t : Ty) → IsOver names t → IsOver (names ++ more) t }
{}

/// A type over some names is one over them after one got another equality.
pub fn settling_keeps_types()
    ensures law { (names : List TypeName) (n : ℕ) (equality : Equality) (t : Ty) → IsOver names t → IsOver (with_equality n equality names) t }
{}
