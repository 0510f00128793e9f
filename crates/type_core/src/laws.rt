// What holds of schemes, of renaming, of labels and of normal sizes.
ghost use Rattle.std.specs.Cmp.{IsTotalOrder};
ghost use Rattle.std.specs.Prelude.{◌≡◌, ℕ, List, map};
ghost use Rattle.std.specs.declared.cmp.Ordering.TheVariants.{Equal};
ghost use Rattle.type_core.specs.Coordinates.{coordinate_size, coordinates};
ghost use Rattle.type_core.specs.Height.{height_of};
ghost use Rattle.type_core.specs.Labels.{label_order};
ghost use Rattle.type_core.specs.Lists.{sum_of};
ghost use Rattle.type_core.specs.NormalSize.{normal_size_of};
ghost use Rattle.type_core.specs.declared.names.TypeName.{TypeName};
ghost use Rattle.type_core.specs.declared.ty.Scheme.{Scheme};
ghost use Rattle.type_core.specs.declared.ty.Ty.{Ty};
ghost use Rattle.type_core.specs.Renaming.{IsOneToOne, KeepsMarks, Lists, Renaming, listed, renamed};
ghost use Rattle.type_core.specs.Schemes.{IsScheme, closed};
ghost use Rattle.type_core.specs.Size.{size_of};
ghost use Rattle.type_core.specs.Substitution.{VariablesBelow, substituted};
ghost use Rattle.type_core.specs.Types.{IsTypeOver};
ghost use Rattle.type_core.specs.Variables.{by_first_occurrence, variables};
ghost use Rattle.type_core.specs.Weight.{labels_of};

/// A closed type is a scheme.
pub fn closing_makes_schemes()
    ensures law { (t : Ty) → IsScheme (closed t) }
{}

/// Closing a scheme changes nothing.
pub fn closing_keeps_schemes()
    ensures law { (s : Scheme) → IsScheme s → closed s.body ≡ s }
{}

/// A renaming that is one to one and keeps marks makes no difference to the closed type.
pub fn closing_undoes_renaming()
    ensures law { (r : Renaming) (t : Ty) → IsOneToOne r (variables t) → KeepsMarks r (variables t) → closed (renamed r t) ≡ closed t }
{}

/// The variables of a scheme have numbers below the number of its variables, as `substitute` asks of a body
/// and a type for each variable.
pub fn scheme_variables_are_below()
    ensures law { (s : Scheme) → IsScheme s → VariablesBelow s.vars s.body }
{}

/// The order of labels is a total order, in which no two labels are equal.
pub fn labels_are_totally_ordered()
    ensures total { IsTotalOrder label_order }
    ensures strict { (a b : List ℕ) → label_order a b ≡ Equal → a ≡ b }
{}

/// The normal size of a type is the sum of the sizes of its coordinates.
pub fn normal_size_adds_coordinates()
    ensures law { (t : Ty) → normal_size_of t ≡ sum_of (map coordinate_size (coordinates t)) }
{}

/// Renaming a type is substituting, by any types among which stands at each variable's number the variable that
/// it gets; for a scheme, by the variables that its own get, in their order.
pub fn renaming_is_substitution()
    ensures types { (r : Renaming) (t : Ty) (by : List Ty) → Lists r t by → renamed r t ≡ substituted by t }
    ensures schemes { (r : Renaming) (s : Scheme) → IsScheme s → Lists r s.body (listed r (by_first_occurrence s.body)) }
{}

/// Renaming the variables of a type keeps its size, its height, its normal size and its labels, and what is a type
/// over some names stays one.
pub fn renaming_keeps_measures()
    ensures size { (r : Renaming) (t : Ty) → size_of (renamed r t) ≡ size_of t }
    ensures height { (r : Renaming) (t : Ty) → height_of (renamed r t) ≡ height_of t }
    ensures normal { (r : Renaming) (t : Ty) → normal_size_of (renamed r t) ≡ normal_size_of t }
    ensures labels { (r : Renaming) (t : Ty) → labels_of (renamed r t) ≡ labels_of t }
    ensures types { (r : Renaming) (names : List TypeName) (t : Ty) → IsTypeOver names t → IsTypeOver names (renamed r t) }
{}
