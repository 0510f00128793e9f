// Laws of what the numbers of an arena mean.
ghost use Rattle.std.specs.Prelude.{◌≡◌, ◌↔◌, ℕ, List, ◌∷◌, Some, slice_get};
ghost use Rattle.type_core.specs.declared.ty.Ty.{Ty};
ghost use Rattle.type_core.specs.declared.coordinate.Coordinate.{Coordinate};
ghost use Rattle.type_intern.specs.Alike.{AreAlike, IsAlike};
ghost use Rattle.type_intern.specs.Erasure.{as_is, erase};
ghost use Rattle.type_intern.specs.Meanings.{IsCanonical, IsKey, Keeps, Meanings};

/// Equality as nested multisets is an equivalence that knows no order, and what is equal is so after erasure.
pub fn alikeness_is_an_equivalence()
    ensures reflexive { (seen : Ty → Ty) (cs : List Coordinate) → AreAlike seen cs cs }
    ensures symmetric { (seen : Ty → Ty) (cs ds : List Coordinate) → AreAlike seen cs ds → AreAlike seen ds cs }
    ensures transitive { (seen : Ty → Ty) (cs ds es : List Coordinate) → AreAlike seen cs ds → AreAlike seen ds es → AreAlike seen cs es }
    ensures exchanged { (seen : Ty → Ty) (c d : Coordinate) (cs : List Coordinate) → AreAlike seen (c ∷ d ∷ cs) (d ∷ c ∷ cs) }
    ensures erased { (cs ds : List Coordinate) → AreAlike as_is cs ds → AreAlike erase cs ds }
{}

/// Two coordinates have one canonical number exactly where they are equal as nested multisets of arguments.
pub fn canonical_numbers_decide()
    ensures law { (coords : List Coordinate) (c d : Coordinate) (m n : ℕ) → IsCanonical coords c m → IsCanonical coords d n → (m ≡ n) ↔ IsAlike as_is c d }
{}

/// Two lists of coordinates have one key exactly where they are equal as nested multisets after erasure.
pub fn keys_decide()
    ensures law { (keys : List (List Coordinate)) (cs ds : List Coordinate) (m n : ℕ) → IsKey keys cs m → IsKey keys ds n → (m ≡ n) ↔ AreAlike erase cs ds }
{}

/// Where an arena keeps its meanings, each number means what it meant, and each canonical number and key stays one.
pub fn numbers_keep_their_meanings()
    ensures types { (old new : Meanings) (i : ℕ) (t : Ty) → Keeps old new → slice_get old.types i ≡ Some t → slice_get new.types i ≡ Some t }
    ensures coords { (old new : Meanings) (i : ℕ) (c : Coordinate) → Keeps old new → slice_get old.coords i ≡ Some c → slice_get new.coords i ≡ Some c }
    ensures canonical { (old new : Meanings) (c : Coordinate) (n : ℕ) → Keeps old new → IsCanonical old.coords c n → IsCanonical new.coords c n }
    ensures keys { (old new : Meanings) (cs : List Coordinate) (n : ℕ) → Keeps old new → IsKey old.keys cs n → IsKey new.keys cs n }
    ensures onwards { (first second third : Meanings) → Keeps first second → Keeps second third → Keeps first third }
{}
