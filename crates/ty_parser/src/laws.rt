// What follows from the grammar of types alone.
ghost use Rattle.std.specs.Prelude.{◌≡◌, ℕ, List};
ghost use Rattle.ty_parser.specs.Parts.{Takes};
ghost use Rattle.ty_parser.specs.Phrases.{PhraseFrom, StopsAt, TooDeepAt, IsShallow};
ghost use Rattle.ty_parser.specs.declared.sort.Sort.{Sort};
ghost use Rattle.ty_parser.specs.declared.tree.TyExp.{TyExp};

/// One list of tokens has at most one tree.
pub fn one_tree()
    ensures law { (first : ℕ) (ss : List Sort) (e f : TyExp) → PhraseFrom first ss e → PhraseFrom first ss f
        → e ≡ f }
{}

/// A list of tokens stops being a type at one place.
pub fn one_stop()
    ensures law { (first : ℕ) (ss : List Sort) (j k : ℕ) → StopsAt (PhraseFrom first) ss j
        → StopsAt (PhraseFrom first) ss k → j ≡ k }
{}

/// One token is the first that is too deep.
pub fn one_depth()
    ensures law { (outside first : ℕ) (ss : List Sort) (j k : ℕ)
        → TooDeepAt (PhraseFrom first) outside ss j → IsShallow (PhraseFrom first) outside ss j
        → TooDeepAt (PhraseFrom first) outside ss k → IsShallow (PhraseFrom first) outside ss k → j ≡ k }
{}

/// Tokens that stop being a type before one is too deep have none that is.
pub fn no_depth()
    ensures law { (outside first : ℕ) (ss : List Sort) (j k : ℕ)
        → StopsAt (PhraseFrom first) ss j → IsShallow (PhraseFrom first) outside ss j
        → TooDeepAt (PhraseFrom first) outside ss k → ⊥ }
{}

/// One number of tokens is taken from a place on.
pub fn one_front()
    ensures law { (outside first : ℕ) (ss : List Sort) (j k : ℕ) → Takes outside first ss j
        → Takes outside first ss k → j ≡ k }
{}
