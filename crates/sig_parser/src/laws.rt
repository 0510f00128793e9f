// What follows from the grammar of signature files alone.
ghost use Rattle.std.specs.Prelude.{◌≡◌, ℕ, List};
ghost use Rattle.ty_parser.specs.Phrases.{StopsAt, TooDeepAt, IsShallow};
ghost use Rattle.ty_parser.specs.declared.sort.Sort.{Sort};
ghost use Rattle.sig_parser.specs.Files.{File};
ghost use Rattle.sig_parser.specs.declared.tree.SourceFile.{SourceFile};

/// One list of tokens has at most one tree.
pub fn one_tree()
    ensures { (ss : List Sort) (f g : SourceFile) → File ss f → File ss g → f ≡ g }
{}

/// A list of tokens stops being a file at one place.
pub fn one_stop()
    ensures law { (ss : List Sort) (j k : ℕ) → StopsAt File ss j → StopsAt File ss k → j ≡ k }
{}

/// One token is the first that is too deep.
pub fn one_depth()
    ensures law { (ss : List Sort) (j k : ℕ) → TooDeepAt File 0 ss j → IsShallow File 0 ss j
        → TooDeepAt File 0 ss k → IsShallow File 0 ss k → j ≡ k }
{}

/// Tokens that stop being a file before one is too deep have none that is.
pub fn no_depth()
    ensures law { (ss : List Sort) (j k : ℕ) → StopsAt File ss j → IsShallow File 0 ss j
        → TooDeepAt File 0 ss k → ⊥ }
{}
