// What holds of each basis that accepted files leave.
ghost use Rattle.std.specs.Prelude.{◌≡◌, ℕ, List, Ok};
ghost use Rattle.sml_lexer.specs.declared.token.Token.{Token};
ghost use Rattle.sml_lexer.specs.Tokens.{tokens as tokens_of};
ghost use Rattle.sig_parser.specs.declared.tree.SourceFile.{SourceFile};
ghost use Rattle.sig_parser.specs.Files.{File};
ghost use Rattle.ty_parser.specs.Sorts.{sorts_of};
ghost use Rattle.type_core.specs.ValidLibrary.{IsValidLibrary};
ghost use Rattle.elab_rules.specs.Files.{elaborated};
ghost use Rattle.elab_rules.specs.Library.{Basis, empty_basis, library as library_of};
ghost use Rattle.elab_types.specs.Sources.{texts_of};
ghost use Rattle.elab_soundness.specs.Soundness.{IsSoundBasis};

/// The basis before all files is sound, each file that is accepted keeps it so, and the library of a sound basis is valid.
pub fn libraries_of_accepted_files_are_valid()
    ensures first { IsSoundBasis empty_basis }
    ensures next { (bytes : List ℕ) (tokens : List Token) (file : SourceFile) (before now : Basis) → tokens_of bytes tokens → File (sorts_of bytes tokens) file
        → IsSoundBasis before → elaborated (texts_of bytes tokens) file before ≡ Ok now → IsSoundBasis now }
    ensures valid { (basis : Basis) → IsSoundBasis basis → IsValidLibrary (library_of basis) }
{}
