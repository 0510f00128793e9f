// What holds of what was read.
ghost use Rattle.std.specs.Prelude.{◌≡◌, ◌<◌, ℕ, List, Ok, Some, Result, length};
ghost use Rattle.sig_base.specs.FileMap.{FileMap};
ghost use Rattle.type_core.specs.declared.library.Library.{Library};
ghost use Rattle.type_core.specs.ValidLibrary.{IsValidLibrary};
ghost use Rattle.lib_index.specs.Indexes.{IsNoIndex};
ghost use Rattle.lib_load.specs.declared.refusals.LoadRefusal.{LoadRefusal};
ghost use Rattle.lib_load.specs.Given.{AreHeld, GaveThese, Given, index_limit};
ghost use Rattle.lib_load.specs.Indexes.{LoadsIndex};
ghost use Rattle.lib_load.specs.Loading.{Loads};

use elab_soundness::libraries_of_accepted_files_are_valid;
use lib_index::{index_texts_are_short, index_texts_tell_libraries};
use sig_base::{Files, files_hold_what_they_give};
use sml_lexer::{no_refusal, one_list, one_refusal};

/// Where files are told, what reading them gives is what they hold, but where it fails.
pub fn given_texts_are_held<F: Files>()
    ensures law { (limit : ℕ) (files : FileMap) (paths : List (List ℕ)) (first last : F) (givens : List Given) → F.files first ≡ Some files → GaveThese limit F.gives F.read_faults first paths givens last → AreHeld limit files paths givens }
{
    files_hold_what_they_give::<F>();
}

/// One thing comes of what was read of signature files.
pub fn files_have_one_outcome()
    ensures law { (count : ℕ) (givens : List Given) (outcome other : Result Library LoadRefusal) → Loads count outcome givens → Loads count other givens → outcome ≡ other }
{
    one_list();
    no_refusal();
    one_refusal();
    sig_parser::one_tree();
}

/// The library of files, whatever was read of them, is valid.
pub fn libraries_of_files_are_valid()
    ensures law { (count : ℕ) (givens : List Given) (library : Library) → Loads count (Ok library) givens → IsValidLibrary library }
{
    libraries_of_accepted_files_are_valid();
}

/// One thing comes of what was read of an index file.
pub fn indexes_have_one_outcome()
    ensures law { (givens : List Given) (outcome other : Result Library LoadRefusal) → LoadsIndex outcome givens → LoadsIndex other givens → outcome ≡ other }
{
    index_texts_tell_libraries();
}

/// A file that is too long to be read as an index is the index text of no valid library.
pub fn long_files_are_no_indexes()
    ensures law { (bytes : List ℕ) → index_limit < length bytes → IsNoIndex bytes }
{
    index_texts_are_short();
}
