// What holds of index texts.
ghost use Rattle.std.specs.Prelude.{◌≡◌, ◌≤◌, length};
ghost use Rattle.lib_index.specs.IndexText.{index_text};
ghost use Rattle.type_core.specs.ValidLibrary.{IsValidLibrary};
ghost use Rattle.type_core.specs.declared.library.Library.{Library};

/// Two valid libraries of one index text are one library.
pub fn index_texts_tell_libraries()
    ensures law { (a b : Library) → IsValidLibrary a → IsValidLibrary b → index_text a ≡ index_text b → a ≡ b }
{}

/// The index text of a valid library has at most 67,108,864 bytes.
pub fn index_texts_are_short()
    ensures law { (library : Library) → IsValidLibrary library → length (index_text library) ≤ 67108864 }
{}
