// What holds of libraries and of hits.
ghost use Rattle.std.specs.Prelude.{◌≡◌, List};
ghost use Rattle.type_core.specs.declared.library.Library.{Library};
ghost use Rattle.type_core.specs.declared.ty.Scheme.{Scheme};
ghost use Rattle.type_core.specs.ValidLibrary.{IsValidLibrary};
ghost use Rattle.search_core.specs.declared.answer.Hit.{Hit};
ghost use Rattle.search_core.specs.declared.answer.Mode.{Mode};
ghost use Rattle.search_core.specs.Report.{AreMembers};
ghost use Rattle.search_core.specs.Search.{AreHits, CanBeSearched};

/// A valid library can be searched.
pub fn valid_libraries_can_be_searched()
    ensures law { (library : Library) → IsValidLibrary library → CanBeSearched library }
{}

/// Hits are members of the library, as a report asks.
pub fn hits_are_members()
    ensures law { (library : Library) (mode : Mode) (query : Scheme) (hits : List Hit) → AreHits library mode query hits → AreMembers library hits }
{}

/// The hits of a query are one list.
pub fn queries_have_one_answer()
    ensures law { (library : Library) (mode : Mode) (query : Scheme) (hits others : List Hit) → AreHits library mode query hits → AreHits library mode query others → hits ≡ others }
{}
