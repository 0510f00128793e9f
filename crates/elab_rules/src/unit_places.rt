// Top identifiers by their places.
ghost use Rattle.std.specs.Prelude.{◌≡◌, ◌≤◌, ◌<◌, ◌+◌, ◌++◌, ◌∷◌, [], not, IfOk, IfSome, OnOk, OnErr, length, take};
ghost use Rattle.elab_rules.specs.Details.{IsDetail};
ghost use Rattle.elab_rules.specs.Files.{is_new_unit};
ghost use Rattle.elab_rules.specs.Tops.{IsTop};
ghost use Rattle.elab_rules.specs.LookUps.{unit_in};
ghost use Rattle.elab_rules.specs.Places.{ArePlaced};
ghost use Rattle.elab_types.specs.Places.{place_at};
ghost use Rattle.elab_rules.specs.Views.{unit_seen};
ghost use Rattle.elab_types.specs.declared.places.Places.{Places as ThePlaces};

use crate::detail::{Detail, Top};
use crate::entry::UnitEntry;
use crate::finding::below;
use crate::units::Units;
use elab_types::Places;
use sig_base::NoMemory;
use std::alloc::Global;

// Whether one of the first `count` units has the identifier, of which a place may be known.
fn has_among(units: &[UnitEntry], count: usize, id: &[u8], place: Option<usize>) -> bool
    requires within { count ≤ length units.now }
    ensures value { (places : ThePlaces) → place ≡ place_at places id.now → ArePlaced places (take count units.now) → result ≡ not (is_new_unit id.now (take count units.now)) }
{
    match place {
        None => false,
        Some(place) => {
            if place >= count {
                return false;
            }
            id == units[place].id.as_slice()
        }
    }
}

// Gives a unit its place, where no unit before it has its identifier.
fn place_one(
    alloc: Global,
    places: &mut Places,
    units: &[UnitEntry],
    n: usize,
) -> Result<(), NoMemory>
    requires within { n < length units.now }
    requires placed { ArePlaced places.old (take n units.now) }
    ensures placed { OnOk result (ArePlaced places.new (take (n + 1) units.now)) }
    ensures kept { OnErr result (ArePlaced places.new (take n units.now)) }
{
    let id = units[n].id.as_slice();
    if has_among(units, n, id, places.get(id)) {
        return Ok(());
    }
    places.insert(alloc, id, n)
}

// Gives units their places, from `from` on.
fn place_all(
    alloc: Global,
    places: &mut Places,
    units: &[UnitEntry],
    from: usize,
) -> Result<(), NoMemory>
    requires within { from ≤ length units.now }
    requires placed { ArePlaced places.old (take from units.now) }
    ensures placed { OnOk result (ArePlaced places.new units.now) }
    ensures kept { OnErr result (ArePlaced places.new (take from units.now)) }
{
    for n in from..units.len() {
        place_one(alloc, places, units, n)?;
    }
    Ok(())
}

impl Units {
    pub fn new(alloc: Global) -> Units
        ensures empty { result.entries.items ≡ [] }
    {
        Units {
            entries: Vec::new(alloc),
            details: Vec::new(alloc),
            places: Places::new(alloc),
        }
    }

    /// How many there are.
    pub fn len(&self) -> usize
        ensures value { result ≡ length self.now.entries.items }
    {
        self.entries.len()
    }

    /// Whether one of the first `count` units has the identifier.
    pub fn has(&self, id: &[u8], count: usize) -> bool
        requires within { count ≤ length self.now.entries.items }
        ensures value { result ≡ not (is_new_unit id.now (take count self.now.entries.items)) }
    {
        has_among(self.entries.as_slice(), count, id, self.places.get(id))
    }

    /// The unit of this identifier among the first `count`.
    pub fn find(&self, id: &[u8], count: usize) -> Option<Top<'_>>
        requires within { count ≤ length self.now.entries.items }
        ensures value { unit_seen result ≡ unit_in id.now (take count self.now.entries.items) }
        ensures top { IfSome result (IsTop self.now) }
    {
        let place = below(self.places.get(id), count)?;
        if self.has(id, count) {
            Some(Top {
                unit: &self.entries[place],
                detail: &self.details[place],
            })
        } else {
            None
        }
    }

    /// The units with one more.
    pub fn with(self, alloc: Global, unit: UnitEntry, detail: Detail) -> Result<Units, NoMemory>
        requires detailed { IsDetail detail unit }
        ensures pushed { IfOk result (λ units. units.entries.items ≡ self.entries.items ++ unit ∷ []) }
        ensures beside { IfOk result (λ units. units.details.items ≡ self.details.items ++ detail ∷ []) }
    {
        let Units {
            mut entries,
            mut details,
            mut places,
        } = self;
        let count = entries.len();
        entries.push(unit)?;
        details.push(detail)?;
        place_all(alloc, &mut places, entries.as_slice(), count)?;
        Ok(Units {
            entries,
            details,
            places,
        })
    }

    /// Adds units at the end.
    pub fn append(&mut self, alloc: Global, more: Units) -> Result<(), NoMemory>
        ensures appended { OnOk result (self.new.entries.items ≡ self.old.entries.items ++ more.entries.items) }
        ensures beside { OnOk result (self.new.details.items ≡ self.old.details.items ++ more.details.items) }
        ensures kept { OnErr result (self.new.entries.items ≡ self.old.entries.items) }
        ensures kept_beside { OnErr result (self.new.details.items ≡ self.old.details.items) }
    {
        let Units {
            entries: mut added,
            details: mut beside,
            places: _,
        } = more;
        let count = self.entries.len();
        self.entries.reserve(added.len())?;
        self.details.append(&mut beside)?;
        self.entries.append(&mut added)?;
        match place_all(alloc, &mut self.places, self.entries.as_slice(), count) {
            Ok(()) => Ok(()),
            Err(NoMemory) => {
                self.entries.truncate(count);
                self.details.truncate(count);
                Err(NoMemory)
            }
        }
    }
}
