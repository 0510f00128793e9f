// Names from elsewhere, and their first parts.
ghost use Rattle.std.specs.Prelude.{◌≡◌, ◌+◌, ℕ, List, IfOk, OnErr, OnOk, is_some, length, map, min, not, ◌||◌};
ghost use Rattle.elab_env.specs.Names.{external_number};
ghost use Rattle.elab_rules.specs.Files.{is_first_part, is_from};
ghost use Rattle.elab_types.specs.Finding.{none_of};
ghost use Rattle.elab_rules.specs.Library.{empty_basis};
ghost use Rattle.elab_rules.specs.LookUps.{external_named};
ghost use Rattle.elab_types.specs.Places.{place_at};
ghost use Rattle.elab_rules.specs.Standing.{Mentions};
ghost use Rattle.elab_rules.specs.Tracking.{IsTracked};
ghost use Rattle.elab_rules.specs.Views.{GivesNumber, state_of};
ghost use Rattle.type_core.specs.Lists.{sum_of};
ghost use Rattle.type_core.specs.Weight.{name_weight};

use crate::progress::Progress;
use crate::refusal::ElabRefusal;
use elab_env::NameTable;
use elab_types::Places;
use sig_base::{NoMemory, Text, first_dot};
use std::alloc::Global;
use type_core::NameId;

// Adds the first part of a path.
fn add_first(alloc: Global, firsts: &mut Places, path: &[u8]) -> Result<(), NoMemory>
    ensures added { OnOk result ((id : List ℕ) → is_some (place_at firsts.new id) ≡ (is_some (place_at firsts.old id) || is_first_part id path.now)) }
    ensures kept { OnErr result ((id : List ℕ) → place_at firsts.new id ≡ place_at firsts.old id) }
{
    match first_dot(path) {
        None => firsts.insert_new(alloc, path, 0),
        Some(dot) => firsts.insert_new(alloc, &path[..dot], 0),
    }
}

// The first parts of the paths of a table's external names.
fn first_parts(alloc: Global, table: &NameTable) -> Result<Places, NoMemory>
    ensures value { IfOk result (λ firsts. (id : List ℕ) → is_some (place_at firsts id) ≡ not (none_of (is_from id) table.now.names)) }
{
    let mut firsts = Places::new(alloc);
    for n in 0..table.len() {
        let name = table.name(NameId(n));
        if !name.external {
            continue;
        }
        add_first(alloc, &mut firsts, name.path.as_slice())?;
    }
    Ok(firsts)
}

// What an external name of this path weighs.
fn external_weight(path: &[u8]) -> u64
    ensures value { result ≡ min (1 + length path.now) u64.MAX }
{
    (path.len() as u64).saturating_add(1)
}

impl Progress {
    /// The names are the initial ones, and nothing was described.
    pub fn new(alloc: Global) -> Result<Progress, NoMemory>
        ensures value { IfOk result (λ progress. state_of progress ≡ empty_basis.state) }
        ensures tracked { IfOk result IsTracked }
    {
        Ok(Progress {
            table: NameTable::new(alloc)?,
            weight: 0,
            firsts: Places::new(alloc),
            external_weight: 0,
        })
    }

    /// The same again.
    pub fn copy(&self, alloc: Global) -> Result<Progress, NoMemory>
        requires tracked { IsTracked self.now }
        ensures value { IfOk result (λ copy. (copy.table ≡ self.now.table) × (copy.weight ≡ self.now.weight)) }
        ensures tracked { IfOk result IsTracked }
    {
        Ok(Progress {
            table: self.table.copy(alloc)?,
            weight: self.weight,
            firsts: first_parts(alloc, &self.table)?,
            external_weight: self.external_weight,
        })
    }

    /// The number of the external name of this path and arity; a new one is weighed at the token.
    pub fn external(
        &mut self,
        alloc: Global,
        path: &[u8],
        arity: u32,
        token: u32,
    ) -> Result<NameId, ElabRefusal>
        ensures outcome { GivesNumber (external_named path.now arity token (external_number path.now arity (state_of self.old).names) (state_of self.old)) result (state_of self.new) }
        ensures mentions { OnOk result (Mentions self.old self.new) }
    {
        let count = self.table.len();
        if count == u32::MAX {
            return Err(ElabRefusal::NoMemory);
        }
        self.table.is_sound();
        let n = self.table.external(Text::from_slice(alloc, path)?, arity)?;
        if n.0 == count {
            self.weigh(external_weight(path), token)?;
            add_first(alloc, &mut self.firsts, path)?;
            self.external_weight = self.external_weight.saturating_add(external_weight(path));
        }
        Ok(n)
    }
}
