// What units come to.
ghost use Rattle.elab_rules.specs.Views.{state_of};
ghost use Rattle.std.specs.Prelude.{◌≡◌, ◌++◌, ◌∷◌, [], List, IfOk, map, min};
ghost use Rattle.elab_rules.specs.Files.{library_limited};
ghost use Rattle.elab_rules.specs.Library.{Basis, empty_basis};
ghost use Rattle.elab_rules.specs.Outcome.{Agrees};
ghost use Rattle.elab_rules.specs.States.{State};
ghost use Rattle.sig_elab.specs.Totals.{AreTotals};
ghost use Rattle.elab_rules.specs.Tracking.{IsTracked};
ghost use Rattle.elab_rules.specs.declared.entry.UnitEntry.{UnitEntry as AUnit};
ghost use Rattle.type_core.specs.Lists.{sum_of};
ghost use Rattle.type_core.specs.NormalSize.{normal_size_of};
ghost use Rattle.type_core.specs.Weight.{member_weight, name_weight, tycon_weight};

use crate::listing::{unit_members, unit_tycons};
use elab_rules::entry::UnitEntry;
use elab_rules::progress::Progress;
use elab_rules::refusal::{ElabRefusal, Why};
use elab_rules::weights::{MAX_WEIGHT, type_weight};
use sig_base::NoMemory;
use std::alloc::Global;
use type_core::{Member, Tycon, normal_size};

/// The greatest number of members of a library.
pub const MAX_MEMBERS: u64 = 100_000;

/// The greatest number of nodes of the normal forms of all members of a library.
pub const MAX_NORMAL_SUM: u64 = 4_000_000;

/// How many members a library has, how many nodes their normal forms have, and what it weighs; each is
/// `u64::MAX` where that is less.
#[derive(Clone, Copy)]
pub struct Totals {
    pub members: u64,
    pub normal: u64,
    pub weight: u64,
}

// How many nodes the normal forms of members have, or `u64::MAX` where that is less.
fn total_normal(members: &[Member]) -> u64
    ensures value { result ≡ min (sum_of (map (λ member. normal_size_of member.scheme.body) members.now)) u64.MAX }
{
    let mut total: u64 = 0;
    for member in members {
        total = total.saturating_add(normal_size(&member.scheme.body));
    }
    total
}

// What members weigh, or `u64::MAX` where that is less.
fn total_of_members(members: &[Member]) -> u64
    ensures value { result ≡ min (sum_of (map member_weight members.now)) u64.MAX }
{
    let mut total: u64 = 0;
    for member in members {
        let path = member.path.len() as u64;
        total = total
            .saturating_add(path.saturating_add(1))
            .saturating_add(type_weight(&member.scheme.body));
    }
    total
}

// What type constructors weigh, or `u64::MAX` where that is less.
fn total_of_tycons(tycons: &[Tycon]) -> u64
    ensures value { result ≡ min (sum_of (map tycon_weight tycons.now)) u64.MAX }
{
    let mut total: u64 = 0;
    for tycon in tycons {
        let path = tycon.path.len() as u64;
        total = total
            .saturating_add(path.saturating_add(1))
            .saturating_add(type_weight(&tycon.fun.body));
    }
    total
}

impl Totals {
    /// What a library of no units comes to.
    pub fn none() -> Totals
        ensures empty { AreTotals result empty_basis }
    {
        Totals {
            members: 0,
            normal: 0,
            weight: 0,
        }
    }

    /// What the units come to with one more of them, beside the external names.
    pub fn with_unit(self, alloc: Global, unit: &UnitEntry) -> Result<Totals, NoMemory>
        ensures more { IfOk result (λ totals. (units : List AUnit) (s t : State) → AreTotals self (record { units = units; state = s }) → AreTotals totals (record { units = units ++ unit.now ∷ []; state = t })) }
    {
        let tycons = unit_tycons(alloc, unit)?;
        let members = unit_members(alloc, unit)?;
        let count = members.len() as u64;
        let id = unit.id.len() as u64;
        let normal = total_normal(members.as_slice());
        let of_members = total_of_members(members.as_slice());
        let of_tycons = total_of_tycons(tycons.as_slice());
        Ok(Totals {
            members: self.members.saturating_add(count),
            normal: self.normal.saturating_add(normal),
            weight: self
                .weight
                .saturating_add(id.saturating_add(1))
                .saturating_add(of_tycons)
                .saturating_add(of_members),
        })
    }

    /// Whether the library is within its limits; else this is refused at the token.
    pub fn check(self, progress: &Progress, token: u32) -> Result<(), ElabRefusal>
        requires tracked { IsTracked progress.now }
        ensures outcome { (basis : Basis) → basis.state ≡ state_of progress.now → AreTotals self basis → Agrees (library_limited token basis) result basis }
    {
        progress.table.is_sound();
        if self.members > MAX_MEMBERS {
            return Err(ElabRefusal::Refused(Why::TooManyMembers, token));
        }
        if self.weight.saturating_add(progress.external_weight) > MAX_WEIGHT {
            return Err(ElabRefusal::Refused(Why::LibraryTooLarge, token));
        }
        if self.normal > MAX_NORMAL_SUM {
            return Err(ElabRefusal::Refused(Why::LibraryTooLarge, token));
        }
        Ok(())
    }
}
