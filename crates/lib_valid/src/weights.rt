// The weight of a library, and the normal forms of its members together.
ghost use Rattle.std.specs.Prelude.{◌≡◌, map, min};
ghost use Rattle.type_core.specs.Lists.{sum_of};
ghost use Rattle.type_core.specs.NormalSize.{normal_size_of};
ghost use Rattle.type_core.specs.Weight.{library_weight, member_weight, name_weight, tycon_weight, unit_weight};

use type_core::{Library, Member, Tycon, TypeName, Unit, normal_size, type_weight};

fn weigh_units(units: &[Unit]) -> u64
    ensures value { result ≡ min (sum_of (map unit_weight units.now)) u64.MAX }
{
    let mut total: u64 = 0;
    for unit in units {
        let bytes = unit.id.len() as u64;
        total = total.saturating_add(1).saturating_add(bytes);
    }
    total
}

fn weigh_tycons(tycons: &[Tycon]) -> u64
    ensures value { result ≡ min (sum_of (map tycon_weight tycons.now)) u64.MAX }
{
    let mut total: u64 = 0;
    for tycon in tycons {
        let bytes = tycon.path.len() as u64;
        total = total
            .saturating_add(1)
            .saturating_add(bytes)
            .saturating_add(type_weight(&tycon.fun.body));
    }
    total
}

fn weigh_members(members: &[Member]) -> u64
    ensures value { result ≡ min (sum_of (map member_weight members.now)) u64.MAX }
{
    let mut total: u64 = 0;
    for member in members {
        let bytes = member.path.len() as u64;
        total = total
            .saturating_add(1)
            .saturating_add(bytes)
            .saturating_add(type_weight(&member.scheme.body));
    }
    total
}

fn weigh_name(name: &TypeName) -> u64
    ensures value { result ≡ min (name_weight name.now) u64.MAX }
{
    if name.external {
        1u64.saturating_add(name.path.len() as u64)
    } else {
        0
    }
}

fn weigh_names(names: &[TypeName]) -> u64
    ensures value { result ≡ min (sum_of (map name_weight names.now)) u64.MAX }
{
    let mut total: u64 = 0;
    for name in names {
        total = total.saturating_add(weigh_name(name));
    }
    total
}

/// The weight of the library, or `u64::MAX` where that is less.
#[tactic(auto, unfolding(type_core::specs::Weight::library_weight))]
pub(crate) fn weigh(lib: &Library) -> u64
    ensures value { result ≡ min (library_weight lib.now) u64.MAX }
{
    weigh_units(lib.units.as_slice())
        .saturating_add(weigh_tycons(lib.tycons.as_slice()))
        .saturating_add(weigh_members(lib.members.as_slice()))
        .saturating_add(weigh_names(lib.names.as_slice()))
}

/// The sizes of the members' normal forms together, or `u64::MAX` where that is less.
pub(crate) fn normal_sizes(members: &[Member]) -> u64
    ensures value { result ≡ min (sum_of (map (λ member. normal_size_of member.scheme.body) members.now)) u64.MAX }
{
    let mut total: u64 = 0;
    for member in members {
        total = total.saturating_add(normal_size(&member.scheme.body));
    }
    total
}
