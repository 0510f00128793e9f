// The members of a library.
ghost use Rattle.std.specs.Prelude.{◌↔◌, IfOk, IsTrue, map};
ghost use Rattle.std.specs.List.{All};
ghost use Rattle.sig_base.specs.Identifiers.{IsAlphanumeric};
ghost use Rattle.type_core.specs.ValidLibrary.{AreDistinct};
ghost use Rattle.lib_valid.specs.Parts.{HasValidMembers, IsValidMember};

use crate::paths::{begins_with_one, is_member_path};
use crate::texts::Texts;
use crate::types::{has_short_normal_form, is_closed, is_type_of, is_within_limits};
use crate::weights::normal_sizes;
use sig_base::NoMemory;
use std::alloc::Global;
use type_core::{Library, Member};

const MAX_MEMBERS: usize = 100_000;

const MAX_NORMAL_NODES: u64 = 4_000_000;

fn is_valid_member(
    alloc: Global,
    units: &Texts,
    lib: &Library,
    member: &Member,
) -> Result<bool, NoMemory>
    requires words { All IsAlphanumeric units.now }
    ensures exact { IfOk result (λ valid. IsTrue valid ↔ IsValidMember units.now lib.now member.now) }
{
    let scheme = &member.scheme;
    if !is_within_limits(&scheme.body) {
        return Ok(false);
    }
    let closed = is_closed(alloc, scheme)?;
    Ok(
        closed
            && is_member_path(member.path.as_slice())
            && begins_with_one(units, member.path.as_slice())
            && has_short_normal_form(&scheme.body)
            && is_type_of(lib, &scheme.body),
    )
}

fn are_valid_members(
    alloc: Global,
    units: &Texts,
    lib: &Library,
    members: &[Member],
) -> Result<bool, NoMemory>
    requires words { All IsAlphanumeric units.now }
    ensures exact { IfOk result (λ valid. IsTrue valid ↔ All (IsValidMember units.now lib.now) members.now) }
{
    for member in members {
        if !is_valid_member(alloc, units, lib, member)? {
            return Ok(false);
        }
    }
    Ok(true)
}

fn have_distinct_paths(alloc: Global, members: &[Member]) -> Result<bool, NoMemory>
    ensures exact { IfOk result (λ distinct. IsTrue distinct ↔ AreDistinct (map (λ member. member.path) members.now)) }
{
    let mut paths = Texts::new(alloc);
    for member in members {
        if !paths.add(member.path.as_slice())? {
            return Ok(false);
        }
    }
    Ok(true)
}

/// Whether the members keep all rules, where these are the identifiers of units.
pub(crate) fn has_valid_members(
    alloc: Global,
    lib: &Library,
    units: &Texts,
) -> Result<bool, NoMemory>
    requires words { All IsAlphanumeric units.now }
    ensures exact { IfOk result (λ valid. IsTrue valid ↔ HasValidMembers units.now lib.now) }
{
    let members = lib.members.as_slice();
    if members.len() > MAX_MEMBERS || normal_sizes(members) > MAX_NORMAL_NODES {
        return Ok(false);
    }
    let distinct = have_distinct_paths(alloc, members)?;
    let valid = are_valid_members(alloc, units, lib, members)?;
    Ok(distinct && valid)
}
