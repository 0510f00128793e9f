// The index text of a library, written.
ghost use Rattle.std.specs.Prelude.{◌≡◌, ◌++◌, ◌∷◌, [], IfOk, OnOk};
ghost use Rattle.std.specs.List.{All};
ghost use Rattle.lib_index.specs.IndexText.{flag, index_text, list_text, member_text, name_text, scheme_text, tycon_text, unit_text};
ghost use Rattle.lib_index.specs.IndexText as spec;
ghost use Rattle.type_core.specs.Schemes.{IsScheme};
ghost use Rattle.type_core.specs.ValidLibrary.{IsValidLibrary, own_names as the_own_names};

use crate::marks::marks_of;
use crate::pushing::{push_bytes, push_flag, push_number};
use crate::type_texts::push_type;
use sig_base::{NoMemory, Text};
use std::alloc::Global;
use type_core::{Equality, Kind, Library, Member, Scheme, Tycon, TypeName, Unit, UnitKind};

// How many names every library begins with.
const INITIAL: usize = 14;

/// The index text of a valid library.
#[tactic(auto, unfolding(crate::specs::IndexText::index_text))]
pub fn encode(alloc: Global, lib: &Library) -> Result<Text, NoMemory>
    requires valid { IsValidLibrary lib.now }
    ensures value { IfOk result (λ text. text ≡ index_text lib.now) }
{
    let mut out = Text::from_slice(alloc, b"isosrch1")?;
    push_units(&mut out, lib.units.as_slice())?;
    push_names(&mut out, own_names(lib))?;
    push_tycons(&mut out, lib.tycons.as_slice())?;
    push_members(alloc, &mut out, lib.members.as_slice())?;
    Ok(out)
}

fn own_names(lib: &Library) -> &[TypeName]
    ensures value { result.now ≡ the_own_names lib.now }
{
    match lib.names.as_slice().get(INITIAL..) {
        Some(own) => own,
        None => &[],
    }
}

fn push_unit(out: &mut Text, unit: &Unit) -> Result<(), NoMemory>
    ensures pushed { OnOk result (out.new ≡ out.old ++ unit_text unit.now) }
{
    match unit.kind {
        UnitKind::Sig => out.push(0)?,
        UnitKind::Str => out.push(1)?,
    }
    push_bytes(out, unit.id.as_slice())
}

fn push_units(out: &mut Text, units: &[Unit]) -> Result<(), NoMemory>
    ensures pushed { OnOk result (out.new ≡ out.old ++ list_text unit_text units.now) }
{
    push_number(out, units.len() as u64)?;
    for unit in units {
        push_unit(out, unit)?;
    }
    Ok(())
}

fn equality_byte(equality: Equality) -> u8
    ensures value { result ≡ spec.equality_byte equality }
{
    match equality {
        Equality::Never => 0,
        Equality::IfArgs => 1,
        Equality::Always => 2,
    }
}

fn push_name(out: &mut Text, name: &TypeName) -> Result<(), NoMemory>
    ensures pushed { OnOk result (out.new ≡ out.old ++ name_text name.now) }
{
    push_bytes(out, name.path.as_slice())?;
    push_number(out, u64::from(name.arity))?;
    out.push(equality_byte(name.equality))?;
    push_flag(out, name.external)
}

fn push_names(out: &mut Text, names: &[TypeName]) -> Result<(), NoMemory>
    ensures pushed { OnOk result (out.new ≡ out.old ++ list_text name_text names.now) }
{
    push_number(out, names.len() as u64)?;
    for name in names {
        push_name(out, name)?;
    }
    Ok(())
}

fn push_tycon(out: &mut Text, tycon: &Tycon) -> Result<(), NoMemory>
    ensures pushed { OnOk result (out.new ≡ out.old ++ tycon_text tycon.now) }
{
    push_bytes(out, tycon.path.as_slice())?;
    push_number(out, u64::from(tycon.fun.arity))?;
    push_type(out, &tycon.fun.body)
}

fn push_tycons(out: &mut Text, tycons: &[Tycon]) -> Result<(), NoMemory>
    ensures pushed { OnOk result (out.new ≡ out.old ++ list_text tycon_text tycons.now) }
{
    push_number(out, tycons.len() as u64)?;
    for tycon in tycons {
        push_tycon(out, tycon)?;
    }
    Ok(())
}

fn kind_byte(kind: Kind) -> u8
    ensures value { result ≡ spec.kind_byte kind }
{
    match kind {
        Kind::Val => 0,
        Kind::Con => 1,
        Kind::Exn => 2,
    }
}

fn push_marks(out: &mut Text, marks: &[bool]) -> Result<(), NoMemory>
    ensures pushed { OnOk result (out.new ≡ out.old ++ list_text (λ mark. flag mark ∷ []) marks.now) }
{
    push_number(out, marks.len() as u64)?;
    for mark in marks {
        push_flag(out, *mark)?;
    }
    Ok(())
}

fn push_scheme(alloc: Global, out: &mut Text, scheme: &Scheme) -> Result<(), NoMemory>
    requires scheme { IsScheme scheme.now }
    ensures pushed { OnOk result (out.new ≡ out.old ++ scheme_text scheme.now) }
{
    let marks = marks_of(alloc, scheme)?;
    push_marks(out, marks.as_slice())?;
    push_type(out, &scheme.body)
}

fn push_member(alloc: Global, out: &mut Text, member: &Member) -> Result<(), NoMemory>
    requires scheme { IsScheme member.now.scheme }
    ensures pushed { OnOk result (out.new ≡ out.old ++ member_text member.now) }
{
    out.push(kind_byte(member.kind))?;
    push_bytes(out, member.path.as_slice())?;
    push_scheme(alloc, out, &member.scheme)
}

fn push_members(alloc: Global, out: &mut Text, members: &[Member]) -> Result<(), NoMemory>
    requires schemes { All (λ member. IsScheme member.scheme) members.now }
    ensures pushed { OnOk result (out.new ≡ out.old ++ list_text member_text members.now) }
{
    push_number(out, members.len() as u64)?;
    for member in members {
        push_member(alloc, out, member)?;
    }
    Ok(())
}
