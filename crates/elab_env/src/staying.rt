// Types that mention no realized name.
ghost use Rattle.std.specs.Prelude.{◌≡◌, false, IsTrue, map};
ghost use Rattle.elab_env.specs.Realizations.{field_resolved, resolved};
ghost use Rattle.elab_env.specs.Table.{is_realized};

use crate::name_table::NameTable;
use type_core::{Field, NameId, Ty};

// Whether the name isn't realized.
fn name_stays(name: NameId, table: &NameTable) -> bool
    ensures value { IsTrue result → is_realized table.now.realizations name.0 ≡ false }
{
    table.place_after(name, 0).is_none()
}

/// Whether the type mentions no realized name, and so means itself.
#[cycle(stays)]
pub fn stays(t: &Ty, table: &NameTable) -> bool
    ensures value { IsTrue result → resolved table.now.realizations t.now ≡ t.now }
{
    match t {
        Ty::Var(_) => true,
        Ty::Con(name, arguments) => {
            name_stays(*name, table) && all_stay(arguments.as_slice(), table)
        }
        Ty::Rec(fields) => fields_stay(fields.as_slice(), table),
        Ty::Tup(components) => all_stay(components.as_slice(), table),
        Ty::Arrow(argument, value) => stays(argument.get(), table) && stays(value.get(), table),
    }
}

#[cycle(stays)]
fn all_stay(parts: &[Ty], table: &NameTable) -> bool
    ensures value { IsTrue result → map (resolved table.now.realizations) parts.now ≡ parts.now }
{
    for part in parts {
        if !stays(part, table) {
            return false;
        }
    }
    true
}

#[cycle(stays)]
fn fields_stay(fields: &[Field], table: &NameTable) -> bool
    ensures value { IsTrue result → map (field_resolved table.now.realizations) fields.now ≡ fields.now }
{
    for field in fields {
        if !stays(&field.ty, table) {
            return false;
        }
    }
    true
}
