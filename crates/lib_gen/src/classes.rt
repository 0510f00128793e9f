// The distinct schemes of a library.
ghost use Rattle.std.specs.Prelude.{◌≡◌, ◌↔◌, IfOk, IsTrue, OnOk};
ghost use Rattle.type_core.specs.ValidLibrary.{IsValidLibrary};
ghost use Rattle.lib_gen.specs.Classes.{AreClasses, HasScheme, MayGain};

use search_core::valid_libraries_can_be_searched;
use sig_base::{List, NoMemory, Text};
use std::alloc::Global;
use type_core::{Kind, Library, Member, Scheme, TypeName, copy, same};
use type_numbers::TypeNumbers;

/// The distinct schemes of a library.
#[derive(Drop)]
pub struct Classes {
    /// For each member of the library the number of its scheme.
    pub numbers: List<usize>,
    /// A library that has one member of each scheme, and the same names.
    pub schemes: Library,
}

/// The distinct schemes of the library.
pub fn classes_of(alloc: Global, lib: &Library) -> Result<Classes, NoMemory>
    requires valid { IsValidLibrary lib.now }
    ensures classes { IfOk result (AreClasses lib.now) }
{
    let mut types = TypeNumbers::new(alloc)?;
    let mut numbers = List::new(alloc);
    let mut members = List::new(alloc);
    let all = lib.members.as_slice();
    for i in 0..all.len() {
        let number = number_of(alloc, &all[i].scheme, &mut types, &mut members)?;
        numbers.push(number)?;
    }
    let names = same_names(alloc, lib.names.as_slice())?;
    Ok(Classes {
        numbers,
        schemes: Library {
            units: List::new(alloc),
            names,
            tycons: List::new(alloc),
            members,
        },
    })
}

/// The number of a member that has the scheme, which is added where there is none.
///
/// A number of types says where to look.
fn number_of(
    alloc: Global,
    scheme: &Scheme,
    types: &mut TypeNumbers,
    members: &mut List<Member>,
) -> Result<usize, NoMemory>
    ensures number { IfOk result (λ number. HasScheme members.new number scheme.now) }
    ensures gained { OnOk result (MayGain scheme.now members.old members.new) }
{
    let number = types.number(&scheme.body)?;
    if let Some(member) = members.get(number)
        && same_schemes(&member.scheme, scheme)
    {
        return Ok(number);
    }
    let last = members.len();
    members.push(with_scheme(alloc, scheme)?)?;
    Ok(last)
}

fn same_schemes(a: &Scheme, b: &Scheme) -> bool
    ensures value { IsTrue result ↔ (a.now ≡ b.now) }
{
    a.vars == b.vars && same(&a.body, &b.body)
}

fn with_scheme(alloc: Global, scheme: &Scheme) -> Result<Member, NoMemory>
    ensures scheme { IfOk result (λ member. member.scheme ≡ scheme.now) }
{
    Ok(Member {
        kind: Kind::Val,
        path: Text::new(alloc),
        scheme: Scheme {
            vars: scheme.vars,
            body: copy(alloc, &scheme.body)?,
        },
    })
}

fn same_names(alloc: Global, names: &[TypeName]) -> Result<List<TypeName>, NoMemory>
    ensures value { IfOk result (λ copies. copies ≡ names.now) }
{
    let mut copies = List::new(alloc);
    for name in names {
        copies.push(TypeName {
            path: Text::from_slice(alloc, name.path.as_slice())?,
            arity: name.arity,
            equality: name.equality,
            external: name.external,
        })?;
    }
    Ok(copies)
}
