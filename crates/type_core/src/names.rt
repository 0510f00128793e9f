// The names of type constructors.
ghost use Rattle.std.specs.Prelude.{◌≡◌, ◌++◌, ◌∷◌, [], IfOk, OnOk};
ghost use Rattle.type_core.specs.InitialNames.{base_names, initial, initial_names, unary_names};

use sig_base::{List, NoMemory, Text};
use std::alloc::Global;

/// When an application of a type name admits equality (the Definition, section 4.4).
#[derive(Clone, Copy, Debug, PartialEq, Eq)]
pub enum Equality {
    Never,
    /// Exactly where each argument does.
    IfArgs,
    /// Whatever the arguments are, as with `ref`.
    Always,
}

/// A type constructor's name.
#[derive(Drop)]
pub struct TypeName {
    /// The long identifier by which it is printed.
    pub path: Text,
    /// How many arguments it takes.
    pub arity: u32,
    pub equality: Equality,
    /// Whether it was only mentioned, by a path that no file describes.
    pub external: bool,
}

/// The names that every file may use (the Definition, appendix C, and the Basis Library), numbered from 0.
pub fn initial_names(alloc: Global) -> Result<List<TypeName>, NoMemory>
    ensures value { IfOk result (λ names. names ≡ initial_names) }
{
    let mut names = List::new(alloc);
    push_base_names(alloc, &mut names)?;
    push_unary_names(alloc, &mut names)?;
    Ok(names)
}

fn push_base_names(alloc: Global, names: &mut List<TypeName>) -> Result<(), NoMemory>
    ensures pushed { OnOk result (names.new ≡ names.old ++ base_names) }
{
    push_initial(alloc, names, b"int", 0, Equality::IfArgs)?;
    push_initial(alloc, names, b"word", 0, Equality::IfArgs)?;
    push_initial(alloc, names, b"real", 0, Equality::Never)?;
    push_initial(alloc, names, b"char", 0, Equality::IfArgs)?;
    push_initial(alloc, names, b"string", 0, Equality::IfArgs)?;
    push_initial(alloc, names, b"substring", 0, Equality::Never)?;
    push_initial(alloc, names, b"exn", 0, Equality::Never)?;
    push_initial(alloc, names, b"bool", 0, Equality::IfArgs)?;
    push_initial(alloc, names, b"order", 0, Equality::IfArgs)
}

fn push_unary_names(alloc: Global, names: &mut List<TypeName>) -> Result<(), NoMemory>
    ensures pushed { OnOk result (names.new ≡ names.old ++ unary_names) }
{
    push_initial(alloc, names, b"list", 1, Equality::IfArgs)?;
    push_initial(alloc, names, b"ref", 1, Equality::Always)?;
    push_initial(alloc, names, b"option", 1, Equality::IfArgs)?;
    push_initial(alloc, names, b"vector", 1, Equality::IfArgs)?;
    push_initial(alloc, names, b"array", 1, Equality::Always)
}

fn push_initial(
    alloc: Global,
    names: &mut List<TypeName>,
    path: &[u8],
    arity: u32,
    equality: Equality,
) -> Result<(), NoMemory>
    ensures pushed { OnOk result (names.new ≡ names.old ++ initial path.now arity equality ∷ []) }
{
    let path = Text::from_slice(alloc, path)?;
    names.push(TypeName {
        path,
        arity,
        equality,
        external: false,
    })
}
