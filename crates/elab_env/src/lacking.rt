// Whether a variable stands in a type.
ghost use Rattle.std.specs.Prelude.{◌≡◌, map};
ghost use Rattle.type_core.specs.Lists.{all_true};
ghost use Rattle.elab_env.specs.Lacks.{field_lacks, is_other, lacks};

use type_core::{Field, Ty, VarId};

fn is_other(v: VarId, n: usize) -> bool
    ensures value { result ≡ is_other n v }
{
    v.n as usize != n
}

/// Whether no variable with this number stands in the type.
#[cycle(lacks)]
pub fn lacks(t: &Ty, n: usize) -> bool
    ensures value { result ≡ lacks n t.now }
{
    match t {
        Ty::Var(v) => is_other(*v, n),
        Ty::Con(_, arguments) => all_lack(arguments.as_slice(), n),
        Ty::Rec(fields) => fields_lack(fields.as_slice(), n),
        Ty::Tup(components) => all_lack(components.as_slice(), n),
        Ty::Arrow(argument, value) => lacks(argument.get(), n) && lacks(value.get(), n),
    }
}

#[cycle(lacks)]
fn all_lack(parts: &[Ty], n: usize) -> bool
    ensures value { result ≡ all_true (map (lacks n) parts.now) }
{
    for part in parts {
        if !lacks(part, n) {
            return false;
        }
    }
    true
}

#[cycle(lacks)]
fn fields_lack(fields: &[Field], n: usize) -> bool
    ensures value { result ≡ all_true (map (field_lacks n) fields.now) }
{
    for field in fields {
        if !lacks(&field.ty, n) {
            return false;
        }
    }
    true
}
