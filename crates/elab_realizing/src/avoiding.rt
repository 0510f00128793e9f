// Types in which a name doesn't stand.
ghost use Rattle.std.specs.Prelude.{◌≡◌, map};
ghost use Rattle.elab_env.specs.Avoids as spec;
ghost use Rattle.elab_rules.specs.Avoiding.{field_avoids};
ghost use Rattle.type_core.specs.Lists.{all_true};

use type_core::{Field, NameId, Ty};

/// Whether the name stands nowhere in the type.
#[cycle(avoids)]
#[tactic(auto, unfolding(elab_env::specs::Avoids::avoids))]
pub fn avoids(t: &Ty, name: NameId) -> bool
    ensures value { result ≡ spec.avoids name.0 t.now }
{
    match t {
        Ty::Var(_) => true,
        Ty::Con(n, arguments) => n.0 != name.0 && all_avoid(arguments.as_slice(), name),
        Ty::Rec(fields) => fields_avoid(fields.as_slice(), name),
        Ty::Tup(components) => all_avoid(components.as_slice(), name),
        Ty::Arrow(from, to) => avoids(from.get(), name) && avoids(to.get(), name),
    }
}

#[cycle(avoids)]
#[tactic(auto, unfolding(elab_env::specs::Avoids::avoids))]
fn all_avoid(parts: &[Ty], name: NameId) -> bool
    ensures value { result ≡ all_true (map (spec.avoids name.0) parts.now) }
{
    for part in parts {
        if !avoids(part, name) {
            return false;
        }
    }
    true
}

#[cycle(avoids)]
#[tactic(auto, unfolding(elab_env::specs::Avoids::avoids))]
fn fields_avoid(fields: &[Field], name: NameId) -> bool
    ensures value { result ≡ all_true (map (field_avoids name.0) fields.now) }
{
    for field in fields {
        if !avoids(&field.ty, name) {
            return false;
        }
    }
    true
}
