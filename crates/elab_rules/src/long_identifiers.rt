// What stands along the parts of long identifiers in environments.
ghost use Rattle.type_core.specs.declared.names.TypeName.{TypeName};
ghost use Rattle.elab_rules.specs.Environments.{type_in};
ghost use Rattle.elab_rules.specs.Standing.{AreOver, IsFoundOver};
ghost use Rattle.std.specs.Prelude.{◌≡◌, ◌<◌, ◌+◌, ◌∷◌, [], MatchOption, drop, length, take, IfSome, List};
ghost use Rattle.elab_rules.specs.LongIdentifiers as spec;
ghost use Rattle.sig_base.specs.LongIdentifiers.{parts};
ghost use Rattle.elab_rules.specs.Views.{entries_seen, found_seen};

use crate::found::Found;
use crate::scope::Scope;
use sig_base::first_dot;

// The type constructor of this identifier, with its environment.
fn found_in<'a>(id: &[u8], env: Scope<'a>) -> Option<Found<'a>>
    ensures value { found_seen result ≡ spec.found_in env.entry.entries.now (type_in id.now env.entry.entries.now) }
    ensures over { (names : List TypeName) → AreOver names env.entry.entries.now → IfSome result (IsFoundOver names) }
{
    match env.find_type(id) {
        Some(entry) => Some(Found { entry, env }),
        None => None,
    }
}

/// The type constructor at the end of a path, whose other parts are structures.
pub fn type_along<'a>(path: &[u8], env: Scope<'a>) -> Option<Found<'a>>
    ensures value { found_seen result ≡ spec.type_along (parts path.now) env.entry.entries.now }
    ensures over { (names : List TypeName) → AreOver names env.entry.entries.now → IfSome result (IsFoundOver names) }
{
    let mut env = env;
    let mut rest = path;
    'parts: loop {
        let Some(dot) = first_dot(rest) else {
            return found_in(rest, env);
        };
        match env.find_structure(&rest[..dot]) {
            None => return None,
            Some(inner) => env = inner,
        }
        rest = &rest[dot + 1..];
    }
}

/// What stands along a path of structures.
pub fn structure_along<'a>(path: &[u8], env: Scope<'a>) -> Option<Scope<'a>>
    ensures value { entries_seen result ≡ spec.structure_along (parts path.now) env.entry.entries.now }
{
    let mut env = env;
    let mut rest = path;
    'parts: loop {
        let Some(dot) = first_dot(rest) else {
            return env.find_structure(rest);
        };
        match env.find_structure(&rest[..dot]) {
            None => return None,
            Some(inner) => env = inner,
        }
        rest = &rest[dot + 1..];
    }
}
