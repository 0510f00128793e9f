// Paths, and the units with which they begin.
ghost use Rattle.std.specs.Prelude.{◌↔◌, ℕ, Contains, IsTrue, List};
ghost use Rattle.std.specs.List.{All};
ghost use Rattle.sig_base.specs.Identifiers.{IsAlphanumeric};
ghost use Rattle.sig_base.specs.LongIdentifiers.{HasShortParts, IsLong, IsPath};
ghost use Rattle.type_core.specs.Paths.{BeginsWith, IsMemberPath, IsTypePath};
ghost use Rattle.lib_valid.specs.Paths.{Ends};

use crate::texts::Texts;
use sig_base::{first_dot, has_short_parts, is_alphanumeric, is_identifier};

/// What stands at the end of a path: the identifier of a name or a type constructor, or that of a member.
#[derive(Clone, Copy)]
enum Ending {
    Tycon,
    Member,
}

fn may_end(ending: Ending, text: &[u8]) -> bool
    ensures exact { IsTrue result ↔ Ends ending text.now }
{
    match ending {
        Ending::Tycon => is_identifier(text) && text != b"*".as_slice(),
        Ending::Member => is_identifier(text) || text == b"=".as_slice(),
    }
}

fn is_long(ending: Ending, text: &[u8]) -> bool
    ensures exact { IsTrue result ↔ IsLong (Ends ending) text.now }
{
    let mut rest = text;
    'parts: while let Some(dot) = first_dot(rest) {
        if !is_alphanumeric(&rest[..dot]) {
            return false;
        }
        rest = &rest[dot + 1..];
    }
    may_end(ending, rest)
}

fn is_path(ending: Ending, text: &[u8]) -> bool
    ensures exact { IsTrue result ↔ (IsPath (Ends ending) text.now × HasShortParts text.now) }
{
    match first_dot(text) {
        None => false,
        Some(_) => is_long(ending, text) && has_short_parts(text),
    }
}

/// Whether a name or a type constructor may have this path.
pub(crate) fn is_type_path(path: &[u8]) -> bool
    ensures exact { IsTrue result ↔ IsTypePath path.now }
{
    is_path(Ending::Tycon, path)
}

/// Whether a member may have this path.
pub(crate) fn is_member_path(path: &[u8]) -> bool
    ensures exact { IsTrue result ↔ IsMemberPath path.now }
{
    is_path(Ending::Member, path)
}

/// Whether the path begins with one of these identifiers.
pub(crate) fn begins_with_one(identifiers: &Texts, path: &[u8]) -> bool
    requires words { All IsAlphanumeric identifiers.now }
    ensures exact { IsTrue result ↔ ((identifier : List ℕ) × Contains identifiers.now identifier × BeginsWith identifier path.now) }
{
    match first_dot(path) {
        None => false,
        Some(dot) => identifiers.has(&path[..dot]),
    }
}
