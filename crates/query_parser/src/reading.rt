// The scheme that a query asks for.
ghost use Rattle.std.specs.Prelude.{◌≡◌, ◌≤◌, length, IfOk, IfErr, Result, Err};
ghost use Rattle.elab_types.specs.Outcome.{Outcome};
ghost use Rattle.elab_types.specs.Sources.{texts_of};
ghost use Rattle.elab_types.specs.Stages.{Flaw, Reads, Tells, placed as the_placed};
ghost use Rattle.query_parser.specs.Queries.{Asks, IsQuery, asked, queries};
ghost use Rattle.elab_types.specs.Views.{texts};
ghost use Rattle.query_parser.specs.Types.{typed};
ghost use Rattle.query_parser.specs.Views.{Gives, IsWithin, flaw_of};
ghost use Rattle.type_core.specs.InitialNames.{initial_names as the_initial_names};
ghost use Rattle.query_parser.specs.declared.refusal.QueryWhy.{QueryWhy as AQueryWhy};
ghost use Rattle.sml_lexer.specs.Tokens.{tokens as tokens_of};
ghost use Rattle.ty_parser.specs.Phrases.{Phrase};
ghost use Rattle.ty_parser.specs.Sorts.{sorts_of};
ghost use Rattle.type_core.specs.declared.ty.Scheme.{Scheme as AScheme};
ghost use Rattle.type_core.specs.ValidLibrary.{IsValidLibrary};

use crate::laws::queries_have_one_answer;
use crate::place::Place;
use crate::refusal::{QueryRefusal, QueryWhy, Stop};
use crate::typing::type_of;
use elab_types::{Source, first_tokens, no_phrase, no_tokens, start_of, tokens_within};
use sml_lexer::{Token, lex};
use std::alloc::Global;
use ty_parser::{TyExp, parse_type};
use type_core::{Library, Scheme, Ty, TypeName, close, initial_names, normal_size};

// The greatest number of bytes of a query.
const MAX_SOURCE: u32 = 4_194_304;

// The greatest number of nodes of the normal form of a query's type.
const MAX_NORMAL: u64 = 8_000;

// Where a type expression of a query fails.
fn placed(bytes: &[u8], tokens: &[Token], stop: Stop) -> QueryRefusal
    requires size { length bytes.now ≤ 4194304 }
    requires tokens { tokens_of bytes.now tokens.now }
    ensures value { (due : Outcome AQueryWhy AScheme) → Gives due (Err stop) → Tells flaw_of (λ told. the_placed bytes.now tokens.now due ≡ told) (Err result) }
    ensures within { IsWithin bytes.now result }
{
    match stop {
        Stop::Failed(why, token) => QueryRefusal::Refused(why, start_of(bytes, tokens, token)),
        Stop::NoMemory => QueryRefusal::NoMemory,
    }
}

// The type of a type expression of a query.
fn typed_in(
    alloc: Global,
    source: &Source<'_>,
    lib: &Library,
    initial: &[TypeName],
    e: &TyExp,
) -> Result<Ty, Stop>
    requires initial { initial.now ≡ the_initial_names }
    ensures outcome { Gives (typed e.now (record { texts = texts source.now; library = lib.now })) result }
{
    let place = Place {
        source: *source,
        library: lib,
        initial,
    };
    type_of(alloc, e, &place)
}

// The scheme of a type expression of a query.
fn scheme_of(
    alloc: Global,
    lib: &Library,
    bytes: &[u8],
    tokens: &[Token],
    e: &TyExp,
) -> Result<Scheme, Stop>
    requires valid { IsValidLibrary lib.now }
    requires tokens { tokens_of bytes.now tokens.now }
    requires phrase { Phrase (sorts_of bytes.now tokens.now) e.now }
    ensures outcome { Gives (asked lib.now (texts_of bytes.now tokens.now) e.now) result }
    ensures query { IfOk result (IsQuery lib.now.names) }
{
    tokens_within(bytes, tokens);
    let firsts = first_tokens(alloc, bytes, tokens)?;
    let initial = initial_names(alloc)?;
    let source = Source {
        bytes,
        tokens,
        firsts: firsts.as_slice(),
    };
    let t = typed_in(alloc, &source, lib, initial.as_slice(), e)?;
    if normal_size(&t) > MAX_NORMAL {
        return Err(Stop::Failed(QueryWhy::NormalTooLarge, 0));
    }
    let scheme = close(alloc, &t)?;
    Ok(scheme)
}

// The scheme of a query that has these tokens.
fn query_of(
    alloc: Global,
    lib: &Library,
    bytes: &[u8],
    tokens: &[Token],
) -> Result<Scheme, QueryRefusal>
    requires valid { IsValidLibrary lib.now }
    requires size { length bytes.now ≤ 4194304 }
    requires tokens { tokens_of bytes.now tokens.now }
    ensures outcome { Tells flaw_of (Reads (queries lib.now) bytes.now) result }
    ensures query { IfOk result (IsQuery lib.now.names) }
    ensures within { IfErr result (IsWithin bytes.now) }
{
    match parse_type(alloc, bytes, tokens) {
        Ok(parsed) => match scheme_of(alloc, lib, bytes, tokens, &parsed.ty) {
            Ok(scheme) => Ok(scheme),
            Err(stop) => Err(placed(bytes, tokens, stop)),
        },
        Err(refusal) => Err(QueryRefusal::from(no_phrase(bytes, tokens, refusal))),
    }
}

// The scheme of a query of these bytes.
fn read_bytes(alloc: Global, lib: &Library, bytes: &[u8]) -> Result<Scheme, QueryRefusal>
    requires valid { IsValidLibrary lib.now }
    ensures outcome { Tells flaw_of (Asks lib.now bytes.now) result }
    ensures query { IfOk result (IsQuery lib.now.names) }
    ensures within { IfErr result (IsWithin bytes.now) }
{
    if bytes.len() > MAX_SOURCE as usize {
        return Err(QueryRefusal::Refused(QueryWhy::TooLarge, 0));
    }
    match lex(alloc, bytes) {
        Ok(tokens) => query_of(alloc, lib, bytes, tokens.as_slice()),
        Err(refusal) => Err(QueryRefusal::from(no_tokens(bytes, refusal))),
    }
}

/// The scheme of a query over a valid library. A query is a type: its unqualified constructors are the
/// initial ones, its qualified ones type constructors of the library by their paths, or external names.
/// `Refused` names the first condition that fails, and the byte at which it does.
pub fn read_query(alloc: Global, lib: &Library, text: &str) -> Result<Scheme, QueryRefusal>
    requires valid { IsValidLibrary lib.now }

    // What comes of the query, and that nothing else does.
    ensures outcome { Tells flaw_of (Asks lib.now text.now) result }
    ensures exact { (due : Result AScheme (Flaw AQueryWhy)) → Asks lib.now text.now due → Tells flaw_of (λ told. told ≡ due) result }

    // The scheme can be searched for, and the place of a refusal can be told.
    ensures query { IfOk result (IsQuery lib.now.names) }
    ensures within { IfErr result (IsWithin text.now) }
{
    queries_have_one_answer();
    read_bytes(alloc, lib, text.as_bytes())
}
