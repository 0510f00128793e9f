// The parser of types.
ghost use Rattle.std.specs.Prelude.{◌≡◌, ◌≤◌, ◌⊎◌, ℕ, ◌+◌, List, Ok, Err, Some, None, length, take, drop, IfOk, IfErr};
ghost use Rattle.sml_lexer.specs.Tokens.{tokens as tokens_of};
ghost use Rattle.ty_parser.specs.machine.Machine as machine;
ghost use Rattle.ty_parser.specs.machine.Machine.{state_of};
ghost use Rattle.ty_parser.specs.Sorts.{sorts_of};
ghost use Rattle.ty_parser.specs.Phrases.{Phrase, PhraseFrom, IsShallow, Refuses, Tells, most_open};
ghost use Rattle.ty_parser.specs.Parts.{Takes, PartIs, RefusesPart, TellsPart};
ghost use Rattle.ty_parser.specs.declared.tree.TyExp.{TyExp};
ghost use Rattle.ty_parser.specs.declared.tree.ParseRefusal.{ParseRefusal as AParseRefusal};
ghost use Rattle.ty_parser.specs.declared.tree.ParseRefusal.TheVariants.{Syntax, NoMemory};

use crate::reader::Reader;
use crate::sort::sort_of;
use crate::tree::{ParseRefusal, TypeAt, TypePart};
use sml_lexer::Token;
use std::alloc::Global;

// How many parentheses and braces may be open.
const MOST_OPEN: u32 = 200;

/// The type that the tokens are, all of them: they are what `lex` gave for the bytes (the Definition of
/// Standard ML, section 2.8 and appendices A and B, as specs/Grammar.antt has it). At most 200
/// parentheses and braces may be open.
/// `Syntax(k)` comes exactly where the first k tokens begin a type, no more of them do, and all of them are
/// no type, as `Syntax(1)` for `int : int` and `Syntax(2)` for `int ->`. `TooDeep(k)` comes exactly where
/// token k is a `(` or a `{` that can stand there and 200 are open before it. What comes first decides.
pub fn parse_type(alloc: Global, bytes: &[u8], tokens: &[Token]) -> Result<TypeAt, ParseRefusal>
    requires size { length bytes.now ≤ 4194304 }
    requires tokens { tokens_of bytes.now tokens.now }
    ensures tree { IfOk result (λ t. Phrase (sorts_of bytes.now tokens.now) t.ty) }
    ensures first { IfOk result (λ t. t.first ≡ 0) }
    ensures shallow { IfOk result (λ _. IsShallow Phrase 0 (sorts_of bytes.now tokens.now) (length tokens.now)) }
    ensures refusal { IfErr result (λ refusal. Tells Phrase (sorts_of bytes.now tokens.now) refusal) }
    ensures only_tree { (e : TyExp) → Phrase (sorts_of bytes.now tokens.now) e
        → IsShallow Phrase 0 (sorts_of bytes.now tokens.now) (length tokens.now)
        → (result ≡ Ok (record { first = 0; ty = e })) ⊎ (result ≡ Err NoMemory) }
    ensures only_refusal { (refusal : AParseRefusal) → Refuses Phrase (sorts_of bytes.now tokens.now) refusal
        → (result ≡ Err refusal) ⊎ (result ≡ Err NoMemory) }
{
    parse_whole(alloc, bytes, tokens)
}

// `parse_type` as far as what it gives is due.
fn parse_whole(alloc: Global, bytes: &[u8], tokens: &[Token]) -> Result<TypeAt, ParseRefusal>
    requires size { length bytes.now ≤ 4194304 }
    requires tokens { tokens_of bytes.now tokens.now }
    ensures tree { IfOk result (λ t. Phrase (sorts_of bytes.now tokens.now) t.ty) }
    ensures first { IfOk result (λ t. t.first ≡ 0) }
    ensures shallow { IfOk result (λ _. IsShallow Phrase 0 (sorts_of bytes.now tokens.now) (length tokens.now)) }
    ensures refusal { IfErr result (λ refusal. Tells Phrase (sorts_of bytes.now tokens.now) refusal) }
{
    let TypePart { ty, next } = read_type(alloc, bytes, tokens, 0, 0)?;
    if (next as usize) < tokens.len() {
        return Err(ParseRefusal::Syntax(next));
    }
    Ok(ty)
}

/// The type that begins at token `at`, inside tokens that `lex` gave for the bytes, with `depth`
/// parentheses, braces and `sig` open before it. It takes tokens for as long as those taken begin a type.
/// Where these are a type, `next` is the number of the token after them, else `Syntax` comes with that
/// number. `TooDeep(k)` comes exactly where token k is a `(` or a `{` that can stand there and 200 are
/// open before it, `depth` of them outside the type.
pub fn read_type(
    alloc: Global,
    bytes: &[u8],
    tokens: &[Token],
    at: u32,
    depth: u32,
) -> Result<TypePart, ParseRefusal>
    requires size { length bytes.now ≤ 4194304 }
    requires tokens { tokens_of bytes.now tokens.now }
    requires within { at ≤ length tokens.now }
    requires shallow { depth ≤ most_open }
    ensures tree { IfOk result (λ part. PartIs depth at (drop at (sorts_of bytes.now tokens.now)) part) }
    ensures first { IfOk result (λ part. part.ty.first ≡ at) }
    ensures refusal { IfErr result (λ refusal. TellsPart depth at (drop at (sorts_of bytes.now tokens.now)) refusal) }
    ensures only_tree { (n : ℕ) (e : TyExp) → Takes depth at (drop at (sorts_of bytes.now tokens.now)) n
        → PhraseFrom at (take n (drop at (sorts_of bytes.now tokens.now))) e
        → (result ≡ Ok (record { ty = record { first = at; ty = e }; next = at + n })) ⊎ (result ≡ Err NoMemory) }
    ensures only_refusal { (refusal : AParseRefusal)
        → RefusesPart depth at (drop at (sorts_of bytes.now tokens.now)) refusal
        → (result ≡ Err refusal) ⊎ (result ≡ Err NoMemory) }
{
    read_part(alloc, bytes, tokens, at, depth)
}

// `read_type` as far as what it gives is due.
fn read_part(
    alloc: Global,
    bytes: &[u8],
    tokens: &[Token],
    at: u32,
    depth: u32,
) -> Result<TypePart, ParseRefusal>
    requires size { length bytes.now ≤ 4194304 }
    requires tokens { tokens_of bytes.now tokens.now }
    requires within { at ≤ length tokens.now }
    requires shallow { depth ≤ most_open }
    ensures tree { IfOk result (λ part. PartIs depth at (drop at (sorts_of bytes.now tokens.now)) part) }
    ensures first { IfOk result (λ part. part.ty.first ≡ at) }
    ensures refusal { IfErr result (λ refusal. TellsPart depth at (drop at (sorts_of bytes.now tokens.now)) refusal) }
{
    let mut reader = Reader::new(alloc);
    let mut place = at;
    'tokens: while (place as usize) < tokens.len() {
        let sort = sort_of(bytes, tokens[place as usize]);
        if !reader.accepts(sort) {
            return ended(alloc, &mut reader, at, place);
        }
        let can = reader.next(alloc, place, sort)?;
        if !can {
            return Err(ParseRefusal::Syntax(place));
        }
        if depth + reader.depth() > MOST_OPEN {
            return Err(ParseRefusal::TooDeep(place));
        }
        place += 1;
    }
    ended(alloc, &mut reader, at, place)
}

// What reading gives where no more tokens are taken.
fn ended(
    alloc: Global,
    reader: &mut Reader,
    first: u32,
    next: u32,
) -> Result<TypePart, ParseRefusal>
    ensures tree { IfOk result (λ part. machine.finish (state_of reader.old) ≡ Some part.ty.ty) }
    ensures places { IfOk result (λ part. (part.ty.first ≡ first) × (part.next ≡ next)) }
    ensures refusal { IfErr result (λ refusal.
        (refusal ≡ NoMemory) ⊎ ((refusal ≡ Syntax next) × (machine.finish (state_of reader.old) ≡ None))) }
{
    match reader.finish(alloc)? {
        None => Err(ParseRefusal::Syntax(next)),
        Some(ty) => Ok(TypePart {
            ty: TypeAt { first, ty },
            next,
        }),
    }
}
