// What is wrong with a text, and at which byte.
ghost use Rattle.std.specs.Prelude.{◌≡◌, ◌≤◌, length};
ghost use Rattle.elab_types.specs.Stages.{IsWithin, of_lexer, of_parser, start_of as the_start_of};
ghost use Rattle.sml_lexer.specs.Refusals.{Tells as TellsText};
ghost use Rattle.sml_lexer.specs.Tokens.{tokens as tokens_of};

use crate::fault::{TextFault, TextRefusal};
use sml_lexer::{LexRefusal, Token, spans_inside};
use ty_parser::ParseRefusal;

/// The byte at which a token starts, or the end of the text past the last of them.
pub fn start_of(bytes: &[u8], tokens: &[Token], k: u32) -> u32
    requires size { length bytes.now ≤ 4194304 }
    requires tokens { tokens_of bytes.now tokens.now }
    ensures value { result ≡ the_start_of bytes.now tokens.now k }
    ensures within { result ≤ length bytes.now }
{
    spans_inside();
    match tokens.get(k as usize) {
        None => bytes.len() as u32,
        Some(token) => token.span.start,
    }
}

/// What is wrong with a text that the lexer refused.
pub fn no_tokens(bytes: &[u8], refusal: LexRefusal) -> TextRefusal
    requires refused { TellsText bytes.now refusal }
    ensures value { result ≡ of_lexer refusal }
    ensures within { IsWithin bytes.now result }
{
    let _ = bytes;
    match refusal {
        LexRefusal::BadByte(place) => TextRefusal::Refused(TextFault::BadByte, place),
        LexRefusal::OpenComment(place) => TextRefusal::Refused(TextFault::OpenComment, place),
        LexRefusal::LongName(place) => TextRefusal::Refused(TextFault::LongName, place),
        LexRefusal::NoMemory => TextRefusal::NoMemory,
    }
}

/// What is wrong with a text whose tokens a parser refused.
pub fn no_phrase(bytes: &[u8], tokens: &[Token], refusal: ParseRefusal) -> TextRefusal
    requires size { length bytes.now ≤ 4194304 }
    requires tokens { tokens_of bytes.now tokens.now }
    ensures value { result ≡ of_parser bytes.now tokens.now refusal }
    ensures within { IsWithin bytes.now result }
{
    match refusal {
        ParseRefusal::Syntax(k) => {
            TextRefusal::Refused(TextFault::Syntax, start_of(bytes, tokens, k))
        }
        ParseRefusal::TooDeep(k) => {
            TextRefusal::Refused(TextFault::TooDeep, start_of(bytes, tokens, k))
        }
        ParseRefusal::NoMemory => TextRefusal::NoMemory,
    }
}
