// The texts of tokens, and type variables.
ghost use Rattle.std.specs.Prelude.{◌≡◌, ℕ, List, Some, None, map, unwrap_or, bytes_eq, if◌then◌else◌, IfOk, OnOk};
ghost use Rattle.std.specs.Option.{option_or};
ghost use Rattle.elab_types.specs.Places.{place_at};
ghost use Rattle.elab_types.specs.Sources as spec;
ghost use Rattle.elab_types.specs.Sources.{AreWithin, text_at, texts_of, variable};
ghost use Rattle.elab_types.specs.Views.{texts};
ghost use Rattle.sml_lexer.specs.Tokens.{tokens as tokens_of};

use crate::places::Places;
use crate::source::Source;
use sig_base::{List, NoMemory};
use sml_lexer::{Token, spans_inside};
use std::alloc::Global;
use type_core::VarId;

// The text of the token of this number; nothing past the end.
fn text_of<'a>(bytes: &'a [u8], tokens: &[Token], token: usize) -> &'a [u8]
    requires within { AreWithin bytes.now tokens.now }
    ensures value { result.now ≡ text_at (texts_of bytes.now tokens.now) token }
{
    match tokens.get(token) {
        None => &[],
        Some(token) => &bytes[token.span.start as usize..token.span.end as usize],
    }
}

fn is_equality_variable(text: &[u8]) -> bool
    ensures value { result ≡ spec.is_equality_variable text.now }
{
    matches!(text, [b'\'', b'\'', ..])
}

/// Whether the text is that of a long identifier.
pub fn is_qualified(text: &[u8]) -> bool
    ensures value { result ≡ spec.is_qualified text.now }
{
    for b in text {
        if *b == b'.' {
            return true;
        }
    }
    false
}

impl Source<'_> {
    /// The text of the token of this number; nothing past the end.
    pub fn text(&self, token: u32) -> &[u8]
        ensures value { result.now ≡ text_at (texts self.now) token }
    {
        text_of(self.bytes, self.tokens, token as usize)
    }

    /// The type variable at a token.
    pub fn variable(&self, token: u32) -> VarId
        ensures value { result ≡ variable (texts self.now) token }
    {
        let n = match self.firsts.get(token as usize) {
            None => 0,
            Some(first) => *first,
        };
        VarId {
            n,
            eq: is_equality_variable(self.text(token)),
        }
    }
}

/// Tokens of a text stand within it, as a `Source` asks.
pub fn tokens_within(bytes: &[u8], tokens: &[Token])
    requires tokens { tokens_of bytes.now tokens.now }
    ensures within { AreWithin bytes.now tokens.now }
{
    spans_inside();
    let _ = bytes;
    let _ = tokens;
}

/// For each token the number of the first with the same text.
pub fn first_tokens(alloc: Global, bytes: &[u8], tokens: &[Token]) -> Result<List<u32>, NoMemory>
    requires within { AreWithin bytes.now tokens.now }
    ensures value { IfOk result (λ firsts. firsts ≡ spec.first_tokens (texts_of bytes.now tokens.now)) }
{
    let mut met = Places::new(alloc);
    let mut firsts = List::new(alloc);
    for token in 0..tokens.len() {
        let first = first_met(alloc, &mut met, text_of(bytes, tokens, token), token)?;
        firsts.push(first)?;
    }
    Ok(firsts)
}

// The number of the token that had this text first, which is this one where none had.
fn first_met(alloc: Global, met: &mut Places, text: &[u8], token: usize) -> Result<u32, NoMemory>
    ensures value { IfOk result (λ first. first ≡ unwrap_or (place_at met.old text.now) token) }
    ensures met { OnOk result ((other : List ℕ) → place_at met.new other ≡ option_or (place_at met.old other) (if bytes_eq other text.now then Some token else None)) }
{
    match met.get(text) {
        Some(first) => as_number(first),
        None => {
            met.insert(alloc, text, token)?;
            as_number(token)
        }
    }
}

/// The number as a number of 32 bits, which stands for a token, a name or an arity.
pub fn as_number(n: usize) -> Result<u32, NoMemory>
    ensures value { IfOk result (λ m. m ≡ n) }
{
    match u32::try_from(n) {
        Ok(m) => Ok(m),
        Err(_) => Err(NoMemory),
    }
}
