// Reading a whole text.
ghost use Rattle.std.specs.Prelude.{◌≡◌, ◌≤◌, ◌⊎◌, List, Ok, Err, length, IfOk, IfErr};
ghost use Rattle.sml_lexer.specs.declared.token.LexRefusal.{LexRefusal};
ghost use Rattle.sml_lexer.specs.declared.token.LexRefusal.TheVariants.{NoMemory};
ghost use Rattle.sml_lexer.specs.declared.token.Token.{Token};
ghost use Rattle.sml_lexer.specs.Refusals.{Refuses, Tells};
ghost use Rattle.sml_lexer.specs.Tokens.{tokens};

use crate::bytes::is_separator;
use crate::comments::{comment_end, is_opening};
use crate::longest::longest_at;
use crate::{LexRefusal, Token};
use sig_base::{List, Span, has_short_parts};
use std::alloc::Global;

/// The tokens of a text, in order, each the longest at its place (the Definition of Standard ML,
/// sections 2.1 to 2.5 and 3.1). A refusal comes exactly where reading reaches its byte: `BadByte` where no
/// separator, comment or token begins there, `OpenComment` where a comment begins there that isn't closed,
/// `LongName` where the token that begins there has a part of more than 255 bytes.
pub fn lex(alloc: Global, bytes: &[u8]) -> Result<List<Token>, LexRefusal>
    requires { length bytes.now ≤ 4194304 }
    ensures tokens { IfOk result (λ ts. tokens bytes.now ts) }
    ensures refusal { IfErr result (λ refusal. Tells bytes.now refusal) }
    ensures only_tokens { (ts : List Token) → tokens bytes.now ts → (result ≡ Ok ts) ⊎ (result ≡ Err NoMemory) }
    ensures only_refusal { (refusal : LexRefusal) → Refuses bytes.now refusal → (result ≡ Err refusal) ⊎ (result ≡ Err NoMemory) }
{
    let mut out = List::new(alloc);
    let mut at: usize = 0;
    'bytes: while at < bytes.len() {
        if is_separator(bytes[at]) {
            at += 1;
        } else if is_opening(bytes, at) {
            match comment_end(bytes, at) {
                None => return Err(LexRefusal::OpenComment(at as u32)),
                Some(end) => at = end,
            }
        } else {
            match longest_at(bytes, at) {
                None => return Err(LexRefusal::BadByte(at as u32)),
                Some((kind, end)) => {
                    if !has_short_parts(&bytes[at..end]) {
                        return Err(LexRefusal::LongName(at as u32));
                    }
                    let span = Span {
                        start: at as u32,
                        end: end as u32,
                    };
                    out.push(Token { kind, span })?;
                    at = end;
                }
            }
        }
    }
    Ok(out)
}
