// A text with its tokens.
ghost use Rattle.std.specs.Prelude.{◌≡◌};
ghost use Rattle.elab_types.specs.Sources.{AreWithin, first_tokens, texts_of};

use sml_lexer::Token;

/// A text, its tokens, and for each of them the number of the first with the same text.
#[derive(Clone, Copy)]
pub struct Source<'a> {
    pub bytes: &'a [u8],
    pub tokens: &'a [Token],
    pub firsts: &'a [u32],
    ghost within: { AreWithin bytes.now tokens.now },
    ghost first: { firsts.now ≡ first_tokens (texts_of bytes.now tokens.now) },
}
