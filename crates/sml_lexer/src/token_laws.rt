// What holds of the tokens of every text.
ghost use Rattle.std.specs.Prelude.{◌≡◌, ℕ, ◌<◌, ◌≤◌, ◌↔◌, List, length};
ghost use Rattle.std.specs.List.{All};
ghost use Rattle.sig_base.specs.LongIdentifiers.{HasShortParts};
ghost use Rattle.sml_lexer.specs.declared.token.LexRefusal.{LexRefusal};
ghost use Rattle.sml_lexer.specs.declared.token.Token.{Token};
ghost use Rattle.sml_lexer.specs.declared.token.TokenKind.TheVariants.{Long};
ghost use Rattle.sml_lexer.specs.LongPlaces.{IsLongAt};
ghost use Rattle.sml_lexer.specs.Refusals.{Refuses};
ghost use Rattle.sml_lexer.specs.Tokens.{AreInOrder, IsTokenAt, StandsAt, text_of, tokens};

/// A text has one list of tokens.
pub fn one_list()
    ensures law { (bytes : List ℕ) (ts us : List Token) → tokens bytes ts → tokens bytes us → ts ≡ us }
{}

/// A text that has tokens isn't refused.
pub fn no_refusal()
    ensures law { (bytes : List ℕ) (ts : List Token) (refusal : LexRefusal) → tokens bytes ts → Refuses bytes refusal → ⊥ }
{}

/// A text is refused for one cause, at one byte.
pub fn one_refusal()
    ensures law { (bytes : List ℕ) (refusal other : LexRefusal) → Refuses bytes refusal → Refuses bytes other → refusal ≡ other }
{}

/// Each token of a text is the token at its place, and has no part of more than 255 bytes.
pub fn tokens_at_their_places()
    ensures law { (bytes : List ℕ) (ts : List Token) → tokens bytes ts → All (λ t. IsTokenAt bytes t.kind t.span.start t.span.end × HasShortParts (text_of bytes t)) ts }
{}

/// A long identifier, which is told by its text and by its last word's end, is one by the places of its parts: each is
/// the longest word at its place.
pub fn long_identifiers_by_place()
    ensures law { (bytes : List ℕ) (start end : ℕ) → end ≤ length bytes → StandsAt bytes Long start end ↔ IsLongAt bytes start end }
{}

/// Each token has bytes, and they lie in the text.
pub fn spans_inside()
    ensures law { (bytes : List ℕ) (ts : List Token) → tokens bytes ts → All (λ t. (t.span.start < t.span.end) × (t.span.end ≤ length bytes)) ts }
{}

/// Tokens stand in order and don't overlap.
pub fn spans_in_order()
    ensures law { (bytes : List ℕ) (ts : List Token) → tokens bytes ts → AreInOrder ts }
{}

/// A text has at most as many tokens as bytes.
pub fn tokens_count()
    ensures law { (bytes : List ℕ) (ts : List Token) → tokens bytes ts → length ts ≤ length bytes }
{}
