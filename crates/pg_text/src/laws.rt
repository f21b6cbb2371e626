//! What follows from the definition of a text's tokens, for those who read it: none of it does
//! anything when it runs.

ghost use Rattle.std.specs.Prelude.{◌≡◌, List, Ok, All, length};
ghost use Rattle.pg_lang_token.specs.declared.tok.Tok.{Tok};
ghost use Rattle.pg_text.specs.declared.place.Span.{Span};
ghost use Rattle.pg_text.specs.Cutting.{cut};
ghost use Rattle.pg_text.specs.Formed.{IsFormed};
ghost use Rattle.pg_text.specs.Places.{InOrder};

/// The places of a text's tokens follow one another from left to right, do not overlap, and lie
/// within the text; each token takes at least one byte.
pub fn places_are_in_order(text: &[u8])
    ensures { (ts : List (Tok × Span)) → cut text.now ≡ Ok ts → InOrder 0 (length text.now) ts }
{}

/// Each word of a text makes a word, its numbers are below 2^64, and the bytes of its patterns may
/// stand in a pattern.
pub fn tokens_are_formed(text: &[u8])
    ensures { (ts : List (Tok × Span)) → cut text.now ≡ Ok ts → All (λ t. IsFormed t.0) ts }
{}
