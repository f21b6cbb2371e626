//! Guards are put into a text.

ghost use Rattle.std.specs.Prelude.{◌≡◌, ◌++◌, drop, slice_get, Some, None, OnOk, IfOk, MatchOption};
ghost use Rattle.pg_text.specs.Cutting.{is_blank};
ghost use Rattle.pg_out_guarded.specs.Texts.{gap, guard_at, between, with_guards, text_with_guards};

use crate::places::{body_places, push_chosen};
use pg_text::{TextFault, tokens};
use std::alloc::{AllocError, Global};

/// What is put behind a brace.
const GUARD: &[u8] = b" if mode { trap; }";

/// What separates tokens: space, tab, CR or LF.
fn is_blank(byte: u8) -> bool
    ensures { result ≡ is_blank byte }
{
    byte == b' ' || byte == b'\t' || byte == b'\r' || byte == b'\n'
}

/// What stands between a guard and the byte behind it.
fn gap(behind: Option<u8>) -> &'static [u8]
    ensures { result.now ≡ gap behind }
{
    match behind {
        None => b"",
        Some(byte) => if is_blank(byte) { b"" } else { b" " },
    }
}

/// The byte at a place of a text; none behind its end.
fn byte_at(text: &[u8], place: usize) -> Option<u8>
    ensures { result ≡ slice_get text.now place }
{
    match text.get(place) {
        None => None,
        Some(byte) => Some(*byte),
    }
}

/// Pushes the guard that is put at a place of a text.
#[tactic(auto, using(crate::proofs::PuttingLemmas::guard_put))]
fn push_guard(new: &mut Vec<u8>, text: &[u8], place: usize) -> Result<(), AllocError>
    ensures { OnOk result (new.new.items ≡ new.old.items ++ guard_at text.now place) }
{
    new.extend_from_slice(GUARD)?;
    new.extend_from_slice(gap(byte_at(text, place)))
}

/// The bytes of a text from a place on.
fn from(text: &[u8], at: usize) -> &[u8]
    ensures { result.now ≡ drop at text.now }
{
    &text[at.min(text.len())..]
}

/// The bytes of a text from one place up to another, those that there are.
fn between(text: &[u8], at: usize, to: usize) -> &[u8]
    ensures { result.now ≡ between text.now at to }
{
    let bytes = from(text, at);
    &bytes[..to.saturating_sub(at).min(bytes.len())]
}

/// A text with guards put in at these places.
#[tactic(auto, unfolding(crate::specs::Texts::with_guards))]
fn put_guards(alloc: Global, text: &[u8], places: &[usize]) -> Result<Vec<u8>, AllocError>
    ensures { IfOk result (λ new. new.items ≡ with_guards text.now 0 places.now) }
{
    let mut new = Vec::new(alloc);
    let mut at = 0;
    for place in places {
        new.extend_from_slice(between(text, at, *place))?;
        push_guard(&mut new, text, *place)?;
        at = *place;
    }
    new.extend_from_slice(from(text, at))?;
    Ok(new)
}

/// The text of a description with guards behind the braces of the bodies with a mark; `None` where it has no tokens.
pub(crate) fn with_guards(
    alloc: Global,
    text: &[u8],
    marks: &[bool],
) -> Result<Option<Vec<u8>>, AllocError>
    ensures { IfOk result (λ found. MatchOption found (text_with_guards marks.now text.now ≡ None) (λ new. text_with_guards marks.now text.now ≡ Some new.items)) }
{
    let toks = match tokens(alloc, text) {
        Ok(toks) => toks,
        Err(TextFault::Memory) => return Err(AllocError),
        Err(
            TextFault::BadByte(_)
            | TextFault::BadNumber(_)
            | TextFault::BadWord(_)
            | TextFault::BadPattern(_),
        ) => return Ok(None),
    };
    let places = body_places(alloc, toks.as_slice())?;
    let mut list = Vec::new(alloc);
    push_chosen(&mut list, marks, places.as_slice())?;
    Ok(Some(put_guards(alloc, text, list.as_slice())?))
}
