//! The whole text.
//!
//! A loop from the left: what stands at the front is looked at by `piece`, its token is put at the
//! end of the list, and the loop goes on behind it. Each byte is passed over once by the loop and
//! read a few times by what looks at the front, so the time grows with the bytes alone.
//!
//! Whoever reads a description calls `tokens` once, for the whole of its text, and works on the list
//! from then on. Each token has its place beside it, so that a fault which is found later, in the order
//! of the tokens, can still say where in the text it is.

ghost use Rattle.std.specs.Prelude.{◌≡◌, ◌+◌, ◌<◌, ◌^◌, ◌++◌, OnOk};
ghost use Rattle.pg_text.specs.Cutting.{IsCutDue, placed, cut};

use crate::piece::{Piece, piece_at};
use crate::place::{Span, TextFault};
use pg_lang_token::Tok;
use sqlite_items::Items;
use std::alloc::{AllocError, Global};

/// Tokens in the order of the text, each with its place.
pub type TokList = Items<(Tok, Span)>;

/// Puts the token of a piece that begins at `at`, if it makes one, at the end of the list.
fn put(list: &mut TokList, piece: Piece, at: usize) -> Result<(), AllocError>
    requires { at + piece.len < 2 ^ 64 }
    ensures { OnOk result (list.new ≡ list.old ++ placed at piece) }
{
    let to = at + piece.len;
    match piece.tok {
        None => Ok(()),
        Some(tok) => list.push((tok, Span { from: at, to })),
    }
}

/// The tokens of a text, each with its place.
///
/// `Ok` is exactly the text's tokens. A fault is its first one from the left, at its place.
/// `Memory` comes where an allocation fails, and says nothing of the text.
pub fn tokens(alloc: Global, bytes: &[u8]) -> Result<TokList, TextFault>
    ensures { IsCutDue result (cut bytes.now) }
{
    let mut list = Items::new(alloc);
    let mut at = 0;
    while at < bytes.len() {
        let piece = piece_at(alloc, &bytes[at..], at)?;
        let len = piece.len;
        put(&mut list, piece, at)?;
        at += len;
    }
    Ok(list)
}
