//! A description from its text.
//!
//! `read_desc` is the one call that other crates make. It has the bytes cut into tokens (`pg_text`), and the tokens read as
//! a tree (`instrs`); where they make none, `judge` goes over the same tokens once more for the place, so only a text that
//! is refused pays for that. The order of these steps is the order in which faults are told: `Long`, `Token`, and then
//! `Grammar` or `Deep`. Tokens are kept only until the answer is found.

ghost use Rattle.std.specs.Prelude.{◌≡◌};
ghost use Rattle.pg_read.specs.Answer.{IsAnswer, token_fault};
ghost use Rattle.pg_read.specs.Goals.{IsJudged, desc_goals, judged};

use crate::cursor::Cursor;
use crate::fault::{DescFault, Stop};
use crate::instrs::desc;
use crate::judge::judge;
use pg_ast::Desc;
use pg_lang_token::Tok;
use pg_text::{Span, TextFault, tokens};
use std::alloc::Global;

/// The greatest number of bytes of a text: one more, and the text is `Long`.
pub const DESC_BYTES: usize = 1_048_576;

/// The fault of a text that has a fault of its tokens.
fn token_fault(fault: TextFault) -> DescFault
    ensures { result ≡ token_fault fault }
{
    match fault {
        TextFault::BadByte(at) => DescFault::Token(at),
        TextFault::BadNumber(at) => DescFault::Token(at),
        TextFault::BadWord(at) => DescFault::Token(at),
        TextFault::BadPattern(at) => DescFault::Token(at),
        TextFault::Memory => DescFault::Memory,
    }
}

/// The first fault of tokens that are no description's, in a text of this length, unless memory runs out.
fn why_unread(alloc: Global, toks: &[(Tok, Span)], end: usize) -> DescFault
    ensures { IsJudged result (judged end desc_goals toks.now) }
{
    match judge(alloc, toks, end) {
        Ok(fault) => fault,
        Err(_) => DescFault::Memory,
    }
}

/// The description of a text, or why there is none.
///
/// `Ok` is the description whose tokens are the text's. `Long` comes before all else, where the text has more than
/// `DESC_BYTES` bytes. `Token` is the place of the text's first fault, where it has one. `Grammar` and `Deep` are the
/// place of the first token that is wrong or too deep, where tokens are no description's; `Grammar` is the text's length
/// where they come to an end too early. `Memory` comes where an allocation fails, and says nothing of the text.
pub fn read_desc(alloc: Global, bytes: &[u8]) -> Result<Desc, DescFault>
    ensures { IsAnswer bytes.now result }
{
    if bytes.len() > DESC_BYTES {
        return Err(DescFault::Long);
    }
    let toks = match tokens(alloc, bytes) {
        Ok(toks) => toks,
        Err(fault) => return Err(token_fault(fault)),
    };
    match desc(alloc, &mut Cursor::new(toks.as_slice())) {
        Ok(desc) => Ok(desc),
        Err(Stop::Unread) => Err(why_unread(alloc, toks.as_slice(), bytes.len())),
        Err(Stop::Memory) => Err(DescFault::Memory),
    }
}
