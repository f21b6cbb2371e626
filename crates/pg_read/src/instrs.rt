//! Instructions, the head, and a description.
//!
//! `whole` calls `desc`, which goes over all of the tokens once: the head, then instructions up to the end. The answer is a
//! tree or `Unread`; where the tokens go wrong is for `judge`. Nothing here tries what the numbers of the head are worth,
//! whether a name is known or a pattern long enough: `check` of `pg_mach_ready` does. The levels of a body are kept by how it is
//! read, so that an `Instr`, which is known to keep them, is made of it without a test (`made`).

ghost use Rattle.std.specs.Prelude.{◌≡◌, Some};
ghost use Rattle.pg_ast.specs.Levels.{IsShallow};
ghost use Rattle.pg_ast.specs.Reading.{instr_of};
ghost use Rattle.pg_read.specs.Steps.{IsStepDue};
ghost use Rattle.pg_read.specs.Whole.{IsAllDue, instr_at, instrs_at, line_at, causes_at, desc_at};

use crate::cursor::Cursor;
use crate::fault::Stop;
use crate::stmts::block;
use pg_ast::{BLOCK_LEVELS, Desc, Instr, InstrList, Name, PatternText, StmtList};
use pg_lang_token::Sign;
use sqlite_items::Items;
use std::alloc::Global;

/// The instruction of these parts, whose body is known to keep the limits.
fn made(name: Name, pattern: PatternText, body: StmtList) -> Instr
    requires { IsShallow body }
    ensures { instr_of name pattern body ≡ Some result }
{
    Instr::new(name, pattern, body)
}

/// An instruction.
#[tactic(auto, unfolding(crate::specs::Whole::instr_at))]
fn instr(alloc: Global, cursor: &mut Cursor<'_>) -> Result<Instr, Stop>
    ensures { IsStepDue result (instr_at cursor.old) cursor.new }
{
    cursor.word(b"instr")?;
    let name = cursor.name(alloc)?;
    let pattern = cursor.pattern(alloc)?;
    let body = block(alloc, cursor, BLOCK_LEVELS)?;
    Ok(made(name, pattern, body))
}

/// The instructions up to the end.
fn instrs(alloc: Global, cursor: &mut Cursor<'_>) -> Result<InstrList, Stop>
    ensures { IsAllDue result (instrs_at cursor.old) }
{
    let mut instrs = Items::new(alloc);
    while !cursor.is_at_end() {
        let instr = instr(alloc, cursor)?;
        instrs.push(instr)?;
    }
    Ok(instrs)
}

/// A line of the head: this word, a number and `;`.
#[tactic(auto, unfolding(crate::specs::Whole::line_at))]
fn line(cursor: &mut Cursor<'_>, word: &[u8]) -> Result<u64, Stop>
    ensures { IsStepDue result (line_at word.now cursor.old) cursor.new }
{
    cursor.word(word)?;
    let number = cursor.number()?;
    cursor.sign(Sign::Semicolon)?;
    Ok(number)
}

/// The end of the head: whether causes are on, and its closing brace.
fn causes(cursor: &mut Cursor<'_>) -> Result<bool, Stop>
    ensures { IsStepDue result (causes_at cursor.old) cursor.new }
{
    if cursor.close() {
        return Ok(false);
    }
    cursor.word(b"causes")?;
    cursor.word(b"on")?;
    cursor.sign(Sign::Semicolon)?;
    cursor.sign(Sign::CloseBrace)?;
    Ok(true)
}

/// A description, of all of the tokens.
#[tactic(auto, unfolding(crate::specs::Whole::desc_at))]
pub fn desc(alloc: Global, cursor: &mut Cursor<'_>) -> Result<Desc, Stop>
    ensures { IsAllDue result (desc_at cursor.old) }
{
    cursor.word(b"machine")?;
    cursor.sign(Sign::OpenBrace)?;
    let word = line(cursor, b"word")?;
    let address = line(cursor, b"address")?;
    let size = line(cursor, b"size")?;
    let causes = causes(cursor)?;
    let instrs = instrs(alloc, cursor)?;
    Ok(Desc {
        word,
        address,
        size,
        causes,
        instrs,
    })
}
