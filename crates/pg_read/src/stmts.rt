//! Statements and blocks.
//!
//! `instrs` calls `block` for the body of an instruction. `block` and `body` are given how many levels a block may have,
//! `BLOCK_LEVELS` at first, and read nothing where that is none, so they recurse no deeper. The others are given how many a
//! block inside may have: one less. The expressions of each statement have all of their own levels left. The statements of
//! a block are read by a loop, so a long block takes no stack.

ghost use Rattle.std.specs.Prelude.{suc, length};
ghost use Rattle.pg_ast.specs.Levels.{most_expr_levels};
ghost use Rattle.pg_ast.specs.Reading.{read_expr, read_stmt, read_stmt_word, past_sign, past_else};
ghost use Rattle.pg_lang_token.specs.declared.tok.Sign.TheVariants.{OpenBrace};
ghost use Rattle.pg_read.specs.Steps.{IsStepDue};
ghost use Rattle.pg_read.specs.Forms.{value_at, address_at, let_at, store_at, trap_at, else_found, if_at, stmt_word_at};
ghost use Rattle.pg_read.specs.Blocks.{stmts_at, body_at};

use crate::cursor::Cursor;
use crate::exprs::{expr, expr_behind};
use crate::fault::Stop;
use crate::words::StmtWord;
use pg_ast::{EXPR_LEVELS, Expr, Stmt, StmtList};
use pg_lang_token::{Sign, Tok};
use sqlite_items::Items;
use std::alloc::Global;

/// What is assigned: `=`, an expression and `;`.
#[tactic(auto, unfolding(crate::specs::Forms::value_at))]
fn value(alloc: Global, cursor: &mut Cursor<'_>) -> Result<Expr, Stop>
    ensures { IsStepDue result (value_at (read_expr most_expr_levels) cursor.old) cursor.new }
{
    let e = expr_behind(alloc, cursor, Sign::Equals, EXPR_LEVELS)?;
    cursor.closed(e, Sign::Semicolon)
}

/// A let, behind its first word.
#[tactic(auto, unfolding(crate::specs::Forms::let_at))]
fn binding(alloc: Global, cursor: &mut Cursor<'_>) -> Result<Stmt, Stop>
    ensures { IsStepDue result (let_at (read_expr most_expr_levels) cursor.old) cursor.new }
{
    let name = cursor.name(alloc)?;
    let e = value(alloc, cursor)?;
    Ok(Stmt::Let(name, e))
}

/// The address of a store: an expression in brackets.
#[tactic(auto, unfolding(crate::specs::Forms::address_at))]
fn address(alloc: Global, cursor: &mut Cursor<'_>) -> Result<Expr, Stop>
    ensures { IsStepDue result (address_at (read_expr most_expr_levels) cursor.old) cursor.new }
{
    let e = expr_behind(alloc, cursor, Sign::OpenBracket, EXPR_LEVELS)?;
    cursor.closed(e, Sign::CloseBracket)
}

/// A store, behind its first word.
#[tactic(auto, using(crate::proofs::FormLemmas::store_rules))]
fn store(alloc: Global, cursor: &mut Cursor<'_>) -> Result<Stmt, Stop>
    ensures { IsStepDue result (store_at (read_expr most_expr_levels) cursor.old) cursor.new }
{
    let address = address(alloc, cursor)?;
    let e = value(alloc, cursor)?;
    Ok(Stmt::Store(address, e))
}

/// A trap, behind its word.
#[tactic(auto, unfolding(crate::specs::Forms::trap_at))]
fn trap(cursor: &mut Cursor<'_>) -> Result<Stmt, Stop>
    ensures { IsStepDue result (trap_at cursor.old) cursor.new }
{
    cursor.sign(Sign::Semicolon)?;
    Ok(Stmt::Trap)
}

/// A statement with blocks of at most so many levels inside.
#[cycle(stmts)]
#[tactic(auto, unfolding(pg_ast::specs::Reading::read_stmt))]
fn stmt(alloc: Global, cursor: &mut Cursor<'_>, inner: u32) -> Result<Stmt, Stop>
    ensures { IsStepDue result (read_stmt (read_expr most_expr_levels) (body_at inner) cursor.old) cursor.new }
{
    match cursor.next() {
        Some(Tok::Word(bytes)) => word(alloc, cursor, bytes.as_slice(), inner),
        _ => Err(Stop::Unread),
    }
}

/// A statement that begins with these bytes.
#[cycle(stmts)]
#[tactic(auto, using(crate::proofs::FormLemmas::stmt_rules))]
fn word(alloc: Global, cursor: &mut Cursor<'_>, bytes: &[u8], inner: u32) -> Result<Stmt, Stop>
    ensures { IsStepDue result (read_stmt_word (read_expr most_expr_levels) (body_at inner) bytes.now cursor.old) cursor.new }
{
    keyword(alloc, cursor, StmtWord::of(bytes), inner)
}

/// A statement that begins with this word.
#[cycle(stmts)]
#[tactic(auto, unfolding(crate::specs::Forms::assign_at))]
fn keyword(
    alloc: Global,
    cursor: &mut Cursor<'_>,
    word: Option<StmtWord>,
    inner: u32,
) -> Result<Stmt, Stop>
    ensures { IsStepDue result (stmt_word_at (read_expr most_expr_levels) (body_at inner) word cursor.old) cursor.new }
{
    match word {
        None => Err(Stop::Unread),
        Some(StmtWord::Let) => binding(alloc, cursor),
        Some(StmtWord::Mem) => store(alloc, cursor),
        Some(StmtWord::Pc) => Ok(Stmt::Pc(value(alloc, cursor)?)),
        Some(StmtWord::Mode) => Ok(Stmt::Mode(value(alloc, cursor)?)),
        Some(StmtWord::Rel) => Ok(Stmt::Rel(value(alloc, cursor)?)),
        Some(StmtWord::Bound) => Ok(Stmt::Bound(value(alloc, cursor)?)),
        Some(StmtWord::Trap) => trap(cursor),
        Some(StmtWord::If) => choice(alloc, cursor, inner),
    }
}

/// An if, behind its word.
#[cycle(stmts)]
#[tactic(auto, unfolding(crate::specs::Forms::if_at))]
fn choice(alloc: Global, cursor: &mut Cursor<'_>, inner: u32) -> Result<Stmt, Stop>
    ensures { IsStepDue result (if_at (read_expr most_expr_levels) (body_at inner) cursor.old) cursor.new }
{
    let c = expr(alloc, cursor, EXPR_LEVELS)?;
    let held = block(alloc, cursor, inner)?;
    let other = other_block(alloc, cursor, inner)?;
    Ok(Stmt::If(c, held, other))
}

/// The block of an else, where that word comes next.
#[cycle(stmts)]
fn other_block(alloc: Global, cursor: &mut Cursor<'_>, inner: u32) -> Result<Option<StmtList>, Stop>
    ensures { IsStepDue result (else_found (body_at inner) cursor.old (past_else cursor.old)) cursor.new }
{
    if !cursor.otherwise() {
        return Ok(None);
    }
    let other = block(alloc, cursor, inner)?;
    Ok(Some(other))
}

/// A block of at most so many levels.
#[cycle(stmts)]
pub fn block(alloc: Global, cursor: &mut Cursor<'_>, levels: u32) -> Result<StmtList, Stop>
    ensures { IsStepDue result (past_sign OpenBrace cursor.old (body_at levels)) cursor.new }
{
    cursor.sign(Sign::OpenBrace)?;
    body(alloc, cursor, levels)
}

/// The statements of a block of at most so many levels, up to its closing brace, and past it.
#[cycle(stmts)]
#[tactic(auto, using(crate::proofs::BlockLemmas::body_rules))]
fn body(alloc: Global, cursor: &mut Cursor<'_>, levels: u32) -> Result<StmtList, Stop>
    ensures { IsStepDue result (body_at levels cursor.old) cursor.new }
{
    if levels == 0 {
        return Err(Stop::Unread);
    }
    stmts(alloc, cursor, levels - 1)
}

/// The statements up to a closing brace, and past it. Blocks inside have at most so many levels.
#[cycle(stmts)]
fn stmts(alloc: Global, cursor: &mut Cursor<'_>, inner: u32) -> Result<StmtList, Stop>
    ensures { IsStepDue result (stmts_at (read_stmt (read_expr most_expr_levels) (body_at inner)) (suc (length cursor.old)) cursor.old) cursor.new }
{
    let mut stmts = Items::new(alloc);
    while !cursor.close() {
        let stmt = stmt(alloc, cursor, inner)?;
        stmts.push(stmt)?;
    }
    Ok(stmts)
}
