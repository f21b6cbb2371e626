//! Expressions.
//!
//! `stmts` calls `expr` and `expr_behind`. These, and `boxed` and `boxed_behind`, are given how many levels an expression may
//! have, `EXPR_LEVELS` at first, and read none where that is 0, so they recurse no deeper. The others are given how many an
//! expression inside may have: one less. Each form of the language has a function of its own, for what comes behind its first token, and a definition of
//! that name (`cat`, and `cat_at` in `specs/Forms.antt`). An expression inside another takes memory for its box, as soon as it
//! is read (`boxed`).

ghost use Rattle.pg_ast.specs.Reading.{read_expr, read_level, read_word, read_sign, past_sign, name_of};
ghost use Rattle.pg_read.specs.Steps.{IsStepDue};
ghost use Rattle.pg_read.specs.Forms.{lit_at, load_at, not_at, bin_at, cat_at, cut_at, ext_at, sext_at, sel_at, expr_word_at};

use crate::cursor::{Cursor, name_of};
use crate::fault::Stop;
use crate::words::ExprWord;
use pg_ast::Expr;
use pg_lang_token::{Sign, Tok};
use sqlite_items::Boxed;
use std::alloc::Global;

/// An expression of at most so many levels.
#[cycle(exprs)]
#[tactic(auto, using(crate::proofs::FormLemmas::expr_rules))]
pub fn expr(alloc: Global, cursor: &mut Cursor<'_>, levels: u32) -> Result<Expr, Stop>
    ensures { IsStepDue result (read_expr levels cursor.old) cursor.new }
{
    if levels == 0 {
        return Err(Stop::Unread);
    }
    level(alloc, cursor, levels - 1)
}

/// This sign, and an expression of at most so many levels.
pub fn expr_behind(
    alloc: Global,
    cursor: &mut Cursor<'_>,
    sign: Sign,
    levels: u32,
) -> Result<Expr, Stop>
    ensures { IsStepDue result (past_sign sign cursor.old (read_expr levels)) cursor.new }
{
    cursor.sign(sign)?;
    expr(alloc, cursor, levels)
}

/// An expression of at most so many levels, in memory of its own: a part of another one.
#[cycle(exprs)]
fn boxed(alloc: Global, cursor: &mut Cursor<'_>, levels: u32) -> Result<Boxed<Expr>, Stop>
    ensures { IsStepDue result (read_expr levels cursor.old) cursor.new }
{
    let e = expr(alloc, cursor, levels)?;
    Ok(Boxed::new(alloc, e)?)
}

/// This sign, and such a part.
#[cycle(exprs)]
fn boxed_behind(
    alloc: Global,
    cursor: &mut Cursor<'_>,
    sign: Sign,
    levels: u32,
) -> Result<Boxed<Expr>, Stop>
    ensures { IsStepDue result (past_sign sign cursor.old (read_expr levels)) cursor.new }
{
    cursor.sign(sign)?;
    boxed(alloc, cursor, levels)
}

/// An expression, by its first token.
#[cycle(exprs)]
#[tactic(auto, unfolding(pg_ast::specs::Reading::read_level))]
fn level(alloc: Global, cursor: &mut Cursor<'_>, inner: u32) -> Result<Expr, Stop>
    ensures { IsStepDue result (read_level (read_expr inner) cursor.old) cursor.new }
{
    match cursor.next() {
        None => Err(Stop::Unread),
        Some(Tok::Word(bytes)) => word(alloc, cursor, bytes.as_slice(), inner),
        Some(Tok::Number(value)) => lit(cursor, *value),
        Some(Tok::Pattern(_)) => Err(Stop::Unread),
        Some(Tok::Sign(sign)) => signed(alloc, cursor, *sign, inner),
    }
}

/// An expression that begins with this word.
#[cycle(exprs)]
#[tactic(auto, using(crate::proofs::FormLemmas::keyword_rules))]
fn word(alloc: Global, cursor: &mut Cursor<'_>, bytes: &[u8], inner: u32) -> Result<Expr, Stop>
    ensures { IsStepDue result (read_word (read_expr inner) bytes.now cursor.old (name_of bytes.now)) cursor.new }
{
    match name_of(alloc, bytes)? {
        Some(name) => Ok(Expr::Name(name)),
        None => keyword(alloc, cursor, ExprWord::of(bytes), inner),
    }
}

/// An expression that begins with this word.
#[cycle(exprs)]
fn keyword(
    alloc: Global,
    cursor: &mut Cursor<'_>,
    word: Option<ExprWord>,
    inner: u32,
) -> Result<Expr, Stop>
    ensures { IsStepDue result (expr_word_at (read_expr inner) word cursor.old) cursor.new }
{
    match word {
        None => Err(Stop::Unread),
        Some(ExprWord::Pc) => Ok(Expr::Pc),
        Some(ExprWord::Mode) => Ok(Expr::Mode),
        Some(ExprWord::Rel) => Ok(Expr::Rel),
        Some(ExprWord::Bound) => Ok(Expr::Bound),
        Some(ExprWord::Mem) => load(alloc, cursor, inner),
        Some(ExprWord::Cat) => cat(alloc, cursor, inner),
        Some(ExprWord::Cut) => cut(alloc, cursor, inner),
        Some(ExprWord::Ext) => ext(alloc, cursor, inner),
        Some(ExprWord::Sext) => sext(alloc, cursor, inner),
        Some(ExprWord::Sel) => sel(alloc, cursor, inner),
    }
}

/// An expression that begins with this sign.
#[cycle(exprs)]
#[tactic(auto, using(crate::proofs::FormLemmas::sign_rules), unfolding(crate::specs::Forms::not_at))]
fn signed(alloc: Global, cursor: &mut Cursor<'_>, sign: Sign, inner: u32) -> Result<Expr, Stop>
    ensures { IsStepDue result (read_sign (read_expr inner) sign cursor.old) cursor.new }
{
    match sign {
        Sign::Tilde => not(alloc, cursor, inner),
        Sign::OpenParen => bin(alloc, cursor, inner),
        _ => Err(Stop::Unread),
    }
}

/// The rest of `v:w`.
#[tactic(auto, unfolding(crate::specs::Forms::lit_at))]
fn lit(cursor: &mut Cursor<'_>, value: u64) -> Result<Expr, Stop>
    ensures { IsStepDue result (lit_at value cursor.old) cursor.new }
{
    let width = cursor.number_behind(Sign::Colon)?;
    Ok(Expr::Lit(value, width))
}

/// The rest of `mem[e]`.
#[cycle(exprs)]
#[tactic(auto, unfolding(crate::specs::Forms::load_at))]
fn load(alloc: Global, cursor: &mut Cursor<'_>, inner: u32) -> Result<Expr, Stop>
    ensures { IsStepDue result (load_at (read_expr inner) cursor.old) cursor.new }
{
    let e = boxed_behind(alloc, cursor, Sign::OpenBracket, inner)?;
    cursor.closed(Expr::Load(e), Sign::CloseBracket)
}

/// The rest of `~e`.
#[cycle(exprs)]
#[tactic(auto, unfolding(crate::specs::Forms::not_at))]
fn not(alloc: Global, cursor: &mut Cursor<'_>, inner: u32) -> Result<Expr, Stop>
    ensures { IsStepDue result (not_at (read_expr inner) cursor.old) cursor.new }
{
    let e = boxed(alloc, cursor, inner)?;
    Ok(Expr::Not(e))
}

/// The rest of `(x + y)`, and so on for each operator.
#[cycle(exprs)]
#[tactic(auto, unfolding(crate::specs::Forms::bin_at))]
fn bin(alloc: Global, cursor: &mut Cursor<'_>, inner: u32) -> Result<Expr, Stop>
    ensures { IsStepDue result (bin_at (read_expr inner) cursor.old) cursor.new }
{
    let x = boxed(alloc, cursor, inner)?;
    let op = cursor.op()?;
    let y = boxed(alloc, cursor, inner)?;
    cursor.closed(Expr::Bin(op, x, y), Sign::CloseParen)
}

/// The rest of `cat(x, y)`.
#[cycle(exprs)]
#[tactic(auto, unfolding(crate::specs::Forms::cat_at))]
fn cat(alloc: Global, cursor: &mut Cursor<'_>, inner: u32) -> Result<Expr, Stop>
    ensures { IsStepDue result (cat_at (read_expr inner) cursor.old) cursor.new }
{
    let x = boxed_behind(alloc, cursor, Sign::OpenParen, inner)?;
    let y = boxed_behind(alloc, cursor, Sign::Comma, inner)?;
    cursor.closed(Expr::Cat(x, y), Sign::CloseParen)
}

/// The rest of `cut(e, h, k)`.
#[cycle(exprs)]
#[tactic(auto, unfolding(crate::specs::Forms::cut_at))]
fn cut(alloc: Global, cursor: &mut Cursor<'_>, inner: u32) -> Result<Expr, Stop>
    ensures { IsStepDue result (cut_at (read_expr inner) cursor.old) cursor.new }
{
    let e = boxed_behind(alloc, cursor, Sign::OpenParen, inner)?;
    let high = cursor.number_behind(Sign::Comma)?;
    let low = cursor.number_behind(Sign::Comma)?;
    cursor.closed(Expr::Cut(e, high, low), Sign::CloseParen)
}

/// The rest of `ext(e, n)`.
#[cycle(exprs)]
#[tactic(auto, unfolding(crate::specs::Forms::ext_at))]
fn ext(alloc: Global, cursor: &mut Cursor<'_>, inner: u32) -> Result<Expr, Stop>
    ensures { IsStepDue result (ext_at (read_expr inner) cursor.old) cursor.new }
{
    let e = boxed_behind(alloc, cursor, Sign::OpenParen, inner)?;
    let width = cursor.number_behind(Sign::Comma)?;
    cursor.closed(Expr::Ext(e, width), Sign::CloseParen)
}

/// The rest of `sext(e, n)`.
#[cycle(exprs)]
#[tactic(auto, unfolding(crate::specs::Forms::sext_at))]
fn sext(alloc: Global, cursor: &mut Cursor<'_>, inner: u32) -> Result<Expr, Stop>
    ensures { IsStepDue result (sext_at (read_expr inner) cursor.old) cursor.new }
{
    let e = boxed_behind(alloc, cursor, Sign::OpenParen, inner)?;
    let width = cursor.number_behind(Sign::Comma)?;
    cursor.closed(Expr::Sext(e, width), Sign::CloseParen)
}

/// The rest of `sel(c, x, y)`.
#[cycle(exprs)]
#[tactic(auto, unfolding(crate::specs::Forms::sel_at))]
fn sel(alloc: Global, cursor: &mut Cursor<'_>, inner: u32) -> Result<Expr, Stop>
    ensures { IsStepDue result (sel_at (read_expr inner) cursor.old) cursor.new }
{
    let test = boxed_behind(alloc, cursor, Sign::OpenParen, inner)?;
    let chosen = boxed_behind(alloc, cursor, Sign::Comma, inner)?;
    let other = boxed_behind(alloc, cursor, Sign::Comma, inner)?;
    cursor.closed(Expr::Sel(test, chosen, other), Sign::CloseParen)
}
