//! What a token begins, and what comes behind it.
//!
//! `judge` asks here whether a token meets a goal and which form it begins, and has the goals of what comes behind that
//! token pushed. The first token of an expression or a statement tells its form, so nothing is ever taken back. The
//! functions are the definitions of `specs/Goals.antt`, one for one. The tests take no memory; a push answers `AllocError`
//! where there is none for its goals, of which some may then be there.

ghost use Rattle.std.specs.Prelude.{◌≡◌, ◌++◌, cond, Some, OnOk};
ghost use Rattle.pg_lang_token.specs.Words.{is_name};
ghost use Rattle.pg_read.specs.declared.forms.ExprForm.TheVariants.{Name as Named, Word as Called};
ghost use Rattle.pg_read.specs.declared.words.ExprWord.TheVariants.{Ext as ToExt};
ghost use Rattle.pg_read.specs.Keywords.{expr_word};
ghost use Rattle.pg_read.specs.Goals.{is_sign, is_word, is_number, is_named, is_patterned, is_op, form_of_word, head_word, expr_form, stmt_form, expr_goals, assign_goals, stmt_goals};

use crate::cursor::op_of;
use crate::goals::{Goal, Goals};
use crate::words::{ExprWord, HeadWord, StmtWord, is_same};
use pg_lang_token::{Sign, Tok, is_name, is_pattern};
use std::alloc::AllocError;

/// A form of expressions, by the first token.
#[derive(Clone, Copy)]
pub enum ExprForm {
    /// `v:w`
    Lit,
    /// A name.
    Name,
    /// `~e`
    Not,
    /// `(x + y)`, and so on for each operator.
    Bin,
    /// What a reserved word begins.
    Word(ExprWord),
}

/// Whether a token is this sign.
pub fn is_sign(sign: Sign, tok: &Tok) -> bool
    ensures { result ≡ is_sign sign tok.now }
{
    match tok {
        Tok::Sign(found) => *found == sign,
        _ => false,
    }
}

/// Whether a token is this word.
pub fn is_word(word: &[u8], tok: &Tok) -> bool
    ensures { result ≡ is_word word.now tok.now }
{
    match tok {
        Tok::Word(found) => is_same(found.as_slice(), word),
        _ => false,
    }
}

/// Whether a token is this word of the head.
pub fn is_head_word(word: HeadWord, tok: &Tok) -> bool
    ensures { result ≡ is_word (head_word word) tok.now }
{
    match word {
        HeadWord::Machine => is_word(b"machine", tok),
        HeadWord::Word => is_word(b"word", tok),
        HeadWord::Address => is_word(b"address", tok),
        HeadWord::Size => is_word(b"size", tok),
        HeadWord::On => is_word(b"on", tok),
    }
}

/// Whether a token is a number.
pub fn is_number(tok: &Tok) -> bool
    ensures { result ≡ is_number tok.now }
{
    matches!(tok, Tok::Number(_))
}

/// Whether a token is a name.
pub fn is_named(tok: &Tok) -> bool
    ensures { result ≡ is_named tok.now }
{
    match tok {
        Tok::Word(found) => is_name(found.as_slice()),
        _ => false,
    }
}

/// Whether a token is a pattern.
pub fn is_patterned(tok: &Tok) -> bool
    ensures { result ≡ is_patterned tok.now }
{
    match tok {
        Tok::Pattern(found) => is_pattern(found.as_slice()),
        _ => false,
    }
}

/// Whether a token is the sign of an operator.
pub fn is_op(tok: &Tok) -> bool
    ensures { result ≡ is_op tok.now }
{
    match tok {
        Tok::Sign(found) => op_of(*found).is_some(),
        _ => false,
    }
}

/// The form of expressions that begin with this word.
fn word_form(bytes: &[u8]) -> Option<ExprForm>
    ensures { result ≡ cond (is_name bytes.now) (Some Named) (form_of_word (expr_word bytes.now)) }
{
    if is_name(bytes) {
        return Some(ExprForm::Name);
    }
    match ExprWord::of(bytes) {
        Some(word) => Some(ExprForm::Word(word)),
        None => None,
    }
}

/// The form of expressions that begin with a token, if there is one.
#[tactic(auto, unfolding(crate::specs::Goals::expr_form))]
pub fn expr_form(tok: &Tok) -> Option<ExprForm>
    ensures { result ≡ expr_form tok.now }
{
    match tok {
        Tok::Number(_) => Some(ExprForm::Lit),
        Tok::Word(found) => word_form(found.as_slice()),
        Tok::Pattern(_) => None,
        Tok::Sign(Sign::Tilde) => Some(ExprForm::Not),
        Tok::Sign(Sign::OpenParen) => Some(ExprForm::Bin),
        Tok::Sign(_) => None,
    }
}

/// The word that statements begin with, if a token is one.
pub fn stmt_form(tok: &Tok) -> Option<StmtWord>
    ensures { result ≡ stmt_form tok.now }
{
    match tok {
        Tok::Word(found) => StmtWord::of(found.as_slice()),
        _ => None,
    }
}

/// Puts what comes behind the first token of an expression in front, where its parts have this level.
pub fn push_expr(goals: &mut Goals, form: ExprForm, level: u32) -> Result<(), AllocError>
    ensures { OnOk result (goals.new ≡ expr_goals form level ++ goals.old) }
{
    match form {
        ExprForm::Lit => goals.push_all(&[Goal::Sign(Sign::Colon), Goal::Number]),
        ExprForm::Name => Ok(()),
        ExprForm::Not => goals.push_all(&[Goal::Expr(level)]),
        ExprForm::Bin => goals.push_all(&[
            Goal::Expr(level),
            Goal::Op,
            Goal::Expr(level),
            Goal::Sign(Sign::CloseParen),
        ]),
        ExprForm::Word(word) => push_call(goals, word, level),
    }
}

/// The same of an expression that begins with this word.
fn push_call(goals: &mut Goals, word: ExprWord, level: u32) -> Result<(), AllocError>
    ensures { OnOk result (goals.new ≡ expr_goals (Called word) level ++ goals.old) }
{
    match word {
        ExprWord::Pc => Ok(()),
        ExprWord::Mode => Ok(()),
        ExprWord::Rel => Ok(()),
        ExprWord::Bound => Ok(()),
        ExprWord::Mem => goals.push_all(&[
            Goal::Sign(Sign::OpenBracket),
            Goal::Expr(level),
            Goal::Sign(Sign::CloseBracket),
        ]),
        ExprWord::Cat => goals.push_all(&[
            Goal::Sign(Sign::OpenParen),
            Goal::Expr(level),
            Goal::Sign(Sign::Comma),
            Goal::Expr(level),
            Goal::Sign(Sign::CloseParen),
        ]),
        ExprWord::Cut => goals.push_all(&[
            Goal::Sign(Sign::OpenParen),
            Goal::Expr(level),
            Goal::Sign(Sign::Comma),
            Goal::Number,
            Goal::Sign(Sign::Comma),
            Goal::Number,
            Goal::Sign(Sign::CloseParen),
        ]),
        ExprWord::Ext => push_extension(goals, level),
        ExprWord::Sext => push_extension(goals, level),
        ExprWord::Sel => goals.push_all(&[
            Goal::Sign(Sign::OpenParen),
            Goal::Expr(level),
            Goal::Sign(Sign::Comma),
            Goal::Expr(level),
            Goal::Sign(Sign::Comma),
            Goal::Expr(level),
            Goal::Sign(Sign::CloseParen),
        ]),
    }
}

/// The same of `ext` and of `sext`.
fn push_extension(goals: &mut Goals, level: u32) -> Result<(), AllocError>
    ensures { OnOk result (goals.new ≡ expr_goals (Called ToExt) level ++ goals.old) }
{
    goals.push_all(&[
        Goal::Sign(Sign::OpenParen),
        Goal::Expr(level),
        Goal::Sign(Sign::Comma),
        Goal::Number,
        Goal::Sign(Sign::CloseParen),
    ])
}

/// Puts what comes behind the word of a statement in front, and the statements behind it. Blocks inside have this level.
pub fn push_stmt(goals: &mut Goals, word: StmtWord, inner: u32) -> Result<(), AllocError>
    ensures { OnOk result (goals.new ≡ stmt_goals word inner ++ goals.old) }
{
    match word {
        StmtWord::Let => goals.push_all(&[
            Goal::Name,
            Goal::Sign(Sign::Equals),
            Goal::Expr(1),
            Goal::Sign(Sign::Semicolon),
            Goal::Stmts(inner),
        ]),
        StmtWord::Mem => goals.push_all(&[
            Goal::Sign(Sign::OpenBracket),
            Goal::Expr(1),
            Goal::Sign(Sign::CloseBracket),
            Goal::Sign(Sign::Equals),
            Goal::Expr(1),
            Goal::Sign(Sign::Semicolon),
            Goal::Stmts(inner),
        ]),
        StmtWord::Pc => push_assignment(goals, inner),
        StmtWord::Mode => push_assignment(goals, inner),
        StmtWord::Rel => push_assignment(goals, inner),
        StmtWord::Bound => push_assignment(goals, inner),
        StmtWord::Trap => goals.push_all(&[Goal::Sign(Sign::Semicolon), Goal::Stmts(inner)]),
        StmtWord::If => goals.push_all(&[Goal::Expr(1), Goal::Block(inner), Goal::AfterIf(inner)]),
    }
}

/// The same of an assignment to a register.
fn push_assignment(goals: &mut Goals, inner: u32) -> Result<(), AllocError>
    ensures { OnOk result (goals.new ≡ assign_goals inner ++ goals.old) }
{
    goals.push_all(&[
        Goal::Sign(Sign::Equals),
        Goal::Expr(1),
        Goal::Sign(Sign::Semicolon),
        Goal::Stmts(inner),
    ])
}
