//! Where tokens stop being a description's.
//!
//! `desc` reads trees, and where it reads none it says only that there is none. Then `whole` has the tokens gone over once
//! more, by a stack of what is still to come: each token meets the first goal, and puts what comes behind it in its place.
//! The first token that does not meet it is the one with which no description goes on. Levels are counted by the goals, not
//! by calls, so that no text makes this recurse. A text that is a description never comes here.

ghost use Rattle.std.specs.Prelude.{◌≡◌, ◌+◌, List, [], ◌∷◌, IfOk};
ghost use Rattle.pg_read.specs.declared.goals.Goal.{Goal};
ghost use Rattle.pg_read.specs.declared.goals.Goal.TheVariants.{Stmts as ToStmts, AfterIf as ToAfterIf, HeadEnd as ToHeadEnd, Instrs as ToInstrs};
ghost use Rattle.pg_read.specs.Marks.{Opens, Plain};
ghost use Rattle.pg_read.specs.Goals.{IsStep, outcome, when_met, when_begun, when_stated, stmts_met, followed, taken, desc_goals, judged};

use crate::fault::DescFault;
use crate::forms::{
    ExprForm, expr_form, is_head_word, is_named, is_number, is_op, is_patterned, is_sign, is_word,
    push_expr, push_stmt, stmt_form,
};
use crate::goals::{Goal, Goals};
use crate::words::{HeadWord, StmtWord};
use pg_ast::{BLOCK_LEVELS, EXPR_LEVELS};
use pg_lang_token::{Sign, Tok};
use pg_text::Span;
use std::alloc::{AllocError, Global};

/// What became of a token.
#[derive(Clone, Copy, PartialEq, Eq)]
pub enum Step {
    /// It met the first goal.
    On,
    /// It did, but goes down too many levels.
    Deep,
    /// No description goes on with it.
    Wrong,
}

/// The step over a token that alone meets a goal, or does not.
fn alone(met: bool) -> Step
    ensures { (gs : List Goal) → IsStep result (outcome (followed (when_met met Plain []) gs)) gs }
{
    if met { Step::On } else { Step::Wrong }
}

/// The step over a token that is to begin an expression of this level.
fn expr(goals: &mut Goals, form: Option<ExprForm>, level: u32) -> Result<Step, AllocError>
    ensures { IfOk result (λ step. IsStep step (outcome (followed (when_begun form level) goals.old)) goals.new) }
{
    match form {
        None => Ok(Step::Wrong),
        Some(form) => {
            if level > EXPR_LEVELS {
                return Ok(Step::Deep);
            }
            push_expr(goals, form, level + 1)?;
            Ok(Step::On)
        }
    }
}

/// The step over a token that is to open a block of this level.
fn block(goals: &mut Goals, opens: bool, level: u32) -> Result<Step, AllocError>
    ensures { IfOk result (λ step. IsStep step (outcome (followed (when_met opens (Opens level) (ToStmts (level + 1) ∷ [])) goals.old)) goals.new) }
{
    if !opens {
        return Ok(Step::Wrong);
    }
    if level > BLOCK_LEVELS {
        return Ok(Step::Deep);
    }
    goals.push_all(&[Goal::Stmts(level + 1)])?;
    Ok(Step::On)
}

/// The step over a token that is to be the word of a statement, in which blocks have this level.
fn stmt(goals: &mut Goals, word: Option<StmtWord>, inner: u32) -> Result<Step, AllocError>
    ensures { IfOk result (λ step. IsStep step (outcome (followed (when_stated word inner) goals.old)) goals.new) }
{
    match word {
        None => Ok(Step::Wrong),
        Some(word) => {
            push_stmt(goals, word, inner)?;
            Ok(Step::On)
        }
    }
}

/// The step over the first token of what is left of a block.
fn stmts(goals: &mut Goals, tok: &Tok, inner: u32) -> Result<Step, AllocError>
    ensures { IfOk result (λ step. IsStep step (outcome (followed (stmts_met inner tok.now) goals.old)) goals.new) }
{
    if is_sign(Sign::CloseBrace, tok) {
        return Ok(Step::On);
    }
    stmt(goals, stmt_form(tok), inner)
}

/// The step over the first token behind the block of an if.
#[tactic(auto, unfolding(crate::specs::Goals::taken, crate::specs::Goals::met))]
fn after_if(goals: &mut Goals, tok: &Tok, inner: u32) -> Result<Step, AllocError>
    ensures { IfOk result (λ step. IsStep step (outcome (taken (ToAfterIf inner ∷ goals.old) tok.now)) goals.new) }
{
    if !is_word(b"else", tok) {
        return stmts(goals, tok, inner);
    }
    goals.push_all(&[Goal::Block(inner), Goal::Stmts(inner)])?;
    Ok(Step::On)
}

/// The step over the first token of the end of the head.
#[tactic(auto, unfolding(crate::specs::Goals::taken, crate::specs::Goals::met))]
fn head_end(goals: &mut Goals, tok: &Tok) -> Result<Step, AllocError>
    ensures { IfOk result (λ step. IsStep step (outcome (taken (ToHeadEnd ∷ goals.old) tok.now)) goals.new) }
{
    if is_sign(Sign::CloseBrace, tok) {
        return Ok(Step::On);
    }
    if !is_word(b"causes", tok) {
        return Ok(Step::Wrong);
    }
    goals.push_all(&[
        Goal::Word(HeadWord::On),
        Goal::Sign(Sign::Semicolon),
        Goal::Sign(Sign::CloseBrace),
    ])?;
    Ok(Step::On)
}

/// The step over a token that is to begin an instruction.
#[tactic(auto, unfolding(crate::specs::Goals::taken, crate::specs::Goals::met))]
fn instr(goals: &mut Goals, tok: &Tok) -> Result<Step, AllocError>
    ensures { IfOk result (λ step. IsStep step (outcome (taken (ToInstrs ∷ goals.old) tok.now)) goals.new) }
{
    if !is_word(b"instr", tok) {
        return Ok(Step::Wrong);
    }
    goals.push_all(&[Goal::Name, Goal::Pattern, Goal::Block(1), Goal::Instrs])?;
    Ok(Step::On)
}

/// The step over a token.
#[tactic(auto, unfolding(crate::specs::Goals::taken, crate::specs::Goals::met))]
fn take_step(goals: &mut Goals, tok: &Tok) -> Result<Step, AllocError>
    ensures { IfOk result (λ step. IsStep step (outcome (taken goals.old tok.now)) goals.new) }
{
    match goals.pop() {
        None => Ok(Step::Wrong),
        Some(Goal::Sign(sign)) => Ok(alone(is_sign(sign, tok))),
        Some(Goal::Word(word)) => Ok(alone(is_head_word(word, tok))),
        Some(Goal::Number) => Ok(alone(is_number(tok))),
        Some(Goal::Name) => Ok(alone(is_named(tok))),
        Some(Goal::Pattern) => Ok(alone(is_patterned(tok))),
        Some(Goal::Op) => Ok(alone(is_op(tok))),
        Some(Goal::Expr(level)) => expr(goals, expr_form(tok), level),
        Some(Goal::Block(level)) => block(goals, is_sign(Sign::OpenBrace, tok), level),
        Some(Goal::Stmts(inner)) => stmts(goals, tok, inner),
        Some(Goal::AfterIf(inner)) => after_if(goals, tok, inner),
        Some(Goal::HeadEnd) => head_end(goals, tok),
        Some(Goal::Instrs) => instr(goals, tok),
    }
}

/// The goals of a description.
fn whole(alloc: Global) -> Result<Goals, AllocError>
    ensures { IfOk result (λ goals. goals ≡ desc_goals) }
{
    let mut goals = Goals::new(alloc);
    goals.push_all(&[
        Goal::Word(HeadWord::Machine),
        Goal::Sign(Sign::OpenBrace),
        Goal::Word(HeadWord::Word),
        Goal::Number,
        Goal::Sign(Sign::Semicolon),
        Goal::Word(HeadWord::Address),
        Goal::Number,
        Goal::Sign(Sign::Semicolon),
        Goal::Word(HeadWord::Size),
        Goal::Number,
        Goal::Sign(Sign::Semicolon),
        Goal::HeadEnd,
        Goal::Instrs,
    ])?;
    Ok(goals)
}

/// The first fault of tokens that are no description's: at one of them, or else here, at the end.
#[tactic(auto, using(crate::proofs::JudgeLemmas::judge_rules), unfolding(crate::specs::Goals::judged))]
pub fn judge(alloc: Global, toks: &[(Tok, Span)], end: usize) -> Result<DescFault, AllocError>
    ensures { IfOk result (λ fault. fault ≡ judged end desc_goals toks.now) }
{
    let mut goals = whole(alloc)?;
    for placed in toks {
        match take_step(&mut goals, &placed.0)? {
            Step::On => {}
            Step::Deep => return Ok(DescFault::Deep(placed.1.from)),
            Step::Wrong => return Ok(DescFault::Grammar(placed.1.from)),
        }
    }
    Ok(DescFault::Grammar(end))
}
