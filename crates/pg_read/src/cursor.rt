//! The tokens that are left, and the small steps over them.
//!
//! `exprs`, `stmts` and `instrs` read with one cursor, which only goes forward. Each step passes over what it names, and
//! answers `Unread` where something else comes first. After that nothing is read, so no contract says where the cursor then
//! stands. `close` and `otherwise` leave it where it was. `name` and `pattern` copy what they find into memory of its own,
//! so that a tree keeps nothing of the tokens, and answer `Memory` where there is none; the other steps take no memory.

ghost use Rattle.std.specs.Prelude.{◌≡◌, [], ◌∷◌, Some, map, IsTrue, ◌↔◌, IfOk, MatchOption};
ghost use Rattle.pg_ast.specs.Reading.{then_read, past_sign, past_word, past_close, past_else, name_of, pattern_of, op_of};
ghost use Rattle.pg_read.specs.Steps.{IsStepDue, IsPassed, alone, number_at, name_at, pattern_at, op_at};

use crate::fault::Stop;
use crate::words::is_same;
use pg_ast::{Name, Op, PatternText};
use pg_lang_token::{Sign, Tok, is_name};
use pg_text::Span;
use sqlite_items::Items;
use std::alloc::{AllocError, Global};
use std::marker::Model;

/// The tokens that are left. Contracts see them as a list, without their places.
#[derive(Drop)]
pub struct Cursor<'a> {
    toks: &'a [(Tok, Span)],
}

impl<'a> Model for Cursor<'a> {
    ghost use Rattle.std.specs.Prelude.{List, map};
    ghost use Rattle.pg_lang_token.specs.declared.tok.Tok.{Tok};

    ghost Value = { List Tok };

    ghost view = { λ c. map (λ t. t.0) c.toks.now };
}

/// The name of these bytes, if they make one.
#[tactic(auto, using(crate::proofs::FormLemmas::name_rules))]
pub fn name_of(alloc: Global, bytes: &[u8]) -> Result<Option<Name>, AllocError>
    ensures { IfOk result (λ found. found ≡ name_of bytes.now) }
{
    if is_name(bytes) {
        Ok(Name::try_new(Items::from_slice(alloc, bytes)?))
    } else {
        Ok(None)
    }
}

/// The pattern of these bytes, if they make one.
fn pattern_of(alloc: Global, bytes: &[u8]) -> Result<Option<PatternText>, AllocError>
    ensures { IfOk result (λ found. found ≡ pattern_of bytes.now) }
{
    Ok(PatternText::try_new(Items::from_slice(alloc, bytes)?))
}

/// The operator of a sign, if it is one's.
pub fn op_of(sign: Sign) -> Option<Op>
    ensures { result ≡ op_of sign }
{
    match sign {
        Sign::Plus => Some(Op::Add),
        Sign::Minus => Some(Op::Sub),
        Sign::Star => Some(Op::Mul),
        Sign::Ampersand => Some(Op::And),
        Sign::Bar => Some(Op::Or),
        Sign::Caret => Some(Op::Xor),
        Sign::DoubleEquals => Some(Op::Eq),
        Sign::LessThan => Some(Op::Lt),
        Sign::DoubleLess => Some(Op::Shl),
        Sign::DoubleGreater => Some(Op::Shr),
        _ => None,
    }
}

impl<'a> Cursor<'a> {
    /// All of these tokens.
    pub fn new(toks: &'a [(Tok, Span)]) -> Cursor<'a>
        ensures { result ≡ map (λ t. t.0) toks.now }
    {
        Cursor { toks }
    }

    /// Whether no token is left.
    pub fn is_at_end(&self) -> bool
        ensures { IsTrue result ↔ (self.now ≡ []) }
    {
        self.toks.is_empty()
    }

    /// The next token, which is passed over.
    pub fn next(&mut self) -> Option<&'a Tok>
        ensures { MatchOption result ((self.old ≡ []) × (self.new ≡ [])) (λ t. self.old ≡ t.now ∷ self.new) }
    {
        match self.toks.split_first() {
            None => None,
            Some((first, rest)) => {
                self.toks = rest;
                Some(&first.0)
            }
        }
    }

    /// Passes over this sign.
    pub fn sign(&mut self, sign: Sign) -> Result<(), Stop>
        ensures { IsStepDue result (past_sign sign self.old alone) self.new }
    {
        match self.next() {
            Some(Tok::Sign(found)) => {
                if *found == sign {
                    Ok(())
                } else {
                    Err(Stop::Unread)
                }
            }
            _ => Err(Stop::Unread),
        }
    }

    /// Passes over this word.
    pub fn word(&mut self, word: &[u8]) -> Result<(), Stop>
        ensures { IsStepDue result (past_word word.now self.old alone) self.new }
    {
        match self.next() {
            Some(Tok::Word(found)) => {
                if is_same(found.as_slice(), word) {
                    Ok(())
                } else {
                    Err(Stop::Unread)
                }
            }
            _ => Err(Stop::Unread),
        }
    }

    /// Passes over this sign, which is to stand behind what was read, and gives that back.
    pub fn closed<T: Drop>(&mut self, read: T, sign: Sign) -> Result<T, Stop>
        ensures { IsStepDue result (then_read (past_sign sign self.old alone) (λ _ rest. Some (read, rest))) self.new }
    {
        self.sign(sign)?;
        Ok(read)
    }

    /// Passes over a number.
    pub fn number(&mut self) -> Result<u64, Stop>
        ensures { IsStepDue result (number_at self.old) self.new }
    {
        match self.next() {
            Some(Tok::Number(value)) => Ok(*value),
            _ => Err(Stop::Unread),
        }
    }

    /// Passes over this sign and a number.
    pub fn number_behind(&mut self, sign: Sign) -> Result<u64, Stop>
        ensures { IsStepDue result (past_sign sign self.old number_at) self.new }
    {
        self.sign(sign)?;
        self.number()
    }

    /// Passes over a name.
    pub fn name(&mut self, alloc: Global) -> Result<Name, Stop>
        ensures { IsStepDue result (name_at self.old) self.new }
    {
        match self.next() {
            Some(Tok::Word(found)) => name_of(alloc, found.as_slice())?.ok_or(Stop::Unread),
            _ => Err(Stop::Unread),
        }
    }

    /// Passes over a pattern.
    pub fn pattern(&mut self, alloc: Global) -> Result<PatternText, Stop>
        ensures { IsStepDue result (pattern_at self.old) self.new }
    {
        match self.next() {
            Some(Tok::Pattern(found)) => pattern_of(alloc, found.as_slice())?.ok_or(Stop::Unread),
            _ => Err(Stop::Unread),
        }
    }

    /// Passes over the sign of an operator.
    pub fn op(&mut self) -> Result<Op, Stop>
        ensures { IsStepDue result (op_at self.old) self.new }
    {
        match self.next() {
            Some(Tok::Sign(found)) => op_of(*found).ok_or(Stop::Unread),
            _ => Err(Stop::Unread),
        }
    }

    /// Whether a closing brace comes next, which is then passed over.
    pub fn close(&mut self) -> bool
        ensures { IsPassed result (past_close self.old) self.old self.new }
    {
        let before = self.toks;
        match self.next() {
            Some(Tok::Sign(found)) if *found == Sign::CloseBrace => true,
            _ => {
                self.toks = before;
                false
            }
        }
    }

    /// Whether the word `else` comes next, which is then passed over.
    pub fn otherwise(&mut self) -> bool
        ensures { IsPassed result (past_else self.old) self.old self.new }
    {
        let before = self.toks;
        match self.next() {
            Some(Tok::Word(found)) if is_same(found.as_slice(), b"else") => true,
            _ => {
                self.toks = before;
                false
            }
        }
    }
}
