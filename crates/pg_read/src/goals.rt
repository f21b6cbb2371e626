//! What is still to come of a description, as a stack of goals.
//!
//! `judge` alone goes over tokens with it, and `forms` pushes. A goal is a part of the language that comes next, and where
//! levels matter it carries its own, so that they are counted without recursion and a text of any depth takes memory and no
//! stack. The goals lie in a vector with the first one last, since it is the first that is taken away and replaced;
//! contracts see them in the order of the text. Pushing is all that takes memory.

ghost use Rattle.std.specs.Prelude.{◌≡◌, ◌∷◌, [], ◌++◌, MatchOption, OnOk};

use crate::words::HeadWord;
use pg_lang_token::Sign;
use std::alloc::{AllocError, Global};
use std::marker::Model;

/// A part of a description.
#[derive(Clone, Copy)]
pub enum Goal {
    /// This sign.
    Sign(Sign),
    /// This word.
    Word(HeadWord),
    /// A number.
    Number,
    /// A name.
    Name,
    /// A pattern.
    Pattern,
    /// The sign of an operator.
    Op,
    /// An expression of this level, from 1 on. One of level 33 is too deep.
    Expr(u32),
    /// A block of this level, from its opening brace on. The body of an instruction has level 1, and one of level 17 is too
    /// deep.
    Block(u32),
    /// The statements of a block up to its closing brace, and past it. Blocks inside have this level: 2 to 17.
    Stmts(u32),
    /// The same behind the block of an if, where an else may come first.
    AfterIf(u32),
    /// The end of the head: `causes on;` or nothing, and the closing brace.
    HeadEnd,
    /// The instructions up to the end.
    Instrs,
}

/// The goals that are left. Contracts see them in the order in which they are to be met.
#[derive(Drop)]
pub struct Goals {
    last_first: Vec<Goal>,
}

impl Model for Goals {
    ghost use Rattle.std.specs.Prelude.{List, reverse};
    ghost use Rattle.pg_read.specs.declared.goals.Goal.{Goal};

    ghost Value = { List Goal };

    ghost view = { λ c. reverse c.last_first.items };
}

impl Goals {
    /// No goal.
    pub fn new(alloc: Global) -> Goals
        ensures { result ≡ [] }
    {
        Goals {
            last_first: Vec::new(alloc),
        }
    }

    /// Takes the first goal away.
    pub fn pop(&mut self) -> Option<Goal>
        ensures { MatchOption result ((self.old ≡ []) × (self.new ≡ [])) (λ goal. self.old ≡ goal ∷ self.new) }
    {
        self.last_first.pop()
    }

    /// Puts a goal in front.
    fn push(&mut self, goal: Goal) -> Result<(), AllocError>
        ensures { OnOk result (self.new ≡ goal ∷ self.old) }
    {
        self.last_first.push(goal)?;
        Ok(())
    }

    /// Puts these goals in front.
    pub fn push_all(&mut self, goals: &[Goal]) -> Result<(), AllocError>
        ensures { OnOk result (self.new ≡ goals.now ++ self.old) }
    {
        let mut rest = goals;
        while let Some((last, front)) = rest.split_last() {
            self.push(*last)?;
            rest = front;
        }
        Ok(())
    }
}
