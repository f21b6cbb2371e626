//! The text of a question.

ghost use Rattle.std.specs.Prelude.{◌≡◌, IfOk};
ghost use Rattle.pg_prog_base.specs.Dimacs.{IsQuestionText};

use crate::comments::push_comments;
use crate::text::push_formula;
use pg_ask::Asked;
use std::alloc::{AllocError, Global};

/// How a question is named above its clauses.
#[derive(Clone, Copy)]
pub struct Names<'a> {
    /// The name of the description's file.
    pub file: &'a str,
    /// The name of the instruction.
    pub instr: &'a str,
    /// The word of the kind.
    pub word: &'a str,
}

/// A question as text: lines of comment, and its clauses. It costs the length of the text.
pub fn text_of(alloc: Global, names: &Names<'_>, asked: &Asked<'_>) -> Result<Vec<u8>, AllocError>
    ensures { IfOk result (λ text. IsQuestionText asked.now.cnf.clauses text.items) }
{
    let mut text = Vec::new(alloc);
    push_comments(alloc, &mut text, names, asked)?;
    push_formula(&mut text, asked.cnf())?;
    Ok(text)
}
