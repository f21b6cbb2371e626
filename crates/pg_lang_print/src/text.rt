//! A description as text.
//!
//! `pg_tool` calls `print` for the command of that name. The tokens of the tree are listed whole and
//! then laid out: memory is taken for the list, which is gone when `print` answers, and for the text.
//! The clauses say which bytes the text has, and that they read as the description.

ghost use Rattle.std.specs.Prelude.{◌≡◌, Some, IfOk};
ghost use Rattle.pg_ast.specs.Tokens.{tokens_of};
ghost use Rattle.pg_text.specs.Cutting.{tokens_in};
ghost use Rattle.pg_lang_print.specs.Layout.{printed};

use crate::lines::layout;
use crate::tokens::desc_tokens;
use pg_ast::Desc;
use std::alloc::{AllocError, Global};

/// The text of a description. `AllocError` comes where an allocation fails, and from nothing else.
#[tactic(auto, using(crate::proofs::ReadsBack::reads_back), unfolding(crate::specs::Layout::printed))]
pub fn print(alloc: Global, desc: &Desc) -> Result<Vec<u8>, AllocError>
    ensures text { IfOk result (λ text. text.items ≡ printed desc.now) }

    // It reads as the description.
    ensures reads { IfOk result (λ text. tokens_in text.items ≡ Some (tokens_of desc.now)) }
{
    let toks = desc_tokens(alloc, desc)?;
    layout(alloc, toks.as_slice())
}
