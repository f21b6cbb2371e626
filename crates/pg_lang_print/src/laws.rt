//! What holds of every description that is printed.
//!
//! Nothing runs here: the contracts are theorems over the definitions alone. In these a tree has any
//! numbers, and a text has none from 2^64 on, so both laws ask that the numbers of a tree are below.
//! Those of a `Desc` in memory always are, and `print` has no such premise.

ghost use Rattle.std.specs.Prelude.{◌≡◌, Some};
ghost use Rattle.pg_ast.specs.declared.tree.Desc.{Desc};
ghost use Rattle.pg_ast.specs.Tokens.{tokens_of};
ghost use Rattle.pg_text.specs.Cutting.{tokens_in};
ghost use Rattle.pg_lang_print.specs.Layout.{printed};
ghost use Rattle.pg_lang_print.specs.Numbers.{NumbersFit};

/// What is printed reads as the tree: the tokens of its text are those of the description, where
/// each of its numbers is below 2^64.
#[tactic(auto, using(crate::proofs::ReadsBack::reads_back))]
pub fn printed_reads_back()
    ensures { (d : Desc) → NumbersFit d → tokens_in (printed d) ≡ Some (tokens_of d) }
{}

/// Two descriptions with the same text are the same description, where each number of both is
/// below 2^64.
#[tactic(auto, using(crate::proofs::ReadsBack::text_determines))]
pub fn text_determines_tree()
    ensures { (c d : Desc) → NumbersFit c → NumbersFit d → printed c ≡ printed d → c ≡ d }
{}
