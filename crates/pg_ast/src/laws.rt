//! What holds of every description.
//!
//! The tokens of a description are defined from the tree down, and a reader of tokens is defined
//! from the list on. That the two fit each other is said here, for all trees and all lists, so that
//! a printer and a parser that keep to these definitions fit each other too. Whoever looks for the
//! proofs finds what is read of given tokens in `proofs/ExprReads`, `StmtReads` and `DescReads`,
//! and which tokens were read in `proofs/ExprExact`, `StmtExact` and `DescExact`.

ghost use Rattle.std.specs.Prelude.{◌≡◌, ◌↔◌, List, Some};
ghost use Rattle.pg_lang_token.specs.declared.tok.Tok.{Tok};
ghost use Rattle.pg_ast.specs.declared.tree.Desc.{Desc};
ghost use Rattle.pg_ast.specs.Tokens.{tokens_of};
ghost use Rattle.pg_ast.specs.Reading.{read_tokens};

/// The law of tokens: two descriptions with the same tokens are the same description.
#[tactic(auto, using(crate::proofs::DescReads::tokens_determine))]
pub fn tokens_determine_tree()
    ensures { (c d : Desc) → tokens_of c ≡ tokens_of d → c ≡ d }
{}

/// Reading answers with a description exactly for the tokens of that description: it takes each
/// list of tokens that a description has, and no other.
#[tactic(auto, using(crate::proofs::DescExact::read_exactly))]
pub fn reading_is_exact()
    ensures { (ts : List Tok) (d : Desc) → (read_tokens ts ≡ Some d) ↔ (ts ≡ tokens_of d) }
{}
