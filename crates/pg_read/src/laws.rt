//! What holds of all texts and all tokens.
//!
//! Nothing runs here: the contracts are theorems over the definitions alone. They say that what `read_desc` is asked for
//! leaves it no choice, so that its contract names one answer.

ghost use Rattle.std.specs.Prelude.{◌≡◌, ◌≢◌, ℕ, List, Result, Err};
ghost use Rattle.pg_lang_token.specs.declared.tok.Tok.{Tok};
ghost use Rattle.pg_read.specs.Marks.{Mark};
ghost use Rattle.pg_read.specs.Fronts.{IsMarkedFront};
ghost use Rattle.pg_ast.specs.declared.tree.Desc.{Desc};
ghost use Rattle.pg_read.specs.declared.fault.DescFault.{DescFault};
ghost use Rattle.pg_read.specs.declared.fault.DescFault.TheVariants.{Memory};
ghost use Rattle.pg_read.specs.Answer.{IsAnswer};

/// The law of marks: what tokens do to depth is said by the tokens alone, whichever descriptions begin with them.
pub fn tokens_determine_marks()
    ensures { (ts : List Tok) (ms ns : List Mark) → IsMarkedFront ts ms → IsMarkedFront ts ns → ms ≡ ns }
{}

/// The law of answers: a text allows one answer, unless memory runs out.
pub fn one_answer_is_due()
    ensures { (text : List ℕ) (x y : Result Desc DescFault) → x ≢ Err Memory → y ≢ Err Memory → IsAnswer text x → IsAnswer text y → x ≡ y }
{}
