//! The words that begin expressions and statements, and those of the head.
//!
//! Both the reader (`exprs`, `stmts`) and the judge (`forms`) ask here which word some bytes are, and from then on match on
//! an enum in place of bytes. The table is `specs/Keywords.antt`. `mem`, `pc`, `mode`, `rel` and `bound` begin expressions
//! and statements both; which is meant is known from where they stand. The words of the head stand at fixed places, so no
//! bytes are looked up among them. Nothing here takes memory.

ghost use Rattle.std.specs.Prelude.{◌≡◌, bytes_eq};
ghost use Rattle.pg_read.specs.Keywords.{expr_word, stmt_word};

/// A word that begins an expression and is no name.
#[derive(Clone, Copy)]
pub enum ExprWord {
    /// `pc`, alone.
    Pc,
    /// `mode`, alone.
    Mode,
    /// `rel`, alone.
    Rel,
    /// `bound`, alone.
    Bound,
    /// `mem`, with an address in brackets behind it.
    Mem,
    /// `cat`, with two expressions in parentheses.
    Cat,
    /// `cut`, with an expression and two numbers in parentheses.
    Cut,
    /// `ext`, with an expression and a number in parentheses.
    Ext,
    /// `sext`, with an expression and a number in parentheses.
    Sext,
    /// `sel`, with three expressions in parentheses.
    Sel,
}

/// A word that begins a statement.
#[derive(Clone, Copy)]
pub enum StmtWord {
    /// `let`, with a name and what is assigned to it.
    Let,
    /// `mem`, with an address in brackets and what is assigned to that cell.
    Mem,
    /// `pc`, with what is assigned to it.
    Pc,
    /// `mode`, with what is assigned to it.
    Mode,
    /// `rel`, with what is assigned to it.
    Rel,
    /// `bound`, with what is assigned to it.
    Bound,
    /// `trap`, alone.
    Trap,
    /// `if`, with an expression, a block, and an else or none.
    If,
}

/// A word that stands at a fixed place of the head.
#[derive(Clone, Copy)]
pub enum HeadWord {
    /// `machine`, the first word of a description.
    Machine,
    /// `word`, before the number of bits of a word.
    Word,
    /// `address`, before the number of bits of an address.
    Address,
    /// `size`, before the number of cells.
    Size,
    /// `on`, behind `causes`.
    On,
}

/// Whether two words are the same.
pub fn is_same(bytes: &[u8], word: &[u8]) -> bool
    ensures { result ≡ bytes_eq bytes.now word.now }
{
    bytes == word
}

impl ExprWord {
    /// The word of these bytes, if they are one.
    #[tactic(auto, unfolding(crate::specs::Keywords::expr_word))]
    pub fn of(bytes: &[u8]) -> Option<ExprWord>
        ensures { result ≡ expr_word bytes.now }
    {
        if is_same(bytes, b"pc") {
            Some(ExprWord::Pc)
        } else if is_same(bytes, b"mode") {
            Some(ExprWord::Mode)
        } else if is_same(bytes, b"rel") {
            Some(ExprWord::Rel)
        } else if is_same(bytes, b"bound") {
            Some(ExprWord::Bound)
        } else if is_same(bytes, b"mem") {
            Some(ExprWord::Mem)
        } else if is_same(bytes, b"cat") {
            Some(ExprWord::Cat)
        } else if is_same(bytes, b"cut") {
            Some(ExprWord::Cut)
        } else if is_same(bytes, b"ext") {
            Some(ExprWord::Ext)
        } else if is_same(bytes, b"sext") {
            Some(ExprWord::Sext)
        } else if is_same(bytes, b"sel") {
            Some(ExprWord::Sel)
        } else {
            None
        }
    }
}

impl StmtWord {
    /// The word of these bytes, if they are one.
    #[tactic(auto, unfolding(crate::specs::Keywords::stmt_word))]
    pub fn of(bytes: &[u8]) -> Option<StmtWord>
        ensures { result ≡ stmt_word bytes.now }
    {
        if is_same(bytes, b"let") {
            Some(StmtWord::Let)
        } else if is_same(bytes, b"mem") {
            Some(StmtWord::Mem)
        } else if is_same(bytes, b"pc") {
            Some(StmtWord::Pc)
        } else if is_same(bytes, b"mode") {
            Some(StmtWord::Mode)
        } else if is_same(bytes, b"rel") {
            Some(StmtWord::Rel)
        } else if is_same(bytes, b"bound") {
            Some(StmtWord::Bound)
        } else if is_same(bytes, b"trap") {
            Some(StmtWord::Trap)
        } else if is_same(bytes, b"if") {
            Some(StmtWord::If)
        } else {
            None
        }
    }
}
