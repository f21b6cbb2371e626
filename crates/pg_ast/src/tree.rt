//! The trees of expressions, statements, instructions and descriptions.
//!
//! A tree is plain data, in which `Boxed` and `Items` are seen as what they hold: two trees are equal
//! exactly where they are the same description, whatever their storage. Expressions and statements may
//! go down any number of levels here: the limits stand on `Instr`, whose body is known to keep them, so
//! that a walk over it recurses no further. The reader makes trees, the printer writes them, the tests
//! of validity go over them, and of the bodies code and gates are made. What a tree means is defined
//! above this crate; here stand its parts and, by its tokens, how each is written.

ghost use Rattle.std.specs.Prelude.{◌≡◌, ◌↔◌, IsSome, IfSome};
ghost use Rattle.pg_ast.specs.Levels.{IsShallow};

use crate::limits::is_shallow;
use crate::name::{Name, PatternText};
use sqlite_items::{Boxed, Items};

/// An operator between two expressions. In a valid description both sides have n bits, n from 1 to 64, and so has the
/// answer, but where something else is said.
#[derive(Clone, Copy, Debug, PartialEq, Eq)]
pub enum Op {
    /// `+`, the sum modulo `2^n`.
    Add,
    /// `-`, the difference modulo `2^n`.
    Sub,
    /// `*`, the product modulo `2^n`.
    Mul,
    /// `&`, bit by bit.
    And,
    /// `|`, bit by bit.
    Or,
    /// `^`, bit by bit.
    Xor,
    /// `==`: one bit, 1 where both are equal.
    Eq,
    /// `<`, of numbers without sign: one bit, 1 where the left one is below the right one.
    Lt,
    /// `<<`, to the left by as many places as the right side says, which may have any width; 0 from n places on.
    Shl,
    /// `>>`, to the right, in the same way.
    Shr,
}

/// An expression. Its numbers are any of 64 bits.
#[derive(Debug, Drop)]
pub enum Expr {
    /// `v:w`, a value and its width.
    Lit(u64, u64),
    /// A field of the pattern, or what a `let` has bound.
    Name(Name),
    /// `pc`
    Pc,
    /// `mode`
    Mode,
    /// `rel`
    Rel,
    /// `bound`
    Bound,
    /// `mem[e]`
    Load(Boxed<Expr>),
    /// `~e`
    Not(Boxed<Expr>),
    /// `(x + y)`, and so on for each operator.
    Bin(Op, Boxed<Expr>, Boxed<Expr>),
    /// `cat(x, y)`
    Cat(Boxed<Expr>, Boxed<Expr>),
    /// `cut(e, h, k)`
    Cut(Boxed<Expr>, u64, u64),
    /// `ext(e, n)`
    Ext(Boxed<Expr>, u64),
    /// `sext(e, n)`
    Sext(Boxed<Expr>, u64),
    /// `sel(c, x, y)`
    Sel(Boxed<Expr>, Boxed<Expr>, Boxed<Expr>),
}

/// The statements of a block, in order.
pub type StmtList = Items<Stmt>;

/// A statement.
#[derive(Debug, Drop)]
pub enum Stmt {
    /// `let n = e;`
    Let(Name, Expr),
    /// `mem[a] = e;`, the address first.
    Store(Expr, Expr),
    /// `pc = e;`
    Pc(Expr),
    /// `mode = e;`
    Mode(Expr),
    /// `rel = e;`
    Rel(Expr),
    /// `bound = e;`
    Bound(Expr),
    /// `trap;`
    Trap,
    /// `if c { .. }`, and `else { .. }` where there is one: one without statements is not none.
    If(Expr, StmtList, Option<StmtList>),
}

/// The instructions of a description, in order.
pub type InstrList = Items<Instr>;

/// An instruction, `instr NAME PATTERN { .. }`. Its body keeps the limits: blocks of at most
/// `BLOCK_LEVELS` levels, its own being the first, and expressions of at most `EXPR_LEVELS`.
#[derive(Debug, Drop)]
pub struct Instr {
    /// Its name, which no other instruction of a valid description has.
    pub name: Name,
    /// The words that it takes, and its fields: in a valid description it has as many places as a word has bits.
    pub pattern: PatternText,
    /// What it does, in order: from 0 to 200 statements in a valid description, those inside ifs counted too.
    pub body: StmtList,
    pub ghost shallow: { IsShallow body },
}

impl Instr {
    /// The instruction of these parts, whose body is known to keep the limits.
    pub fn new(name: Name, pattern: PatternText, body: StmtList) -> Instr
        requires { IsShallow body }
        ensures name { result.name ≡ name }
        ensures pattern { result.pattern ≡ pattern }
        ensures body { result.body ≡ body }
    {
        Instr {
            name,
            pattern,
            body,
        }
    }

    /// The instruction of these parts. `None` where the body goes past a limit: it has blocks below
    /// level `BLOCK_LEVELS`, its own being the first, or an expression of more levels than `EXPR_LEVELS`.
    pub fn try_new(name: Name, pattern: PatternText, body: StmtList) -> Option<Instr>
        ensures some { IsSome result ↔ IsShallow body }
        ensures name { IfSome result (λ instr. instr.name ≡ name) }
        ensures pattern { IfSome result (λ instr. instr.pattern ≡ pattern) }
        ensures body { IfSome result (λ instr. instr.body ≡ body) }
    {
        if is_shallow(&body) {
            Some(Instr {
                name,
                pattern,
                body,
            })
        } else {
            None
        }
    }
}

/// A description: the numbers of its head, whether causes are on, and its instructions. The numbers
/// are any of 64 bits here; the ranges below are those of a valid description.
#[derive(Debug, Drop)]
pub struct Desc {
    /// `word`, the bits of a word: 16, 24, 32, 40, 48, 56 or 64.
    pub word: u64,
    /// `address`, the bits of an address: 4 to 20, and such that a program status word fits a word,
    /// `3 address + 1 <= word`, or `3 address + 3 <= word` where causes are on.
    pub address: u64,
    /// `size`, the greatest size of a storage, in cells: 4 to `2^address - 1`.
    pub size: u64,
    /// Whether a trap stores its cause: whether the head has `causes on;`.
    pub causes: bool,
    /// The instructions, at most 256. Where an instruction has a number, it is its place here, from 0.
    pub instrs: InstrList,
}
