//! How much a description holds, against its limits.
//!
//! The second class of validity, before every other that goes over the bodies: the limits bound the work of those, and
//! the interpreter has room for so many stores and lets and no more. An instruction is counted whole, in one walk over
//! its body, and the counts are compared at its end; one too many is so whatever its body. A count stops at the greatest
//! number of 64 bits in place of wrapping, so it is past its limit where the number that it stands for is (`Counted`).
//! Nothing here takes memory.

ghost use Rattle.std.specs.Prelude.{◌≡◌, map};
ghost use Rattle.pg_lang_valid.specs.Limits.{Tally, tally, both, all_of, expr_tally, stmt_tally, tally_limit, limit_at, limit_broken};

use crate::fault::Limit;
use pg_ast::{Expr, Instr, Stmt};

/// The most instructions of a description.
pub const MOST_INSTRUCTIONS: usize = 256;

/// The most occurrences of `mem [` in an instruction, reads and writes.
pub const MOST_ACCESSES: usize = 8;

/// The most lets of an instruction.
pub const MOST_LETS: usize = 32;

/// The most statements of an instruction, an if counting itself and those inside.
pub const MOST_STATEMENTS: usize = 200;

/// The most expressions of an instruction, parts included.
pub const MOST_EXPRESSIONS: usize = 1024;

/// What the limits of an instruction count, each count stopping at the greatest number of 64 bits.
#[derive(Clone, Copy, Debug)]
struct Counts {
    /// Reads and writes of cells, each a `mem [`.
    accesses: u64,
    /// Lets.
    lets: u64,
    /// Statements, those inside ifs too.
    statements: u64,
    /// Expressions, their parts too.
    expressions: u64,
}

impl Counts {
    ghost use Rattle.pg_lang_valid.specs.Counted.{capped, added};

    /// These counts and those, together.
    #[tactic(auto, unfolding(crate::specs::Counted::added))]
    fn and(self, other: Counts) -> Counts
        ensures { result ≡ added self other }
    {
        Counts {
            accesses: self.accesses.saturating_add(other.accesses),
            lets: self.lets.saturating_add(other.lets),
            statements: self.statements.saturating_add(other.statements),
            expressions: self.expressions.saturating_add(other.expressions),
        }
    }

    /// What an expression counts beside its parts.
    #[tactic(auto, unfolding(crate::specs::Counted::capped))]
    fn one_expression() -> Counts
        ensures { result ≡ capped (tally 0 0 0 1) }
    {
        Counts {
            accesses: 0,
            lets: 0,
            statements: 0,
            expressions: 1,
        }
    }

    /// What a `mem [` counts, beside the expression or the statement that it stands in.
    #[tactic(auto, unfolding(crate::specs::Counted::capped))]
    fn one_access() -> Counts
        ensures { result ≡ capped (tally 1 0 0 0) }
    {
        Counts {
            accesses: 1,
            lets: 0,
            statements: 0,
            expressions: 0,
        }
    }

    /// What a statement counts beside what it holds.
    #[tactic(auto, unfolding(crate::specs::Counted::capped))]
    fn one_statement() -> Counts
        ensures { result ≡ capped (tally 0 0 1 0) }
    {
        Counts {
            accesses: 0,
            lets: 0,
            statements: 1,
            expressions: 0,
        }
    }

    /// What a let counts beside its statement.
    #[tactic(auto, unfolding(crate::specs::Counted::capped))]
    fn one_let() -> Counts
        ensures { result ≡ capped (tally 0 1 0 0) }
    {
        Counts {
            accesses: 0,
            lets: 1,
            statements: 0,
            expressions: 0,
        }
    }

    /// What nothing counts, as an else that is absent.
    #[tactic(auto, unfolding(crate::specs::Counted::capped))]
    fn none() -> Counts
        ensures { result ≡ capped (tally 0 0 0 0) }
    {
        Counts {
            accesses: 0,
            lets: 0,
            statements: 0,
            expressions: 0,
        }
    }

    /// What an expression and its parts count.
    #[tactic(auto, using(crate::proofs::CheckExprEquations::expr_tally_rules, crate::proofs::CountLemmas::count_rules))]
    fn of_expr(expr: &Expr) -> Counts
        ensures { result ≡ capped (expr_tally expr.now) }
    {
        let one = Counts::one_expression();
        match expr {
            Expr::Lit(_, _) | Expr::Name(_) | Expr::Pc | Expr::Mode | Expr::Rel | Expr::Bound =>
                one,
            Expr::Load(e) => Counts::one_access().and(one.and(Counts::of_expr(e.get()))),
            Expr::Not(e) | Expr::Cut(e, _, _) | Expr::Ext(e, _) | Expr::Sext(e, _) => one.and(
                Counts::of_expr(e.get()),
            ),
            Expr::Bin(_, x, y) | Expr::Cat(x, y) => one.and(Counts::of_expr(x.get()).and(
                Counts::of_expr(y.get()),
            )),
            Expr::Sel(c, x, y) => one.and(Counts::of_expr(c.get()).and(Counts::of_expr(x.get()).and(
                Counts::of_expr(y.get()),
            ))),
        }
    }

    /// What an if counts, with what its test and its blocks count.
    #[tactic(auto, using(crate::proofs::CountLemmas::count_rules))]
    fn of_if(test: Counts, held: Counts, other: Counts) -> Counts
        ensures { (s t u : Tally) → test ≡ capped s → held ≡ capped t → other ≡ capped u → result ≡ capped (both (tally 0 0 1 0) (both s (both t u))) }
    {
        Counts::one_statement().and(test.and(held.and(other)))
    }

    /// What a statement and those inside it count.
    #[cycle(tally)]
    #[tactic(auto, using(crate::proofs::CheckStmtEquations::stmt_tally_rules, crate::proofs::CountLemmas::count_rules))]
    fn of_stmt(stmt: &Stmt) -> Counts
        ensures { result ≡ capped (stmt_tally stmt.now) }
    {
        let one = Counts::one_statement();
        match stmt {
            Stmt::Let(_, e) => one.and(Counts::one_let().and(Counts::of_expr(e))),
            Stmt::Store(a, e) => one.and(Counts::one_access().and(Counts::of_expr(a).and(
                Counts::of_expr(e),
            ))),
            Stmt::Pc(e) | Stmt::Mode(e) | Stmt::Rel(e) | Stmt::Bound(e) => one.and(Counts::of_expr(
                e,
            )),
            Stmt::Trap => one,
            Stmt::If(c, held, other) => {
                let test = Counts::of_expr(c);
                let held = Counts::of_stmts(held.as_slice());
                match other {
                    None => Counts::of_if(test, held, Counts::none()),
                    Some(stmts) => Counts::of_if(test, held, Counts::of_stmts(stmts.as_slice())),
                }
            }
        }
    }

    /// What statements count.
    #[cycle(tally)]
    #[tactic(auto, using(crate::proofs::CheckStmtEquations::stmt_tally_rules, crate::proofs::CountLemmas::count_rules))]
    fn of_stmts(stmts: &[Stmt]) -> Counts
        ensures { result ≡ capped (all_of (map stmt_tally stmts.now)) }
    {
        let mut counts = Counts::none();
        for stmt in stmts {
            counts = counts.and(Counts::of_stmt(stmt));
        }
        counts
    }

    /// The least limit that these counts break.
    #[tactic(auto, unfolding(crate::specs::Counted::capped))]
    fn limit(self) -> Option<Limit>
        ensures { (t : Tally) → self ≡ capped t → result ≡ tally_limit t }
    {
        if (MOST_ACCESSES as u64) < self.accesses {
            Some(Limit::Accesses)
        } else if (MOST_LETS as u64) < self.lets {
            Some(Limit::Lets)
        } else if (MOST_STATEMENTS as u64) < self.statements {
            Some(Limit::Statements)
        } else if (MOST_EXPRESSIONS as u64) < self.expressions {
            Some(Limit::Expressions)
        } else {
            None
        }
    }
}

/// The least limit that the instruction of this number breaks; the numbers begin at 0.
fn limit_at(k: usize, instr: &Instr) -> Option<Limit>
    ensures { result ≡ limit_at k instr.now }
{
    if k == MOST_INSTRUCTIONS {
        Some(Limit::Instructions)
    } else {
        Counts::of_stmts(instr.body.as_slice()).limit()
    }
}

/// The first instruction that breaks a limit, and the least limit that it breaks.
#[tactic(auto, unfolding(crate::specs::Limits::limit_broken))]
pub fn limit_broken(instrs: &[Instr]) -> Option<(Limit, usize)>
    ensures { result ≡ limit_broken 0 instrs.now }
{
    for (k, instr) in instrs.iter().enumerate() {
        if let Some(limit) = limit_at(k, instr) {
            return Some((limit, k));
        }
    }
    None
}
