//! Clauses, and conjunctions of them: formulas in conjunctive normal form.
//!
//! Variables are numbered from 1, as in the format that solvers read, so that a literal is an integer whose sign is that of
//! its variable. A `Clause` keeps its literals in place where there are at most three, as in all clauses of circuits. That
//! none is 0 and none is there twice is kept by its type, and by `Cnf` that each is over the variables that there are: who
//! takes a `Cnf` need not look.
//!
//! `encode` makes a `Cnf`, clause by clause. Contracts see a clause as the list of its literals and `clauses` as the list of
//! these, so that two formulas are equal where they have the same clauses in the same order.

ghost use Rattle.std.specs.Prelude.{◌≡◌, ◌+◌, ◌<◌, ◌^◌, ◌++◌, ◌∷◌, [], length, IfOk, OnOk, OnErr};
ghost use Rattle.pg_cnf.specs.Literals.{IsClause, AreClauses, AreClauses-prop};

use smallvec::SmallVec;
use sqlite_items::Items;
use std::alloc::{AllocError, Global};
use std::marker::Model;

/// A disjunction of literals: n stands for variable n, and -n for its negation. None is 0, and none is there twice.
#[derive(Drop)]
pub struct Clause {
    literals: SmallVec<i32, 3>,
}

impl Model for Clause {
    ghost use Rattle.std.specs.Prelude.{ℤ, List};
    ghost use Rattle.pg_cnf.specs.Literals.{IsClause};

    ghost Value = { List ℤ };

    ghost view = { λ c. c.literals.items };

    ghost invariant = { λ c. IsClause 2147483647 c.literals.items };
}

impl Clause {
    /// A clause of literals, none of which is 0 or `i32::MIN`, and none there twice. It takes them over, and no memory.
    pub fn new(literals: SmallVec<i32, 3>) -> Clause
        requires { IsClause 2147483647 literals.items }
        ensures { result ≡ literals.items }
    {
        Clause { literals }
    }

    /// The literals, in order.
    pub fn lits(&self) -> &[i32]
        ensures literals { result.now ≡ self.now }
        ensures clause { IsClause 2147483647 self.now }
    {
        self.literals.as_slice()
    }
}

/// A conjunction of clauses over variables that are numbered from 1. There are fewer than 2^31 of each.
#[derive(Drop)]
pub struct Cnf {
    /// The clauses, which are numbered from 1 in their order.
    pub clauses: Items<Clause>,
    /// How many variables there are. Each literal is one of theirs.
    pub variables: u32,
    pub ghost few_variables: { variables < 2 ^ 31 },
    pub ghost few_clauses: { length clauses < 2 ^ 31 },
    pub ghost are_clauses: { AreClauses variables clauses } by { AreClauses-prop variables clauses },
}

impl Cnf {
    /// No clause over so many variables, fewer than 2^31. It takes no memory yet.
    pub fn new(alloc: Global, variables: u32) -> Cnf
        requires { variables < 2 ^ 31 }
        ensures clauses { result.clauses ≡ [] }
        ensures variables { result.variables ≡ variables }
    {
        Cnf {
            clauses: Items::new(alloc),
            variables,
        }
    }

    /// A clause more, at the end: its variables are among those that there are, and there are fewer than 2^31 clauses with
    /// it. The error is out of memory, and the clauses stay.
    pub fn push(&mut self, clause: Clause) -> Result<(), AllocError>
        requires room { length self.old.clauses + 1 < 2 ^ 31 }
        requires clause { IsClause self.old.variables clause }
        ensures clauses { OnOk result (self.new.clauses ≡ self.old.clauses ++ clause ∷ []) }
        ensures err { OnErr result (self.new.clauses ≡ self.old.clauses) }
        ensures variables { self.new.variables ≡ self.old.variables }
    {
        self.clauses.push(clause)
    }
}
