//! Gates, read off clauses: which variables are functions of two others.
//!
//! The encoding of a circuit ties the variable of a gate to those of its operands, which are less, by clauses of three
//! literals: one of them has the variable positive and is alone where the gate is an and, and there are four where it is an
//! exclusive or. So gates are found again without the circuit. What is found guides decisions alone: it may be read off any
//! formula, nothing rests on it, and so nothing is said of it in contracts.

use pg_cnf::Cnf;
use std::alloc::{AllocError, Global};

/// What a variable is.
#[derive(Clone, Copy)]
pub enum Kind {
    /// No gate that is known.
    Input,
    /// True where both operands are.
    And,
    /// True where both operands are, or neither is.
    Equal,
}

/// The clauses of three literals in which a variable is the greatest.
#[derive(Clone, Copy)]
pub struct Gate {
    clauses: u32,
    /// The operands: the negations of the other two literals in the last clause that has the variable positive, and 0 where
    /// there is none.
    pub first: i32,
    pub second: i32,
}

impl Gate {
    /// No clause.
    pub fn none() -> Gate {
        Gate {
            clauses: 0,
            first: 0,
            second: 0,
        }
    }

    /// A clause more: a literal of the variable, and the two others.
    fn note(&mut self, own: i32, first: i32, second: i32) {
        self.clauses = self.clauses.saturating_add(1);
        if own > 0 {
            self.first = first.saturating_neg();
            self.second = second.saturating_neg();
        }
    }

    /// What the variable is.
    pub fn kind(&self) -> Kind {
        if self.first == 0 {
            return Kind::Input;
        }
        match self.clauses {
            1 => Kind::And,
            4 => Kind::Equal,
            _ => Kind::Input,
        }
    }
}

/// The gates of a formula, by variable. It costs the number of clauses and of variables.
pub fn gates_of(alloc: Global, cnf: &Cnf) -> Result<Vec<Gate>, AllocError> {
    let mut gates = vec![in alloc; Gate::none(); cnf.variables as usize + 1]?;
    for clause in cnf.clauses.as_slice() {
        note(gates.as_mut_slice(), clause.lits());
    }
    Ok(gates)
}

/// Notes a clause at its greatest variable, where it has three literals.
fn note(gates: &mut [Gate], clause: &[i32]) {
    if let &[first, second, third] = clause {
        let one = first.unsigned_abs();
        let two = second.unsigned_abs();
        let three = third.unsigned_abs();
        if one > two.max(three) {
            note_at(gates, first, second, third);
        } else if two > three {
            note_at(gates, second, first, third);
        } else {
            note_at(gates, third, first, second);
        }
    }
}

/// Notes a clause at the variable of its first literal.
fn note_at(gates: &mut [Gate], own: i32, first: i32, second: i32) {
    if let Some(gate) = gates.get_mut(own.unsigned_abs() as usize) {
        gate.note(own, first, second);
    }
}
