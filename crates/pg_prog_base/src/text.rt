//! Clauses as text.
//!
//! A formula is a head, `p cnf VARIABLES CLAUSES`, and a line for each clause: its literals and a `0`. It is pushed behind
//! what a buffer holds; `specs/Dimacs.antt` says its bytes. The time is linear in them.

ghost use Rattle.std.specs.Prelude.{◌≡◌, ◌++◌, OnOk};
ghost use Rattle.std.specs.Fmt.{decimal, signed_decimal};
ghost use Rattle.pg_prog_base.specs.Dimacs.{literals_text, clauses_text, greatest_in, greatest_variable, head_text, dimacs_text};

use pg_cnf::{Clause, Cnf};
use pg_text::dec;
use std::alloc::AllocError;

/// Pushes the text of a formula.
#[tactic(auto, unfolding(crate::specs::Dimacs::dimacs_text))]
pub fn push_formula(text: &mut Vec<u8>, cnf: &Cnf) -> Result<(), AllocError>
    ensures { OnOk result (text.new.items ≡ text.old.items ++ dimacs_text cnf.now.clauses) }
{
    let clauses = cnf.clauses.as_slice();
    push_head(text, greatest_variable(clauses), clauses.len())?;
    push_clauses(text, clauses)
}

/// Pushes a number, as decimal digits.
pub fn push_number(text: &mut Vec<u8>, number: u64) -> Result<(), AllocError>
    ensures { OnOk result (text.new.items ≡ text.old.items ++ decimal number) }
{
    text.extend_from_slice(dec(number).as_slice())
}

/// Pushes the head.
#[tactic(auto, unfolding(crate::specs::Dimacs::head_text))]
fn push_head(text: &mut Vec<u8>, variables: u32, clauses: usize) -> Result<(), AllocError>
    ensures { OnOk result (text.new.items ≡ text.old.items ++ head_text variables clauses) }
{
    text.extend_from_slice(b"p cnf ")?;
    push_number(text, u64::from(variables))?;
    text.push(b' ')?;
    push_number(text, clauses as u64)?;
    text.push(b'\n')?;
    Ok(())
}

/// Pushes the lines of clauses.
#[tactic(auto, unfolding(crate::specs::Dimacs::clauses_text))]
fn push_clauses(text: &mut Vec<u8>, clauses: &[Clause]) -> Result<(), AllocError>
    ensures { OnOk result (text.new.items ≡ text.old.items ++ clauses_text clauses.now) }
{
    for clause in clauses {
        push_literals(text, clause.lits())?;
        text.push(b'0')?;
        text.push(b'\n')?;
    }
    Ok(())
}

/// Pushes literals, with a space behind each.
#[tactic(auto, unfolding(crate::specs::Dimacs::literals_text))]
pub fn push_literals(text: &mut Vec<u8>, literals: &[i32]) -> Result<(), AllocError>
    ensures { OnOk result (text.new.items ≡ text.old.items ++ literals_text literals.now) }
{
    for literal in literals {
        push_literal(text, *literal)?;
        text.push(b' ')?;
    }
    Ok(())
}

/// Pushes a literal.
fn push_literal(text: &mut Vec<u8>, literal: i32) -> Result<(), AllocError>
    ensures { OnOk result (text.new.items ≡ text.old.items ++ signed_decimal literal) }
{
    if literal < 0 {
        text.push(b'-')?;
    }
    push_number(text, u64::from(literal.unsigned_abs()))
}

/// The greatest variable that stands in a clause; 0 where none does.
#[tactic(auto, unfolding(crate::specs::Dimacs::greatest_variable))]
fn greatest_variable(clauses: &[Clause]) -> u32
    ensures { result ≡ greatest_variable clauses.now }
{
    let mut most = 0;
    for clause in clauses {
        most = greatest_in(clause.lits()).max(most);
    }
    most
}

/// The greatest variable of some literals; 0 where there are none.
#[tactic(auto, unfolding(crate::specs::Dimacs::greatest_in))]
fn greatest_in(literals: &[i32]) -> u32
    ensures { result ≡ greatest_in literals.now }
{
    let mut most = 0;
    for literal in literals {
        most = literal.unsigned_abs().max(most);
    }
    most
}
