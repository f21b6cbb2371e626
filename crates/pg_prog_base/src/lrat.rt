//! Logs as text, in the format LRAT (Cruz-Filipe and others, CADE 2017).
//!
//! A step is the line `NUMBER LITERALS 0 HINTS 0`, a removal `NUMBER d NUMBERS 0`, where NUMBER is that of the last clause.
//! The clauses of the question have the numbers from 1 on, as the lines of their DIMACS text; `specs/Lrat.antt` says the bytes.

ghost use Rattle.std.specs.Prelude.{◌≡◌, ◌+◌, ◌<◌, ◌≤◌, ◌^◌, ◌++◌, length, IfOk, OnOk, suc};
ghost use Rattle.pg_proof.specs.Log.{IsClosedLog};
ghost use Rattle.pg_prog_base.specs.Lrat.{numbers_text, step_text, removal_text, acts_text, lrat_text, IsLratText};

use crate::text::{push_literals, push_number};
use pg_cnf::Cnf;
use pg_proof::{Act, ActList, Step};
use std::alloc::{AllocError, Global};

/// The text of a closed log of a question's clauses, of fewer than 2^32 acts. It costs the length of the text.
pub fn lrat_of(alloc: Global, cnf: &Cnf, acts: &ActList) -> Result<Vec<u8>, AllocError>
    requires closed { IsClosedLog cnf.now.clauses acts.now }
    requires few { length acts.now < 2 ^ 32 }
    ensures text { IfOk result (λ text. text.items ≡ lrat_text cnf.now.clauses acts.now) }
    ensures closed { IfOk result (λ text. IsLratText cnf.now.clauses text.items) }
{
    let mut text = Vec::new(alloc);
    push_acts(&mut text, cnf.clauses.len() as u64, acts.as_slice())?;
    Ok(text)
}

/// Pushes the lines of acts, behind the clause with a number.
#[tactic(auto, unfolding(crate::specs::Lrat::acts_text))]
fn push_acts(text: &mut Vec<u8>, clauses: u64, acts: &[Act]) -> Result<(), AllocError>
    requires few { clauses + length acts.now < 2 ^ 64 }
    ensures { OnOk result (text.new.items ≡ text.old.items ++ acts_text clauses acts.now) }
{
    let mut last = clauses;
    for act in acts {
        match act {
            Act::Add(step) => {
                last += 1;
                push_step(text, last, step)?;
            }
            Act::Remove(numbers) => push_removal(text, last, numbers.as_slice())?,
        }
    }
    Ok(())
}

/// Pushes the line of a step.
#[tactic(auto, unfolding(crate::specs::Lrat::step_text))]
fn push_step(text: &mut Vec<u8>, number: u64, step: &Step) -> Result<(), AllocError>
    ensures { OnOk result (text.new.items ≡ text.old.items ++ step_text number step.now.lits step.now.hints) }
{
    push_number(text, number)?;
    text.push(b' ')?;
    push_literals(text, step.lits.as_slice())?;
    text.push(b'0')?;
    text.push(b' ')?;
    push_numbers(text, step.hints.as_slice())?;
    text.push(b'0')?;
    text.push(b'\n')?;
    Ok(())
}

/// Pushes the line of a removal.
#[tactic(auto, unfolding(crate::specs::Lrat::removal_text))]
fn push_removal(text: &mut Vec<u8>, number: u64, numbers: &[u32]) -> Result<(), AllocError>
    ensures { OnOk result (text.new.items ≡ text.old.items ++ removal_text number numbers.now) }
{
    push_number(text, number)?;
    text.push(b' ')?;
    text.push(b'd')?;
    text.push(b' ')?;
    push_numbers(text, numbers)?;
    text.push(b'0')?;
    text.push(b'\n')?;
    Ok(())
}

/// Pushes numbers, with a space behind each.
#[tactic(auto, unfolding(crate::specs::Lrat::numbers_text))]
fn push_numbers(text: &mut Vec<u8>, numbers: &[u32]) -> Result<(), AllocError>
    ensures { OnOk result (text.new.items ≡ text.old.items ++ numbers_text numbers.now) }
{
    for number in numbers {
        push_number(text, u64::from(*number))?;
        text.push(b' ')?;
    }
    Ok(())
}
