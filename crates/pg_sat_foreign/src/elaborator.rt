//! A proof, record by record.

use crate::chain::hints_of;
use crate::denial::{Met, deny, release, value_of};
use crate::draft::Draft;
use crate::held::Held;
use crate::marks::Marks;
use crate::ordered::{greatest_in, greatest_variable, ordered};
use crate::rup_fault::RupFault;
use crate::units::Units;
use crate::{Act, Place, Record};
use pg_cnf::Cnf;
use pg_proof::{ActList, HintList, LitList};
use pg_watch::Fix;
use std::alloc::{AllocError, Global};

/// The steps of a proof, each with hints, up to the first from which on unit propagation alone refutes the clauses.
pub fn elaborated(alloc: Global, cnf: &Cnf, records: &[Record]) -> Result<ActList, RupFault> {
    let mut elaborator = Elaborator::new(alloc, cnf)?;
    elaborator.settle()?;
    for record in records {
        if elaborator.closed {
            break;
        }
        elaborator.take(record)?;
    }
    if elaborator.closed {
        Ok(elaborator.draft.finish())
    } else {
        Err(RupFault::Open)
    }
}

/// A proof, as far as it was taken. Between records nothing is assumed, and nothing is left to propagate.
#[derive(Drop)]
struct Elaborator {
    alloc: Global,
    held: Held,
    draft: Draft,
    units: Units,
    marks: Marks,
    /// How many literals of the trail have clauses of their own: all that follow with nothing assumed.
    root: usize,
    /// The greatest variable that a clause of the question has.
    greatest: u32,
    /// Whether the empty clause was added.
    closed: bool,
}

impl Elaborator {
    /// No record yet, over the clauses of a question.
    fn new(alloc: Global, cnf: &Cnf) -> Result<Elaborator, AllocError> {
        let clauses = cnf.clauses.as_slice();
        let mut held = Held::new(alloc, cnf.variables)?;
        for (place, clause) in clauses.iter().enumerate() {
            if let Some(literals) = ordered(alloc, clause.lits())? {
                let number = place as u32 + 1;
                held.add(alloc, literals.as_slice(), number, u64::from(number))?;
            }
        }
        Ok(Elaborator {
            alloc,
            held,
            draft: Draft::new(alloc, clauses.len()),
            units: Units::new(alloc, cnf.variables)?,
            marks: Marks::new(alloc, cnf.variables)?,
            root: 0,
            greatest: greatest_variable(clauses),
            closed: false,
        })
    }

    /// Takes a record.
    fn take(&mut self, record: &Record) -> Result<(), RupFault> {
        match &record.act {
            Act::Add(literals) => self.add(record.place, literals.as_slice(), 0)?,
            Act::AddNumbered(id, literals) => self.add(record.place, literals.as_slice(), *id)?,
            Act::Remove(literals) => {
                if let Some(literals) = ordered(self.alloc, literals.as_slice())? {
                    self.held.remove(literals.as_slice());
                }
            }
            Act::RemoveNumbered(ids) => {
                for id in ids.as_slice() {
                    self.held.remove_numbered(*id);
                }
            }
        }
        if self.held.is_sparse() && !self.closed {
            self.renew()?;
        }
        Ok(())
    }

    /// Takes a clause that is added at a place of the proof, and has a number there or 0.
    fn add(&mut self, place: Place, literals: &[i32], id: u64) -> Result<(), RupFault> {
        let Some(literals) = ordered(self.alloc, literals)? else {
            return Ok(());
        };
        if greatest_in(literals.as_slice()) > self.greatest {
            return Err(RupFault::UnknownLit(place));
        }
        let hints = self
            .hints(literals.as_slice())?
            .ok_or(RupFault::NotImplied(place))?;
        let copy = LitList::from_slice(self.alloc, literals.as_slice())?;
        let number = self.draft.push(copy, hints)?;
        if self.true_literal(literals.as_slice()).is_some() {
            return Ok(());
        }
        self.held.add(self.alloc, literals.as_slice(), number, id)?;
        self.settle()
    }

    /// The hints by which a clause follows, or none where it does not follow by unit propagation.
    fn hints(&mut self, literals: &[i32]) -> Result<Option<HintList>, AllocError> {
        if let Some(literal) = self.true_literal(literals) {
            return Ok(Some(self.fact(literal)?));
        }
        self.marks.begin(literals);
        let conflict = match deny(&mut self.held.watches, literals)? {
            Met::Nothing => return Ok(None),
            Met::Own => None,
            Met::Conflict(number) => Some(number),
        };
        let hints = hints_of(
            self.alloc,
            &self.held,
            &self.units,
            &mut self.marks,
            self.root,
            conflict,
        )?;
        release(&mut self.held.watches, self.root);
        Ok(Some(hints))
    }

    /// The first literal that is true.
    fn true_literal(&self, literals: &[i32]) -> Option<i32> {
        for literal in literals {
            if value_of(&self.held.watches, *literal) == Some(true) {
                return Some(*literal);
            }
        }
        None
    }

    /// The clause of a literal that follows with nothing assumed.
    fn fact(&self, literal: i32) -> Result<HintList, AllocError> {
        let mut hints = HintList::new(self.alloc);
        if let Some(number) = self.units.number(literal) {
            hints.push(number)?;
        }
        Ok(hints)
    }

    /// Propagates with nothing assumed. What follows gets steps; where a clause is false then, the empty clause does too.
    fn settle(&mut self) -> Result<(), RupFault> {
        let fix = self.held.watches.settle()?;
        let end = self.held.watches.trail().len();
        for at in self.root..end {
            self.raise(at)?;
        }
        self.root = end;
        match fix {
            Fix::Quiet => Ok(()),
            Fix::Conflict(number) => self.close(number),
        }
    }

    /// A step for the literal at a place of the trail, which follows with nothing assumed, where its reason has more literals.
    fn raise(&mut self, at: usize) -> Result<(), RupFault> {
        let Some((literal, reason)) = self.held.set_by(at) else {
            return Ok(());
        };
        if self.units.number(literal).is_some() {
            return Ok(());
        }
        let mut number = self.held.number(reason);
        if self.held.literals(reason).len() > 1 {
            let hints = self.hints_by_units(reason, literal)?;
            number = self
                .draft
                .push(LitList::from_slice(self.alloc, &[literal])?, hints)?;
        }
        self.units.put(literal, number);
        Ok(())
    }

    /// A step for the empty clause, where the clause of a number is false with nothing assumed.
    fn close(&mut self, watched: u32) -> Result<(), RupFault> {
        let hints = self.hints_by_units(watched, 0)?;
        self.draft.push(LitList::new(self.alloc), hints)?;
        self.closed = true;
        Ok(())
    }

    /// The clauses of the literals of a clause but one, and that clause behind them.
    fn hints_by_units(&self, watched: u32, but: i32) -> Result<HintList, AllocError> {
        let mut hints = HintList::new(self.alloc);
        for literal in self.held.literals(watched) {
            if *literal == but {
                continue;
            }
            if let Some(number) = self.units.number(*literal) {
                hints.push(number)?;
            }
        }
        hints.push(self.held.number(watched))?;
        Ok(hints)
    }

    /// Watches anew the clauses that are not removed.
    fn renew(&mut self) -> Result<(), RupFault> {
        self.held = self.renewed()?;
        self.root = 0;
        self.settle()
    }

    /// The clauses that are not removed, without those that have a literal that is true for good; and those of one such literal.
    fn renewed(&self) -> Result<Held, AllocError> {
        let mut held = Held::new(self.alloc, self.held.watches.variables())?;
        for literal in self.held.watches.trail() {
            if let Some(number) = self.units.number(*literal) {
                held.add(self.alloc, &[*literal], number, 0)?;
            }
        }
        for place in 0..self.held.len() {
            self.keep(place, &mut held)?;
        }
        Ok(held)
    }

    /// Keeps the clause at a place, where it is not removed and has no literal that is true.
    fn keep(&self, place: usize, held: &mut Held) -> Result<(), AllocError> {
        match self.held.left_at(place) {
            Some((entry, literals)) if self.true_literal(literals).is_none() => {
                held.add(self.alloc, literals, entry.number, entry.id)
            }
            _ => Ok(()),
        }
    }
}
