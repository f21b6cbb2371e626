//! The checker: the clauses of a question, and those that valid steps add.
//!
//! Whoever has a log calls `new` with the question, and then `add` and `remove` act by act: a caller that reads a log from
//! outside, or the one that made it and does not want to be trusted. The clauses lie here, copied into one list (`store`), so
//! that nothing of the question is borrowed. Literals are marked in flags that each step takes down at once.

ghost use Rattle.std.specs.Prelude.{◌≡◌, ◌+◌, ◌<◌, ◌≤◌, ◌≢◌, ◌^◌, ◌||◌, List, ℤ, length, Some, None, IfOk, IfErr, OnOk, OnErr};
ghost use Rattle.pg_proof.specs.State.{State, begun, is_empty, with_clause};
ghost use Rattle.pg_proof.specs.Refutation.{fault_of, told};
ghost use Rattle.pg_proof.specs.Covered.{is_covered};
ghost use Rattle.pg_proof.specs.Tight.{is_tight};
ghost use Rattle.pg_proof.specs.Log.{act_fault, after_act};
ghost use Rattle.pg_proof.specs.Removal.{after_removal};
ghost use Rattle.pg_proof.specs.Sound.{IsSound};

use crate::cover::{Hung, hold, is_covered, make_lists, no_lists};
use crate::marks::Marks;
use crate::propagation::fault_of;
use crate::question::{copies, greatest_variable};
use crate::removal::{are_held, make_room, take_away};
use crate::step::{Act, ProofFault, Step};
use crate::store::Store;
use crate::tight::is_tight;
use pg_cnf::Cnf;
use std::alloc::{AllocError, Global};
use std::marker::Model;

/// The clauses that are held, by their numbers from 1 on, and whether the empty clause was among those added.
#[derive(Drop)]
pub struct Checker {
    variables: u32,
    clauses: Store,
    closed: bool,
    literals: Marks,
    standing: Marks,
    numbers: Marks,
    hung: Hung,
}

impl Model for Checker {
    ghost use Rattle.std.specs.Prelude.{ℕ};
    ghost use Rattle.pg_proof.specs.State.{State};

    ghost Value = { State };

    ghost use Rattle.pg_proof.specs.Kept.{IsKept, state_of};

    ghost view = { λ c. state_of c.variables c.clauses c.closed };

    ghost invariant = { λ c. IsKept c.variables c.clauses c.literals c.standing c.numbers c.hung.heads.items c.hung.links.items c.hung.made };
}

impl Checker {
    /// A checker of a question: its clauses are held, in order, under the numbers from 1 on. Steps may use the variables up to the greatest
    /// that stands in one of them. The clauses are copied.
    pub fn new(alloc: Global, cnf: &Cnf) -> Result<Checker, AllocError>
        ensures state { IfOk result (λ checker. checker ≡ begun cnf.now.clauses) }
        ensures sound { IfOk result (λ checker. IsSound cnf.now.clauses checker) }
    {
        let clauses = copies(alloc, cnf.clauses.as_slice())?;
        let variables = greatest_variable(cnf.clauses.as_slice());
        let places = 2 * variables as usize + 2;
        let literals = Marks::new(alloc, places)?;
        let standing = Marks::new(alloc, places)?;
        let numbers = Marks::new(alloc, clauses.len())?;
        let hung = no_lists(alloc, places, clauses.len())?;
        Ok(Checker {
            variables,
            clauses,
            closed: false,
            literals,
            standing,
            numbers,
            hung,
        })
    }

    /// How many clauses have numbers, also ones that were taken away: the number of the last.
    pub fn numbered(&self) -> usize
        ensures { result ≡ length self.now.held }
    {
        self.clauses.len()
    }

    /// Takes a step, if it is valid: `Ok` has the number of its clause, which is held from then on. A refusal is the first
    /// fault of the step, by the order in which it is read: `UnknownLit` for its literals, then `UnknownHint` or `NotUnit`
    /// for the first hint at fault, and `NoConflict` where no hint is. `Memory` comes to a valid step where memory runs out.
    /// After a refusal all is as it was.
    ///
    /// It costs the length of the step and of its hints' clauses, whatever the number of clauses held.
    pub fn add(&mut self, step: &Step) -> Result<u32, ProofFault>
        requires room { length self.old.held + 1 < 2 ^ 32 }
        ensures judged { fault_of self.old.variables self.old.held step.now ≡ told result }
        ensures number { IfOk result (λ number. number ≡ length self.old.held + 1) }
        ensures added { OnOk result (self.new ≡ with_clause self.old step.now.lits) }
        ensures kept { OnErr result (self.new ≡ self.old) }
        ensures sound { (question : List (List ℤ)) → IsSound question self.old → IsSound question self.new }
    {
        if let Some(fault) = fault_of(&mut self.literals, self.variables, &self.clauses, step) {
            return Err(fault);
        }
        let number = self.clauses.len() as u32 + 1;
        match make_room(&mut self.numbers, self.clauses.len()) {
            Ok(()) => {}
            Err(_) => return Err(ProofFault::Memory),
        }
        let literals = step.lits.as_slice();
        match hold(&mut self.clauses, &mut self.hung, literals) {
            Ok(()) => {}
            Err(_) => return Err(ProofFault::Memory),
        }
        self.closed = closes(self.closed, literals);
        Ok(number)
    }

    /// Takes the clauses of these numbers away, which takes no memory; what they leave is freed as others come. `UnknownClause`, the only fault, comes
    /// exactly where one of the numbers is that of no clause held, or is there a second time; then all is as it was.
    ///
    /// It costs the length of the list.
    pub fn remove(&mut self, numbers: &[u32]) -> Result<(), ProofFault>
        ensures removed { OnOk result (after_removal self.old numbers.now ≡ Some self.new) }
        ensures fault { IfErr result (λ fault. (fault ≡ ProofFault.UnknownClause) × (after_removal self.old numbers.now ≡ None)) }
        ensures kept { OnErr result (self.new ≡ self.old) }
        ensures sound { (question : List (List ℤ)) → IsSound question self.old → IsSound question self.new }
    {
        if !are_held(&mut self.numbers, &self.clauses, numbers) {
            return Err(ProofFault::UnknownClause);
        }
        take_away(&mut self.clauses, numbers);
        Ok(())
    }

    /// Takes an act: its step is added, or its clauses are taken away. A refusal is the fault that `add` or `remove` tells of it
    /// (`judged`); `Memory` comes where memory runs out at a valid step. After a refusal all is as it was.
    pub fn apply(&mut self, act: &Act) -> Result<(), ProofFault>
        requires { length self.old.held + 1 < 2 ^ 32 }
        ensures judged { act_fault self.old act.now ≡ told result }
        ensures applied { OnOk result (after_act self.old act.now ≡ Some self.new) }
        ensures refused { IfErr result (λ fault. fault ≢ ProofFault.Memory → after_act self.old act.now ≡ None) }
        ensures kept { OnErr result (self.new ≡ self.old) }
        ensures few { length self.new.held ≤ length self.old.held + 1 }
        ensures sound { (question : List (List ℤ)) → IsSound question self.old → IsSound question self.new }
    {
        let step = match act {
            Act::Remove(numbers) => return self.remove(numbers.as_slice()),
            Act::Add(step) => step,
        };
        match self.add(step) {
            Ok(_) => Ok(()),
            Err(fault) => Err(fault),
        }
    }

    /// Whether a step is tight: valid, and the resolvent of its hints' clauses with nothing added. So each of its literals
    /// stands in the clause of a hint, and each literal that a hint sets stands negated in that of a later hint. A step that
    /// was taken stays so while the clauses of its hints are held.
    ///
    /// It takes no memory, and costs the length of the step and of its hints' clauses.
    pub fn tight(&mut self, step: &Step) -> bool
        ensures tight { result ≡ is_tight self.old.variables self.old.held step.now }
        ensures kept { self.new ≡ self.old }
    {
        is_tight(
            &mut self.literals,
            &mut self.standing,
            self.variables,
            &self.clauses,
            step,
        )
    }

    /// Whether some clause held has no literal but these, so that a clause of these says no more than it does.
    ///
    /// It takes no memory, and walks the clauses that hang at these literals, not all that are held; the first call hangs them.
    pub fn covered(&mut self, literals: &[i32]) -> bool
        ensures covered { result ≡ is_covered self.old.held literals.now }
        ensures kept { self.new ≡ self.old }
    {
        make_lists(&mut self.hung, &self.clauses);
        is_covered(&mut self.literals, &self.clauses, &self.hung, literals)
    }

    /// Whether the empty clause was added: then no assignment makes all clauses of the question true.
    pub fn closed(&self) -> bool
        ensures { result ≡ self.now.closed }
    {
        self.closed
    }
}

/// Whether the empty clause was added, once a clause of these literals is.
pub fn closes(closed: bool, literals: &[i32]) -> bool
    ensures { result ≡ closed || is_empty literals.now }
{
    if closed {
        return true;
    }
    match literals {
        [] => true,
        [_, ..] => false,
    }
}
