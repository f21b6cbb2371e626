//! Clauses, a trail, and what follows: unit propagation with two watched literals a clause.
//!
//! A solver assigns a literal at a time, learns a clause where one is falsified, and undoes what it assigned: `assign`, `add`,
//! `settle` and `undo` are its calls. After each the trail is one whose reasons are right, and where `settle` or `assign` is
//! quiet no clause is left from which anything follows. That is what contracts say, in `specs/Trail.antt`; how it is found
//! with no walk over all clauses is kept inside, as `specs/Watched.antt` says.
//!
//! The scheme is that of Chaff (Moskewicz and others, DAC 2001): a clause is looked at only when one of two literals that it
//! watches gets false. An undoing moves no watch. That it need not rests on levels: a watched literal that is false has beside
//! it one that is true and that no undoing frees before it. Where that could fail, as for a clause that was just added, the
//! clause is fresh: each settling looks at it, until it may leave.

ghost use Rattle.std.specs.Prelude.{◌≡◌, ◌+◌, ◌-◌, ◌<◌, ◌≤◌, ◌^◌, ◌++◌, ◌∷◌, [], length, true, false, None, IfOk, OnOk, OnErr, slice_index_or};
ghost use Rattle.pg_cnf.specs.Literals.{IsClause, IsLiteral};
ghost use Rattle.pg_watch.specs.Watching.{no_pair};

use crate::arena::Arena;
use crate::assignment::Assignment;
use crate::attach::release_each;
use crate::fix::Fix;
use crate::index::{Index, Pair};
use crate::lists::Lists;
use crate::settle::propagate;
use pg_cnf::{Clause, Cnf};
use std::alloc::{AllocError, Global};
use std::marker::Model;

/// Clauses, and the literals that are set, with what follows from them. Contracts see the clauses, the trail, and whether
/// nothing is left to propagate.
#[derive(Drop)]
pub struct Watches {
    clauses: Arena,
    trail: Assignment,
    index: Index,
    fresh: Vec<u32>,
    head: usize,
    quiet: bool,
}

impl Model for Watches {
    ghost use Rattle.pg_watch.specs.State.{State};

    ghost Value = { State };

    ghost use Rattle.pg_watch.specs.Watched.{IsWatched};

    ghost view = { λ w. record { clauses = w.clauses; trail = w.trail; quiet = w.quiet } };

    ghost invariant = { λ w. IsWatched w.clauses w.trail w.quiet w.fresh.items w.index.lists w.index.pairs.items w.head };
}

impl Watches {
    ghost use Rattle.std.specs.Prelude.{◌≡◌, ◌+◌, ◌-◌, ◌<◌, ◌≤◌, ◌^◌, ◌++◌, ◌∷◌, [], length, true, false, None, IfOk, OnOk, OnErr, slice_index_or, IsTrue, ◌↔◌};
    ghost use Rattle.pg_cnf.specs.Literals.{IsClause, IsLiteral};
    ghost use Rattle.pg_watch.specs.Trail.{value_of, IsTrail, Extends, IsQuiet, cut, pushed, clause_at, IsNumber};
    ghost use Rattle.pg_watch.specs.Fixes.{IsEnd, is_quiet};

    /// Holds the clauses of a formula, and sets nothing.
    pub fn new(alloc: Global, cnf: &Cnf) -> Result<Watches, AllocError>
        ensures clauses { IfOk result (λ watches. watches.clauses ≡ cnf.now.clauses) }
        ensures variables { IfOk result (λ watches. watches.trail.variables ≡ cnf.now.variables) }
        ensures trail { IfOk result (λ watches. watches.trail.literals ≡ []) }
        ensures reasons { IfOk result (λ watches. watches.trail.reasons ≡ []) }
        ensures quiet { IfOk result (λ watches. watches.quiet ≡ false) }
    {
        let mut watches = Watches::empty(alloc, cnf.variables)?;
        for clause in cnf.clauses.as_slice() {
            if let Err(error) = watches.add(clause) {
                return Err(error);
            }
        }
        Ok(watches)
    }

    /// No clause, over so many variables.
    fn empty(alloc: Global, variables: u32) -> Result<Watches, AllocError>
        requires { variables < 2 ^ 31 }
        ensures clauses { IfOk result (λ watches. watches.clauses ≡ []) }
        ensures variables { IfOk result (λ watches. watches.trail.variables ≡ variables) }
        ensures trail { IfOk result (λ watches. watches.trail.literals ≡ []) }
        ensures reasons { IfOk result (λ watches. watches.trail.reasons ≡ []) }
        ensures quiet { IfOk result (λ watches. watches.quiet ≡ false) }
    {
        let lists = 2 * variables as usize + 2;
        Ok(Watches {
            clauses: Arena::new(alloc),
            trail: Assignment::new(alloc, variables)?,
            index: Index {
                pairs: Vec::new(alloc),
                lists: Lists::new(alloc, lists)?,
            },
            fresh: Vec::new(alloc),
            head: 0,
            quiet: false,
        })
    }

    /// One more clause, over the variables that there are, and sets nothing. There are fewer than 2^32 - 1 clauses with it.
    /// The error is out of memory, and the clauses stay.
    pub fn add(&mut self, clause: &Clause) -> Result<(), AllocError>
        requires room { length self.old.clauses + 1 < 2 ^ 32 - 1 }
        requires clause { IsClause self.old.trail.variables clause.now }
        ensures clauses { OnOk result (self.new.clauses ≡ self.old.clauses ++ clause.now ∷ []) }
        ensures err { OnErr result (self.new.clauses ≡ self.old.clauses) }
        ensures trail { self.new.trail ≡ self.old.trail }
        ensures quiet { self.new.quiet ≡ false }
    {
        self.quiet = false;
        let place = self.clauses.len() as u32;
        register(&mut self.fresh, &mut self.index.pairs, place)?;
        match self.clauses.push(clause.lits()) {
            Ok(()) => Ok(()),
            Err(error) => {
                let _ = self.fresh.pop();
                let _ = self.index.pairs.pop();
                Err(error)
            }
        }
    }

    /// Sets what follows from what is set, clause by clause, until no clause is unit, or one is falsified. It takes time in the
    /// lists of the clauses that watch what got false, and in the fresh clauses. The error is out of memory; then the trail
    /// is as it was.
    pub fn settle(&mut self) -> Result<Fix, AllocError>
        ensures clauses { self.new.clauses ≡ self.old.clauses }
        ensures trail { OnOk result (Extends self.old.trail self.new.trail) }
        ensures end { IfOk result (IsEnd self.new.clauses self.new.trail.literals) }
        ensures quiet { IfOk result (λ fix. self.new.quiet ≡ is_quiet fix) }
        ensures err { OnErr result (self.new.trail ≡ self.old.trail) }
        ensures err_quiet { OnErr result (self.new.quiet ≡ false) }
    {
        self.release();
        self.draw()
    }

    /// Lets each fresh clause that has two literals to watch watch them, before any is looked at: a drawing looks at all that are
    /// fresh, again and again.
    fn release(&mut self)
        ensures clauses { self.new.clauses ≡ self.old.clauses }
        ensures trail { self.new.trail ≡ self.old.trail }
    {
        release_each(&self.clauses, &self.trail, &mut self.index, &mut self.fresh);
    }

    /// Draws all consequences, as `settle` says.
    fn draw(&mut self) -> Result<Fix, AllocError>
        ensures clauses { self.new.clauses ≡ self.old.clauses }
        ensures trail { OnOk result (Extends self.old.trail self.new.trail) }
        ensures end { IfOk result (IsEnd self.new.clauses self.new.trail.literals) }
        ensures quiet { IfOk result (λ fix. self.new.quiet ≡ is_quiet fix) }
        ensures err { OnErr result (self.new.trail ≡ self.old.trail) }
        ensures err_quiet { OnErr result (self.new.quiet ≡ false) }
    {
        self.quiet = false;
        let len = self.trail.len();
        let head = self.head;
        match propagate(
            &self.clauses,
            &mut self.trail,
            &mut self.index,
            self.fresh.as_slice(),
            &mut self.head,
        ) {
            Ok(Fix::Quiet) => {
                self.quiet = true;
                release_each(&self.clauses, &self.trail, &mut self.index, &mut self.fresh);
                Ok(Fix::Quiet)
            }
            Ok(Fix::Conflict(number)) => {
                release_each(&self.clauses, &self.trail, &mut self.index, &mut self.fresh);
                Ok(Fix::Conflict(number))
            }
            Err(error) => {
                self.trail.cut(len);
                self.head = head;
                Err(error)
            }
        }
    }

    /// Sets a literal that is unset, without a reason, and then what follows. Before it nothing is left to propagate. The
    /// error is out of memory; then the trail is as it was.
    pub fn assign(&mut self, lit: i32) -> Result<Fix, AllocError>
        requires quiet { self.old.quiet ≡ true }
        requires literal { IsLiteral self.old.trail.variables lit }
        requires unset { value_of self.old.trail.literals lit ≡ None }
        ensures clauses { self.new.clauses ≡ self.old.clauses }
        ensures trail { OnOk result (Extends (pushed self.old.trail lit None) self.new.trail) }
        ensures end { IfOk result (IsEnd self.new.clauses self.new.trail.literals) }
        ensures quiet { IfOk result (λ fix. self.new.quiet ≡ is_quiet fix) }
        ensures err { OnErr result (self.new.trail ≡ self.old.trail) }
        ensures err_quiet { OnErr result (self.new.quiet ≡ false) }
    {
        let len = self.trail.len();
        self.decide(lit)?;
        match self.settle() {
            Ok(fix) => Ok(fix),
            Err(error) => {
                self.undo(len);
                Err(error)
            }
        }
    }

    /// Sets a literal that is unset, without a reason, and nothing more.
    fn decide(&mut self, lit: i32) -> Result<(), AllocError>
        requires quiet { self.old.quiet ≡ true }
        requires literal { IsLiteral self.old.trail.variables lit }
        requires unset { value_of self.old.trail.literals lit ≡ None }
        ensures clauses { self.new.clauses ≡ self.old.clauses }
        ensures trail { OnOk result (self.new.trail ≡ pushed self.old.trail lit None) }
        ensures err { OnErr result (self.new.trail ≡ self.old.trail) }
        ensures quiet { self.new.quiet ≡ false }
    {
        self.quiet = false;
        self.trail.push(lit, None)
    }

    /// Cuts the trail to its first `len` literals, at the place of one that was assigned. It takes no memory.
    pub fn undo(&mut self, len: usize)
        requires within { len < length self.old.trail.literals }
        requires assigned { slice_index_or self.old.trail.reasons len None ≡ None }
        ensures clauses { self.new.clauses ≡ self.old.clauses }
        ensures trail { self.new.trail ≡ cut self.old.trail len }
        ensures quiet { self.new.quiet ≡ false }
    {
        self.quiet = false;
        self.trail.cut(len);
        self.head = len;
    }

    /// The literals that are set, in order. No variable is there twice, and each reason was unit where it was set.
    pub fn trail(&self) -> &[i32]
        ensures literals { result.now ≡ self.now.trail.literals }
        ensures right { IsTrail self.now.clauses self.now.trail }
    {
        self.trail.literals()
    }

    /// Why the literal at a place of the trail is set: the number of the clause that was unit in it under those before, or
    /// none where it was assigned.
    pub fn reason(&self, place: usize) -> Option<u32>
        requires { place < length self.now.trail.literals }
        ensures { result ≡ slice_index_or self.now.trail.reasons place None }
    {
        self.trail.reason(place)
    }

    /// The value of a literal of one of the variables, in constant time: none where it is unset.
    pub fn value(&self, lit: i32) -> Option<bool>
        requires { IsLiteral self.now.trail.variables lit }
        ensures { result ≡ value_of self.now.trail.literals lit }
    {
        self.trail.value(lit)
    }

    /// The literals of the clause with a number, which counts from 1.
    pub fn clause(&self, number: u32) -> &[i32]
        requires { IsNumber self.now.clauses number }
        ensures { result.now ≡ clause_at self.now.clauses number }
    {
        self.clauses.clause(number as usize - 1)
    }

    /// Whether nothing is left to propagate.
    pub fn is_quiet(&self) -> bool
        ensures quiet { result ≡ self.now.quiet }
        ensures right { self.now.quiet ≡ true → IsQuiet self.now.clauses self.now.trail.literals }
    {
        self.quiet
    }

    /// How many variables there are.
    pub fn variables(&self) -> u32
        ensures { result ≡ self.now.trail.variables }
    {
        self.trail.variables()
    }

    /// How many clauses there are.
    pub fn len(&self) -> usize
        ensures { result ≡ length self.now.clauses }
    {
        self.clauses.len()
    }

    /// Whether there is no clause.
    pub fn is_empty(&self) -> bool
        ensures { IsTrue result ↔ (self.now.clauses ≡ []) }
    {
        self.clauses.len() == 0
    }
}

/// A place among the fresh ones, and an empty pair beside it. The error is out of memory, and both stay.
fn register(fresh: &mut Vec<u32>, pairs: &mut Vec<Pair>, place: u32) -> Result<(), AllocError>
    ensures fresh { OnOk result (fresh.new.items ≡ fresh.old.items ++ place ∷ []) }
    ensures pairs { OnOk result (pairs.new.items ≡ pairs.old.items ++ no_pair ∷ []) }
    ensures same_fresh { OnErr result (fresh.new.items ≡ fresh.old.items) }
    ensures same_pairs { OnErr result (pairs.new.items ≡ pairs.old.items) }
{
    fresh.reserve(1)?;
    pairs.push(Pair {
        first: 0,
        second: 0,
    })?;
    match fresh.push(place) {
        Ok(()) => Ok(()),
        Err(_) => {
            let _ = pairs.pop();
            Err(AllocError)
        }
    }
}
