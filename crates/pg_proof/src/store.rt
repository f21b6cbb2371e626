//! Clauses by their numbers, in one list.
//!
//! The literals of all clauses stand one after another, and each number has the place where those of its clause begin and end,
//! or none where it was taken away. So to hold a clause costs its literals and a place, and no list of its own. What clauses that
//! were taken away leave is freed once there is more of it than of all else: then what is still held is copied into a list
//! anew. That comes so seldom that each clause pays for one copy.
//!
//! Contracts see what is held as a list: the literals of each clause, or none where it was taken away.

ghost use Rattle.std.specs.Prelude.{◌≡◌, ◌-◌, ◌<◌, ◌≤◌, ◌++◌, ◌∷◌, [], ℕ, length, Some, None, slice_get, slice_set, IfOk, IfSome, OnOk, OnErr};
ghost use Rattle.std.specs.List.{slice_range};
ghost use Rattle.std.specs.Option.{option_copied, option_and_then};
ghost use Rattle.pg_proof.specs.Places.{AreWithin};
ghost use Rattle.pg_proof.specs.State.{clause_at, AreHeldWithin};
ghost use Rattle.pg_proof.specs.Spans.{length_of};

use sqlite_items::at;
use std::alloc::{AllocError, Global};
use std::marker::Model;

/// Where a clause begins and ends.
#[derive(Clone, Copy)]
struct Span {
    start: usize,
    end: usize,
}

/// The clauses that are held, by their numbers from 1 on.
#[derive(Drop)]
pub struct Store {
    literals: Vec<i32>,
    spans: Vec<Option<Span>>,
    /// How many of the literals are those of clauses that were taken away.
    spare: usize,
    alloc: Global,
}

impl Model for Store {
    ghost use Rattle.std.specs.Prelude.{ℤ, List, Option, length};

    ghost Value = { List (Option (List ℤ)) };

    ghost use Rattle.pg_proof.specs.Spans.{held_in, AreSpans};

    ghost view = { λ s. held_in s.literals.items s.spans.items };

    ghost invariant = { λ s. AreSpans (length s.literals.items) s.spans.items };
}

impl Store {
    /// No clause. It takes no memory.
    pub fn new(alloc: Global) -> Store
        ensures { result ≡ [] }
    {
        Store {
            literals: Vec::new(alloc),
            spans: Vec::new(alloc),
            spare: 0,
            alloc,
        }
    }

    /// How many clauses have numbers, also ones that were taken away.
    pub fn len(&self) -> usize
        ensures { result ≡ length self.now }
    {
        self.spans.len()
    }

    /// A clause of these literals more, at the end. The error is out of memory, and all stays.
    pub fn push(&mut self, literals: &[i32]) -> Result<(), AllocError>
        ensures ok { OnOk result (self.new ≡ self.old ++ Some literals.now ∷ []) }
        ensures err { OnErr result (self.new ≡ self.old) }
    {
        self.squeeze()?;
        self.append(literals)
    }

    /// Takes the clause with this number away, if it is held. It takes no memory.
    pub fn take(&mut self, number: u32)
        requires least { 0 < number }
        requires most { number ≤ length self.old }
        ensures { self.new ≡ slice_set self.old (number - 1) None }
    {
        let place = number as usize - 1;
        self.spare = self.spare.saturating_add(length_of(self.spans[place]));
        self.spans[place] = None;
    }

    /// Frees what clauses that were taken away leave, where that is more than all else. The clauses stay.
    fn squeeze(&mut self) -> Result<(), AllocError>
        ensures { self.new ≡ self.old }
    {
        let held = self.literals.len().saturating_sub(self.spare);
        if self.spare <= held.saturating_add(self.spans.len()) {
            return Ok(());
        }
        let made = copy_of(self.alloc, self)?;
        *self = made;
        Ok(())
    }

    /// A clause of these literals more, whatever is spare. The error is out of memory, and all stays.
    fn append(&mut self, literals: &[i32]) -> Result<(), AllocError>
        ensures ok { OnOk result (self.new ≡ self.old ++ Some literals.now ∷ []) }
        ensures err { OnErr result (self.new ≡ self.old) }
    {
        self.spans.reserve(1)?;
        let start = self.literals.len();
        self.literals.extend_from_slice(literals)?;
        let end = self.literals.len();
        match self.spans.push(Some(Span { start, end })) {
            Ok(()) => Ok(()),
            Err(_) => Err(AllocError),
        }
    }

    /// A clause of these literals more, or a number whose clause is not held. The error is out of memory, and all stays.
    fn append_held(&mut self, clause: Option<&[i32]>) -> Result<(), AllocError>
        ensures ok { OnOk result (self.new ≡ self.old ++ option_copied clause.entry ∷ []) }
        ensures err { OnErr result (self.new ≡ self.old) }
    {
        match clause {
            Some(literals) => self.append(literals),
            None => self.append_none(),
        }
    }

    /// A number more, whose clause is not held. The error is out of memory, and all stays.
    fn append_none(&mut self) -> Result<(), AllocError>
        ensures ok { OnOk result (self.new ≡ self.old ++ None ∷ []) }
        ensures err { OnErr result (self.new ≡ self.old) }
    {
        self.spans.push(None)?;
        Ok(())
    }
}

/// How many literals a span has.
fn length_of(span: Option<Span>) -> usize
    ensures { result ≡ length_of span }
{
    match span {
        Some(span) => span.end.saturating_sub(span.start),
        None => 0,
    }
}

/// The same clauses, in a list that has no others.
fn copy_of(alloc: Global, store: &Store) -> Result<Store, AllocError>
    ensures { IfOk result (λ made. made ≡ store.now) }
{
    let mut made = Store::new(alloc);
    for i in 0..store.len() {
        made.append_held(held_at(store, i))?;
    }
    Ok(made)
}

/// The literals of the clause at a place, counted from 0, if there is one and it is held.
fn held_at(store: &Store, place: usize) -> Option<&[i32]>
    ensures literals { option_copied result ≡ option_and_then (λ c. c) (slice_get store.now place) }
    ensures within { (places : ℕ) → AreHeldWithin places store.now → IfSome result (λ c. AreWithin places c.now) }
{
    match at(store.spans.as_slice(), place) {
        None => None,
        Some(None) => None,
        Some(Some(span)) => Some(part(store.literals.as_slice(), *span)),
    }
}

/// The literals of a span.
fn part(literals: &[i32], span: Span) -> &[i32]
    requires start { span.start ≤ span.end }
    requires end { span.end ≤ length literals.now }
    ensures { result.now ≡ slice_range literals.now span.start span.end }
{
    &literals[span.start..span.end]
}

/// The literals of the clause with a number, if it is held.
pub fn clause_at(store: &Store, number: u32) -> Option<&[i32]>
    ensures clause { option_copied result ≡ clause_at store.now number }
    ensures within { (places : ℕ) → AreHeldWithin places store.now → IfSome result (λ c. AreWithin places c.now) }
{
    if number == 0 {
        return None;
    }
    held_at(store, number as usize - 1)
}
