//! Clauses, one after another in one array.
//!
//! A clause is where its literals begin and end there, so that to look through it is to read one run of memory. Clauses are
//! added at the end and never taken away. Contracts see the list of the clauses, each the list of its literals.

ghost use Rattle.std.specs.Prelude.{◌≡◌, ◌<◌, ◌≤◌, ◌++◌, ◌∷◌, [], length, OnOk, OnErr, slice_index_or};
ghost use Rattle.std.specs.List.{slice_range};

use std::alloc::{AllocError, Global};
use std::marker::Model;

/// Where a clause begins and ends.
#[derive(Clone, Copy)]
struct Span {
    start: usize,
    end: usize,
}

/// Clauses, in the order in which they were added.
#[derive(Drop)]
pub struct Arena {
    literals: Vec<i32>,
    spans: Vec<Span>,
}

impl Model for Arena {
    ghost use Rattle.std.specs.Prelude.{ℤ, List, length};

    ghost Value = { List (List ℤ) };

    ghost use Rattle.pg_watch.specs.Spans.{clauses_in, AreSpans};

    ghost view = { λ a. clauses_in a.literals.items a.spans.items };

    ghost invariant = { λ a. AreSpans (length a.literals.items) a.spans.items };
}

impl Arena {
    /// No clause. It takes no memory.
    pub fn new(alloc: Global) -> Arena
        ensures { result ≡ [] }
    {
        Arena {
            literals: Vec::new(alloc),
            spans: Vec::new(alloc),
        }
    }

    /// How many clauses there are.
    pub fn len(&self) -> usize
        ensures { result ≡ length self.now }
    {
        self.spans.len()
    }

    /// The literals of the clause at a place, counted from 0.
    pub fn clause(&self, place: usize) -> &[i32]
        requires { place < length self.now }
        ensures { result.now ≡ slice_index_or self.now place [] }
    {
        let span = self.spans[place];
        part(self.literals.as_slice(), span)
    }

    /// One more clause, at the end. The error is out of memory, and the clauses stay.
    pub fn push(&mut self, clause: &[i32]) -> Result<(), AllocError>
        ensures ok { OnOk result (self.new ≡ self.old ++ clause.now ∷ []) }
        ensures err { OnErr result (self.new ≡ self.old) }
    {
        self.spans.reserve(1)?;
        let start = self.literals.len();
        self.literals.extend_from_slice(clause)?;
        let end = self.literals.len();
        match self.spans.push(Span { start, end }) {
            Ok(()) => Ok(()),
            Err(_) => Err(AllocError),
        }
    }
}

/// The literals of a span.
fn part(literals: &[i32], span: Span) -> &[i32]
    requires start { span.start ≤ span.end }
    requires end { span.end ≤ length literals.now }
    ensures { result.now ≡ slice_range literals.now span.start span.end }
{
    &literals[span.start..span.end]
}
