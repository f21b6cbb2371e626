//! Fresh clauses that leave the fresh ones, so that they need no look at each settling.
//!
//! A clause with a literal that is true though none was assigned is true for good, and needs nothing. Another gets two
//! literals to watch.
//! A literal may be watched that is not false, or that got false with the last literal that was assigned or after it: an
//! undoing frees it then. If it is false, another literal of the clause has to be true. A clause for which there are no two
//! stays fresh, and so does one for whose watches there is no memory.

ghost use Rattle.std.specs.Prelude.{◌≡◌, ◌≢◌, ℕ, ◌<◌, ◌≤◌, length, take, Contains, Some, None, false, true, IfSome, IsTrue, Bool, List};
ghost use Rattle.pg_watch.specs.declared.lists.Watch.{Watch};
ghost use Rattle.pg_watch.specs.declared.index.Pair.{Pair};
ghost use Rattle.pg_cnf.specs.Literals.{IsClause, AreLiterals, AreClauses};
ghost use Rattle.pg_watch.specs.Trail.{value_of};
ghost use Rattle.pg_watch.specs.Fixes.{ArePlaces};
ghost use Rattle.pg_watch.specs.Watching.{literals_at, pair_at, IsIndex, IsPair, IsAttached};
ghost use Rattle.pg_watch.specs.Joins.{IsChoice, KeepsOthers, IsJoined};
ghost use Rattle.pg_watch.specs.Watched.{IsWatched};
ghost use Rattle.pg_watch.specs.Assigned.{IsAssigned};

use crate::arena::Arena;
use crate::assignment::{Assignment, place_of};
use crate::index::{Index, Pair};
use crate::lists::Watch;
use crate::look::{has_true, open_literal};

/// Attaches each fresh clause that has two literals to watch, and takes it from the fresh ones. The time is that of looking at
/// their literals, and at the trail from the last assigned literal on.
fn attach_each(clauses: &Arena, trail: &Assignment, index: &mut Index, fresh: &mut Vec<u32>)
    requires index { IsIndex clauses.now trail.now index.old.lists index.old.pairs.items }
    requires places { ArePlaces (length clauses.now) fresh.old.items }
    ensures { (q : Bool) (h : ℕ) → IsWatched clauses.now trail.now q fresh.old.items index.old.lists index.old.pairs.items h
        → IsWatched clauses.now trail.now q fresh.new.items index.new.lists index.new.pairs.items h }
{
    if fresh.is_empty() {
        return;
    }
    let low = trail.last_assigned();
    let mut at = 0;
    while at < fresh.len() {
        let place = fresh[at];
        if attach(clauses, trail, index, place, low) {
            let _ = fresh.swap_remove(at);
        } else {
            at += 1;
        }
    }
}

/// Takes from the fresh clauses those that need no look at each settling.
pub fn release_each(clauses: &Arena, trail: &Assignment, index: &mut Index, fresh: &mut Vec<u32>)
    requires index { IsIndex clauses.now trail.now index.old.lists index.old.pairs.items }
    requires places { ArePlaces (length clauses.now) fresh.old.items }
    ensures { (q : Bool) (h : ℕ) → IsWatched clauses.now trail.now q fresh.old.items index.old.lists index.old.pairs.items h
        → IsWatched clauses.now trail.now q fresh.new.items index.new.lists index.new.pairs.items h }
{
    retire_each(clauses, trail, fresh);
    attach_each(clauses, trail, index, fresh);
}

/// Takes from the fresh clauses those that are true for good: those with a literal that is true, where none was assigned. It
/// takes time in their literals.
fn retire_each(clauses: &Arena, trail: &Assignment, fresh: &mut Vec<u32>)
    requires right { AreClauses trail.now.variables clauses.now }
    requires places { ArePlaces (length clauses.now) fresh.old.items }
    ensures places { ArePlaces (length clauses.now) fresh.new.items }
    ensures watched { (q : Bool) (ls : List (List Watch)) (ps : List Pair) (h : ℕ) → IsWatched clauses.now trail.now q fresh.old.items ls ps h
        → IsWatched clauses.now trail.now q fresh.new.items ls ps h }
{
    if fresh.is_empty() || trail.has_assigned() {
        return;
    }
    let mut at = 0;
    while at < fresh.len() {
        let place = fresh[at];
        if has_true(trail, clauses.clause(place as usize)) {
            let _ = fresh.swap_remove(at);
        } else {
            at += 1;
        }
    }
}

/// Lets the clause at a place watch two literals, and says whether there are two that may be.
fn attach(clauses: &Arena, trail: &Assignment, index: &mut Index, place: u32, low: usize) -> bool
    requires index { IsIndex clauses.now trail.now index.old.lists index.old.pairs.items }
    requires place { place < length clauses.now }
    ensures index { IsIndex clauses.now trail.now index.new.lists index.new.pairs.items }
    ensures others { KeepsOthers clauses.now index.old.lists index.new.lists index.old.pairs.items index.new.pairs.items place }
    ensures joined { IsTrue result → IsJoined clauses.now trail.now.literals index.new.lists index.new.pairs.items place low }
{
    match choose(trail, clauses.clause(place as usize), low) {
        Some(pair) => join(clauses, trail, index, place, pair),
        None => false,
    }
}

/// Lets a clause watch two of its literals, and says whether there is memory for it.
fn join(clauses: &Arena, trail: &Assignment, index: &mut Index, place: u32, pair: Pair) -> bool
    requires index { IsIndex clauses.now trail.now index.old.lists index.old.pairs.items }
    requires place { place < length clauses.now }
    requires pair { IsPair (literals_at clauses.now place) pair }
    ensures index { IsIndex clauses.now trail.now index.new.lists index.new.pairs.items }
    ensures others { KeepsOthers clauses.now index.old.lists index.new.lists index.old.pairs.items index.new.pairs.items place }
    ensures attached { IsTrue result → IsAttached clauses.now index.new.lists index.new.pairs.items place }
    ensures pair { IsTrue result → pair_at index.new.pairs.items place ≡ pair }
{
    let watch = Watch {
        clause: place,
        blocker: pair.second,
    };
    match index.lists.push(place_of(pair.first), watch) {
        Ok(()) => match index.watch(place, pair.first, pair.second) {
            Ok(()) => true,
            Err(_) => false,
        },
        Err(_) => false,
    }
}

/// Two literals of a clause that may be watched.
fn choose(trail: &Assignment, clause: &[i32], low: usize) -> Option<Pair>
    requires { AreLiterals trail.now.variables clause.now }
    ensures { IfSome result (IsChoice trail.now.literals clause.now low) }
{
    match open_literal(trail, clause, 0) {
        None => None,
        Some(first) => match open_literal(trail, clause, first) {
            Some(second) => Some(Pair { first, second }),
            None => match trail.value(first) {
                Some(true) => match late_literal(trail, clause, first, low) {
                    Some(second) => Some(Pair { first, second }),
                    None => None,
                },
                _ => None,
            },
        },
    }
}

/// The first literal of a clause, but for one, that is not set before a place of the trail.
fn late_literal(trail: &Assignment, clause: &[i32], but: i32, low: usize) -> Option<i32>
    requires { AreLiterals trail.now.variables clause.now }
    ensures there { IfSome result (λ lit. Contains clause.now lit) }
    ensures other { IfSome result (λ lit. lit ≢ but) }
    ensures late { IfSome result (λ lit. (n : ℕ) → n ≤ low → value_of (take n trail.now.literals) lit ≡ None) }
{
    for &lit in clause {
        if lit != but && trail.place(lit) >= low {
            return Some(lit);
        }
    }
    None
}
