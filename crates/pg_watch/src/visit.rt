//! One clause that watches a literal which got false.
//!
//! `walk` calls it for each clause of a list. The blocker is read first, since that is one read and mostly enough; then the
//! other literal that the clause watches; and only then are its literals looked through for one that is not false. Where there
//! is none, the other one follows, or the clause is falsified.

ghost use Rattle.std.specs.Prelude.{◌≡◌, ◌≢◌, ◌+◌, ◌-◌, ◌<◌, ◌^◌, length, Contains, Some, false, true, IfOk, IfSome, IfNone};
ghost use Rattle.pg_cnf.specs.Literals.{IsLiteral, AreClauses};
ghost use Rattle.pg_watch.specs.Trail.{value_of, AreFalseBut, IsTrail};
ghost use Rattle.pg_watch.specs.Fixes.{Steps};
ghost use Rattle.pg_watch.specs.Watching.{literals_at, pair_at, Has, HasTrue, IsPair, IsEntry, IsIndex, Keeps};
ghost use Rattle.pg_watch.specs.Visits.{IsVisited, IsFollowed};

use crate::arena::Arena;
use crate::assignment::Assignment;
use crate::index::{Index, Pair};
use crate::lists::Watch;
use crate::look::open_literal;
use std::alloc::AllocError;

/// What comes of a visit.
#[derive(Clone, Copy)]
pub enum Visit {
    /// The clause stays in the list.
    Stays,
    /// It watches another literal, and leaves the list.
    Moved,
    /// All its literals are false.
    Falsified,
}

/// Visits a clause that stands in the list of a literal, `gone`, which has become false. Where the clause watches it, and has no
/// literal that is known to be true, it watches another one instead, or it is unit, or falsified. The error is out of memory.
pub fn visit_clause(
    clauses: &Arena,
    trail: &mut Assignment,
    index: &mut Index,
    watch: Watch,
    gone: i32,
) -> Result<Visit, AllocError>
    requires index { IsIndex clauses.now trail.old index.old.lists index.old.pairs.items }
    requires entry { IsEntry clauses.now watch }
    requires literal { IsLiteral trail.old.variables gone }
    requires gone { value_of trail.old.literals gone ≡ Some false }
    ensures keeps { Keeps clauses.now trail.old trail.new index.old.lists index.new.lists index.old.pairs.items index.new.pairs.items }
    ensures visited { IfOk result (IsVisited clauses.now trail.new.literals index.old.lists index.new.lists index.new.pairs.items gone watch.clause) }
{
    if let Some(true) = trail.value(watch.blocker) {
        return Ok(Visit::Stays);
    }
    let pair = index.pairs[watch.clause as usize];
    match other_of(pair, gone) {
        None => Ok(Visit::Stays),
        Some(other) => visit_beside(clauses, trail, index, watch.clause, gone, other),
    }
}

/// The literal of a pair that is not the given one, where that is of the pair.
fn other_of(pair: Pair, gone: i32) -> Option<i32>
    ensures none { IfNone result (Has pair gone → ⊥) }
    ensures has { IfSome result (λ other. Has pair other) }
    ensures has_gone { IfSome result (λ other. Has pair gone) }
    ensures apart { IfSome result (λ other. pair.first ≢ pair.second → other ≢ gone) }
{
    if pair.first == gone {
        Some(pair.second)
    } else if pair.second == gone {
        Some(pair.first)
    } else {
        None
    }
}

/// Visits a clause that watches `gone`, which is false, and one other literal.
fn visit_beside(
    clauses: &Arena,
    trail: &mut Assignment,
    index: &mut Index,
    place: u32,
    gone: i32,
    other: i32,
) -> Result<Visit, AllocError>
    requires index { IsIndex clauses.now trail.old index.old.lists index.old.pairs.items }
    requires place { place < length clauses.now }
    requires literal { IsLiteral trail.old.variables gone }
    requires gone { value_of trail.old.literals gone ≡ Some false }
    requires pair { IsPair (literals_at clauses.now place) (pair_at index.old.pairs.items place) }
    requires other { Has (pair_at index.old.pairs.items place) other }
    requires apart { other ≢ gone }
    ensures keeps { Keeps clauses.now trail.old trail.new index.old.lists index.new.lists index.old.pairs.items index.new.pairs.items }
    ensures visited { IfOk result (IsVisited clauses.now trail.new.literals index.old.lists index.new.lists index.new.pairs.items gone place) }
{
    if let Some(true) = trail.value(other) {
        return Ok(Visit::Stays);
    }
    match open_literal(trail, clauses.clause(place as usize), other) {
        None => follow(clauses, trail, place, other),
        Some(next) => match index.watch(place, other, next) {
            Ok(()) => Ok(Visit::Moved),
            Err(error) => Err(error),
        },
    }
}

/// A clause whose literals are false, but for one: sets that one where it is unset.
fn follow(
    clauses: &Arena,
    trail: &mut Assignment,
    place: u32,
    lit: i32,
) -> Result<Visit, AllocError>
    requires right { AreClauses trail.old.variables clauses.now }
    requires few { length clauses.now < 2 ^ 32 - 1 }
    requires trail { IsTrail clauses.now trail.old }
    requires place { place < length clauses.now }
    requires there { Contains (literals_at clauses.now place) lit }
    requires others { AreFalseBut trail.old.literals lit (literals_at clauses.now place) }
    ensures steps { Steps clauses.now trail.old trail.new }
    ensures followed { IfOk result (IsFollowed clauses.now trail.new.literals place) }
{
    match trail.value(lit) {
        Some(true) => Ok(Visit::Stays),
        Some(false) => Ok(Visit::Falsified),
        None => match trail.push(lit, Some(place + 1)) {
            Ok(()) => Ok(Visit::Stays),
            Err(error) => Err(error),
        },
    }
}
