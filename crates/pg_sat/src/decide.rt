//! What is assigned next, and what an assignment is when all is set.

ghost use Rattle.std.specs.Prelude.{◌≡◌, ◌+◌, ◌<◌, ◌≤◌, IfOk, IfSome, MatchOption, pos, true};
ghost use Rattle.pg_cnf.specs.Literals.{AreClauses};
ghost use Rattle.pg_cnf.specs.Truth.{clauses_true};
ghost use Rattle.pg_watch.specs.Trail.{IsQuiet, value_of};
ghost use Rattle.pg_sat_guide.specs.Over.{IsOver};
ghost use Rattle.pg_sat_guide.specs.Free.{IsFree};
ghost use Rattle.pg_sat.specs.Models.{AreAllSet, IsRead, is_true};

use pg_sat_guide::{Guide, literal_of, negation};
use pg_watch::Watches;
use std::alloc::{AllocError, Global};

/// A literal that is unset, where one is: that of the guide, if it has one.
pub fn choose(watches: &Watches, guide: &mut Guide, variables: u32) -> Option<i32>
    requires over { IsOver variables watches.now.clauses watches.now.trail }
    ensures { MatchOption result (AreAllSet variables watches.now.trail.literals) (IsFree variables watches.now.trail.literals) }
{
    match guide.next(watches, variables) {
        Some(literal) => Some(literal),
        None => next_unset(watches, variables),
    }
}

/// The negation of the first variable that is unset, if one is. It costs the number of variables.
#[tactic(auto, using(crate::proofs::ModelLemmas::all_set_more))]
pub fn next_unset(watches: &Watches, variables: u32) -> Option<i32>
    requires over { IsOver variables watches.now.clauses watches.now.trail }
    ensures { MatchOption result (AreAllSet variables watches.now.trail.literals) (IsFree variables watches.now.trail.literals) }
{
    for index in 0..variables {
        let literal = literal_of(index + 1);
        match watches.value(literal) {
            Some(_) => continue,
            None => return Some(negation(literal)),
        }
    }
    None
}

/// Whether a variable is set true.
fn is_set(watches: &Watches, variable: u32) -> bool
    requires over { IsOver watches.now.trail.variables watches.now.clauses watches.now.trail }
    requires positive { 0 < variable }
    requires there { variable ≤ watches.now.trail.variables }
    ensures { result ≡ is_true (value_of watches.now.trail.literals (pos variable)) }
{
    match watches.value(literal_of(variable)) {
        Some(value) => value,
        None => false,
    }
}

/// The assignment that a trail is on which each variable is set, and nothing is left to propagate: it makes all clauses true. Place v - 1
/// has the value of variable v.
pub fn assignment_of(
    alloc: Global,
    watches: &Watches,
    variables: u32,
) -> Result<Vec<bool>, AllocError>
    requires over { IsOver variables watches.now.clauses watches.now.trail }
    requires quiet { IsQuiet watches.now.clauses watches.now.trail.literals }
    requires set { AreAllSet variables watches.now.trail.literals }
    ensures read { IfOk result (λ assignment. IsRead variables watches.now.trail.literals assignment.items) }
    ensures holds { IfOk result (λ assignment. clauses_true assignment.items watches.now.clauses ≡ true) }
{
    let mut assignment = Vec::new(alloc);
    for index in 0..variables {
        assignment.push(is_set(watches, index + 1))?;
    }
    Ok(assignment)
}
