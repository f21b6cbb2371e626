//! The steps of a search for an assignment: literals are assigned one by one, and what follows from them is set.

ghost use Rattle.std.specs.Prelude.{◌≡◌, ◌<◌, length, true, [], IfOk, OnOk};
ghost use Rattle.pg_watch.specs.Trail.{IsQuiet};
ghost use Rattle.pg_watch.specs.Fixes.{IsEnd, is_quiet};
ghost use Rattle.pg_sat_guide.specs.Free.{IsFree};
ghost use Rattle.pg_sat.specs.Solving.{IsSolving};

use pg_cnf::Cnf;
use pg_proof::Step;
use pg_watch::{Fix, Watches};
use std::alloc::AllocError;

/// Sets what follows from a formula alone, before anything is assigned.
pub fn start(cnf: &Cnf, watches: &mut Watches) -> Result<Fix, AllocError>
    requires clauses { watches.old.clauses ≡ cnf.now.clauses }
    requires variables { watches.old.trail.variables ≡ cnf.now.variables }
    requires reasons { watches.old.trail.reasons ≡ [] }
    ensures solving { OnOk result (IsSolving cnf.now.clauses cnf.now.variables watches.new.clauses watches.new.trail []) }
    ensures end { IfOk result (IsEnd watches.new.clauses watches.new.trail.literals) }
    ensures quiet { IfOk result (λ fix. watches.new.quiet ≡ is_quiet fix) }
{
    watches.settle()
}

/// Assigns a literal that is unset, where nothing is left to propagate, and sets what follows.
pub fn advance(
    cnf: &Cnf,
    watches: &mut Watches,
    steps: &[Step],
    literal: i32,
) -> Result<Fix, AllocError>
    requires solving { IsSolving cnf.now.clauses cnf.now.variables watches.old.clauses watches.old.trail steps.now }
    requires quiet { watches.old.quiet ≡ true }
    requires nothing_left { IsQuiet watches.old.clauses watches.old.trail.literals }
    requires free { IsFree cnf.now.variables watches.old.trail.literals literal }
    ensures solving { OnOk result (IsSolving cnf.now.clauses cnf.now.variables watches.new.clauses watches.new.trail steps.now) }
    ensures end { IfOk result (IsEnd watches.new.clauses watches.new.trail.literals) }
    ensures quiet { IfOk result (λ fix. watches.new.quiet ≡ is_quiet fix) }
    ensures longer { OnOk result (length watches.old.trail.literals < length watches.new.trail.literals) }
{
    let _trail = watches.trail();
    watches.assign(literal)
}
