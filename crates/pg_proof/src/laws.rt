//! What the definitions of a refutation say: laws, which do nothing when they run.

ghost use Rattle.pg_proof.specs.Sound.{ValidStepsFollow};
ghost use Rattle.pg_proof.specs.New.{NewStepsAreUncovered};

/// Where a step is valid, every assignment that makes all clauses held true makes the clause of the step true.
pub fn valid_steps_follow()
    ensures { ValidStepsFollow }
{}

/// No clause is part of what is new to it: unit propagation sees a clause that is.
pub fn new_steps_are_uncovered()
    ensures { NewStepsAreUncovered }
{}
