//! The clauses of small circuits that were worked out by hand: laws, which do nothing when they run.

ghost use Rattle.pg_cnf.specs.Rows.{NeverTrue, OneAnd, OneXor, BothHold, OneDoesNotHold};

/// Clauses, and what makes them true.
pub fn worked_clauses()
    ensures never { NeverTrue }
    ensures one_and { OneAnd }
    ensures one_xor { OneXor }
    ensures both { BothHold }
    ensures one_alone { OneDoesNotHold }
{}
