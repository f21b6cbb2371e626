//! Small circuits that were worked out by hand: laws, which do nothing when they run.

ghost use Rattle.pg_circuit.specs.Rows.{AndIsAdded, AndIsFound, OtherOrderIsAdded, AndWithItsNegation, XorWithItsNegation, XorWithTrue, ThirdInput, ValuesInOrder};

/// What calls make of two inputs.
pub fn worked_gates()
    ensures added { AndIsAdded }
    ensures found { AndIsFound }
    ensures other_order { OtherOrderIsAdded }
    ensures and_with_its_negation { AndWithItsNegation }
    ensures xor_with_its_negation { XorWithItsNegation }
    ensures xor_with_true { XorWithTrue }
    ensures third_input { ThirdInput }
    ensures values { ValuesInOrder }
{}
