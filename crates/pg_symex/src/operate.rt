//! Operators, each by the operation of its name.

ghost use Rattle.std.specs.Prelude.{◌≡◌, ◌^◌, length, IfOk, IsSome};
ghost use Rattle.pg_lang_valid.specs.Widths.{op_width};
ghost use Rattle.pg_vec.specs.There.{AreThere};
ghost use Rattle.pg_vec.specs.AddsNodes.{AddsNodes};
ghost use Rattle.pg_symex.specs.Exprs.{op_made};

use pg_ast::Op;
use pg_circuit::Circuit;
use pg_vec::{Bits, ops};
use std::alloc::{AllocError, Global};

/// What an operator makes of two strings of widths that it takes.
#[tactic(auto, using(crate::proofs::OpSteps::both_wide))]
pub fn operate(
    alloc: Global,
    circuit: &mut Circuit,
    op: Op,
    x: &Bits,
    y: &Bits,
) -> Result<Bits, AllocError>
    requires left { AreThere (length circuit.old.nodes) x.now }
    requires right { AreThere (length circuit.old.nodes) y.now }
    requires widths { IsSome (op_width op (length x.now) (length y.now)) }
    ensures made { IfOk result (λ bits. (bits, circuit.new.nodes) ≡ op_made op circuit.old.nodes x.now y.now) }
    ensures kept { AddsNodes circuit.old.nodes circuit.new.nodes (2 ^ 15) }
{
    match op {
        Op::Add => ops::add(alloc, circuit, x, y),
        Op::Sub => ops::sub(alloc, circuit, x, y),
        Op::Mul => ops::mul(alloc, circuit, x, y),
        Op::And => ops::and(alloc, circuit, x, y),
        Op::Or => ops::or(alloc, circuit, x, y),
        Op::Xor => ops::xor(alloc, circuit, x, y),
        Op::Eq => ops::eq(alloc, circuit, x, y),
        Op::Lt => ops::lt(alloc, circuit, x, y),
        Op::Shl => ops::shl(alloc, circuit, x, y),
        Op::Shr => ops::shr(alloc, circuit, x, y),
    }
}
