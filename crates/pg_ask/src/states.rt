//! The states that an assignment of a question stands for.

ghost use Rattle.std.specs.Prelude.{◌≡◌, ◌<◌, ◌≤◌, ◌^◌, true, length, slice_get, Some, IfOk, All};
ghost use Rattle.pg_word.specs.Psw.{mode_of};
ghost use Rattle.pg_circuit.specs.Values.{gate_value};
ghost use Rattle.pg_vec.specs.Number.{number};
ghost use Rattle.pg_cnf.specs.Truth.{clauses_true};
ghost use Rattle.pg_ast.specs.declared.tree.Instr.{Instr};
ghost use Rattle.pg_type.specs.Kinds.{Shows};
ghost use Rattle.pg_type.specs.Listed.{state_of};
ghost use Rattle.pg_ask.specs.Means.{psw_of, named_cells};

use crate::asking::Asked;
use pg_cells::Cell;
use pg_circuit::Gate;
use pg_type::placed;
use pg_vec::Bits;
use pg_word::{Mode, Psw, Sparse};
use std::alloc::{AllocError, Global};

/// The value of a gate under an assignment, whose place k has the value of node k. Past its end nodes are false.
fn value(assignment: &[bool], gate: Gate) -> bool
    ensures { result ≡ gate_value assignment.now gate }
{
    let node = match assignment.get(gate.number as usize) {
        Some(value) => *value,
        None => false,
    };
    node != gate.negated
}

/// The number that a string is worth under an assignment.
fn number(assignment: &[bool], bits: &Bits) -> u64
    ensures { result ≡ number assignment.now bits.now }
{
    let gates = bits.as_slice();
    let mut number = 0u64;
    for k in 0..gates.len() {
        let bit = value(assignment, gates[gates.len() - 1 - k]);
        number = number * 2 + u64::from(bit);
    }
    number
}

/// The same of an address.
fn address(assignment: &[bool], bits: &Bits) -> u32
    requires { length bits.now ≤ 32 }
    ensures { result ≡ number assignment.now bits.now }
{
    number(assignment, bits) as u32
}

/// The words of the touched cells, each beside its address.
fn named(alloc: Global, assignment: &[bool], cells: &[Cell]) -> Result<Vec<(u32, u64)>, AllocError>
    requires { All (λ c. length c.address ≤ 32) cells.now }
    ensures { IfOk result (λ v. v.items ≡ named_cells assignment.now cells.now) }
{
    let mut all = Vec::new(alloc);
    for cell in cells {
        let at = address(assignment, &cell.address);
        let word = number(assignment, &cell.word);
        all.push((at, word))?;
    }
    Ok(all)
}

/// The mode that a bit is worth under an assignment.
fn mode(assignment: &[bool], bit: &Bits) -> Mode
    ensures { result ≡ mode_of (number assignment.now bit.now) }
{
    if number(assignment, bit) == 0 {
        Mode::S
    } else {
        Mode::U
    }
}

/// The program status word of these registers under an assignment.
fn psw(assignment: &[bool], bit: &Bits, p: &Bits, l: &Bits, b: &Bits) -> Psw
    requires p { length p.now ≤ 32 }
    requires l { length l.now ≤ 32 }
    requires b { length b.now ≤ 32 }
    ensures { result ≡ psw_of assignment.now bit.now p.now l.now b.now }
{
    Psw {
        mode: mode(assignment, bit),
        p: address(assignment, p),
        l: address(assignment, l),
        b: address(assignment, b),
    }
}

/// The two states that an assignment stands for which makes all clauses of a question true: they show the kind of the instruction. The
/// assignment has a value for each variable in order, and variables past its end are false. In cells that no run touches there is zero.
pub fn states_of(
    alloc: Global,
    asked: &Asked<'_>,
    assignment: &[bool],
) -> Result<(Sparse, Sparse), AllocError>
    requires { clauses_true assignment.now asked.now.cnf.clauses ≡ true }
    ensures { IfOk result (λ p. (i : Instr) → slice_get asked.now.machine.now.desc.instrs asked.now.instr ≡ Some i → Shows asked.now.machine.now.desc i asked.now.kind (state_of p.0) (state_of p.1)) }
{
    let u = asked.unknowns();
    let words = named(alloc, assignment, asked.cells())?;
    let usable = address(assignment, asked.usable());
    let first_size = address(assignment, &u.first_size);
    let first_psw = psw(assignment, &u.first_mode, &u.p, &u.first_l, &u.first_b);
    let first = placed(alloc, words.as_slice(), usable, first_size, first_psw)?;
    let second_size = address(assignment, &u.second_size);
    let second_psw = psw(assignment, &u.second_mode, &u.p, &u.second_l, &u.second_b);
    let second = placed(alloc, words.as_slice(), usable, second_size, second_psw)?;
    Ok((first, second))
}
