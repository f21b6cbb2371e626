//! The lines of comment above a formula: what is asked, and what the variables stand for.
//!
//! Each line of gates has the literals of their variables from bit 0 up: `0` and `1` are constants, and `-` stands before
//! the variable of a gate that is negated. What a line says is made first, and then pushed as one line (`push_comment`).

ghost use Rattle.std.specs.Prelude.{◌≢◌, OnOk};
ghost use Rattle.pg_prog_base.specs.Dimacs.{AreComments, GoesOn};

use crate::question::Names;
use crate::text::push_number;
use pg_ask::{Asked, Unknowns};
use pg_cells::Cell;
use pg_circuit::Gate;
use pg_vec::Bits;
use std::alloc::{AllocError, Global};

/// Pushes all lines of comment.
pub fn push_comments(
    alloc: Global,
    text: &mut Vec<u8>,
    names: &Names<'_>,
    asked: &Asked<'_>,
) -> Result<(), AllocError>
    requires { AreComments text.old.items }
    ensures { OnOk result (AreComments text.new.items) }
{
    push_name(alloc, text, "description", names.file)?;
    push_name(alloc, text, "instruction", names.instr)?;
    push_name(alloc, text, "kind", names.word)?;
    push_unknowns(alloc, text, asked.unknowns())?;
    push_line(alloc, text, "usable", asked.usable())?;
    let mut number = 0u64;
    for cell in asked.cells() {
        push_cell(alloc, text, number, cell)?;
        number = number.saturating_add(1);
    }
    Ok(())
}

/// Pushes the lines of registers, sizes and the address that is compared.
fn push_unknowns(alloc: Global, text: &mut Vec<u8>, unknowns: &Unknowns) -> Result<(), AllocError>
    requires { AreComments text.old.items }
    ensures { OnOk result (AreComments text.new.items) }
{
    push_line(alloc, text, "first mode", &unknowns.first_mode)?;
    push_line(alloc, text, "second mode", &unknowns.second_mode)?;
    push_line(alloc, text, "p", &unknowns.p)?;
    push_line(alloc, text, "first l", &unknowns.first_l)?;
    push_line(alloc, text, "second l", &unknowns.second_l)?;
    push_line(alloc, text, "first bound", &unknowns.first_b)?;
    push_line(alloc, text, "second bound", &unknowns.second_b)?;
    push_line(alloc, text, "first size", &unknowns.first_size)?;
    push_line(alloc, text, "second size", &unknowns.second_size)?;
    push_line(alloc, text, "compared", &unknowns.compared)
}

/// Pushes a line that names a thing. A control character in the name is written as `?`.
fn push_name(alloc: Global, text: &mut Vec<u8>, what: &str, name: &str) -> Result<(), AllocError>
    requires { AreComments text.old.items }
    ensures { OnOk result (AreComments text.new.items) }
{
    let said = of_name(alloc, what, name)?;
    push_comment(text, said.as_slice())
}

/// Pushes the line of a string of gates.
fn push_line(alloc: Global, text: &mut Vec<u8>, what: &str, bits: &Bits) -> Result<(), AllocError>
    requires { AreComments text.old.items }
    ensures { OnOk result (AreComments text.new.items) }
{
    let said = of_bits(alloc, what, bits)?;
    push_comment(text, said.as_slice())
}

/// Pushes the line of a touched cell: its address and its word.
fn push_cell(alloc: Global, text: &mut Vec<u8>, number: u64, cell: &Cell) -> Result<(), AllocError>
    requires { AreComments text.old.items }
    ensures { OnOk result (AreComments text.new.items) }
{
    let said = of_cell(alloc, number, cell)?;
    push_comment(text, said.as_slice())
}

/// Pushes a line of comment that says these bytes. A LF among them is written as `?`, so that the line stays one.
fn push_comment(text: &mut Vec<u8>, said: &[u8]) -> Result<(), AllocError>
    requires { AreComments text.old.items }
    ensures { OnOk result (AreComments text.new.items) }
{
    text.push(b'c')?;
    push_said(text, said)?;
    text.push(b'\n')?;
    Ok(())
}

/// Pushes these bytes, a LF as `?`.
fn push_said(text: &mut Vec<u8>, said: &[u8]) -> Result<(), AllocError>
    ensures { OnOk result (GoesOn text.old.items text.new.items) }
{
    for byte in said {
        text.push(within_a_line(*byte))?;
    }
    Ok(())
}

/// The byte; for LF a `?`.
fn within_a_line(byte: u8) -> u8
    ensures { result ≢ 10 }
{
    if byte == b'\n' { b'?' } else { byte }
}

/// What the line of a name says.
fn of_name(alloc: Global, what: &str, name: &str) -> Result<Vec<u8>, AllocError> {
    let mut said = begun(alloc, what)?;
    said.push(b' ')?;
    for byte in name.bytes() {
        said.push(if byte.is_ascii_control() { b'?' } else { byte })?;
    }
    Ok(said)
}

/// What the line of a string of gates says.
fn of_bits(alloc: Global, what: &str, bits: &Bits) -> Result<Vec<u8>, AllocError> {
    let mut said = begun(alloc, what)?;
    push_gates(&mut said, bits.as_slice())?;
    Ok(said)
}

/// What the line of a touched cell says.
fn of_cell(alloc: Global, number: u64, cell: &Cell) -> Result<Vec<u8>, AllocError> {
    let mut said = begun(alloc, "cell ")?;
    push_number(&mut said, number)?;
    said.extend_from_slice(b" address")?;
    push_gates(&mut said, cell.address.as_slice())?;
    said.extend_from_slice(b" word")?;
    push_gates(&mut said, cell.word.as_slice())?;
    Ok(said)
}

/// A space, and what a line is about.
fn begun(alloc: Global, what: &str) -> Result<Vec<u8>, AllocError> {
    let mut said = Vec::new(alloc);
    said.push(b' ')?;
    said.extend_from_slice(what.as_bytes())?;
    Ok(said)
}

/// Pushes gates, with a space before each.
fn push_gates(text: &mut Vec<u8>, gates: &[Gate]) -> Result<(), AllocError> {
    for gate in gates {
        text.push(b' ')?;
        push_gate(text, *gate)?;
    }
    Ok(())
}

/// Pushes a gate: a constant, which is node 0, or the literal of its node's variable.
fn push_gate(text: &mut Vec<u8>, gate: Gate) -> Result<(), AllocError> {
    if gate.number == 0 {
        return push_number(text, u64::from(gate.negated));
    }
    if gate.negated {
        text.push(b'-')?;
    }
    push_number(text, u64::from(gate.number) + 1)
}
