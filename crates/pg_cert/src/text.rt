//! The text of a certificate.
//!
//! Where memory is refused nothing is said of what was put by then, and nothing rests on it: whoever puts lines gives the bytes
//! up.

ghost use Rattle.std.specs.Prelude.{◌≡◌, ◌+◌, ◌*◌, ◌/◌, ◌%◌, ◌^◌, ◌<◌, ◌≤◌, ◌++◌, length, map, OnOk, IfOk};
ghost use Rattle.std.specs.List.{All};
ghost use Rattle.pg_word.specs.Shape.{IsShape};
ghost use Rattle.pg_word.specs.Sparse.{IsCellList, AreWithin};
ghost use Rattle.pg_word.specs.declared.shape.Shape.{Shape};
ghost use Rattle.pg_lang_meaning.specs.States.{shape_of};
ghost use Rattle.pg_cert.specs.declared.line.Line.TheVariants as lines;
ghost use Rattle.pg_cert.specs.Lines.{line_text};
ghost use Rattle.pg_cert.specs.Verdicts.{kind_count};
ghost use Rattle.pg_cert.specs.Texts.{act_line, found_of, instr_of, kind_of, rows_of, state_lines, body_lines, findings_lines, heading_of, named_lines, lines_text, cert_text, DoStateWordsFit, DoFindingWordsFit};

use crate::cert::{Cert, Family, Finding};
use crate::line::{Found, Heading};
use crate::put::{
    put_cells, put_end, put_first, put_header, put_psw, put_removal, put_size, put_step,
};
use crate::rows::first_row;
use pg_proof::{Act, Step};
use pg_type::{Kind, Machine};
use pg_word::{Shape, Sparse};
use std::alloc::{AllocError, Global};

/// Puts the line of an act.
#[tactic(auto, unfolding(crate::specs::Lines::line_text, crate::specs::Lines::line_parts))]
fn put_act(act: &Act, into: &mut Vec<u8>) -> Result<(), AllocError>
    ensures { (shape : Shape) → OnOk result (into.new.items ≡ into.old.items ++ line_text shape (act_line act.now)) }
{
    match act {
        Act::Add(step) => put_step(step, into),
        Act::Remove(numbers) => put_removal(numbers.as_slice(), into),
    }
}

/// Puts the lines of a log.
#[tactic(auto, unfolding(crate::specs::Texts::lines_text))]
fn put_acts(acts: &[Act], into: &mut Vec<u8>) -> Result<(), AllocError>
    ensures { (shape : Shape) → OnOk result (into.new.items ≡ into.old.items ++ lines_text shape (map act_line acts.now)) }
{
    for act in acts {
        put_act(act, into)?;
    }
    Ok(())
}

/// Puts the lines of the steps of a search.
#[tactic(auto, unfolding(crate::specs::Texts::lines_text, crate::specs::Lines::line_text, crate::specs::Lines::line_parts))]
fn put_steps(steps: &[Step], into: &mut Vec<u8>) -> Result<(), AllocError>
    ensures { (shape : Shape) → OnOk result (into.new.items ≡ into.old.items ++ lines_text shape (map lines.Step steps.now)) }
{
    for step in steps {
        put_step(step, into)?;
    }
    Ok(())
}

/// Puts the rows of a storage of so many cells, of which the listed ones are not zero.
fn put_rows(
    shape: &Shape,
    size: u32,
    cells: &[(u32, u64)],
    into: &mut Vec<u8>,
) -> Result<(), AllocError>
    requires shape { IsShape shape.now }
    requires listed { IsCellList cells.now }
    requires within { AreWithin size cells.now }
    requires fit { All (λ cell. cell.1 < 2 ^ shape.now.w) cells.now }
    ensures { OnOk result (into.new.items ≡ into.old.items ++ lines_text shape.now (rows_of size cells.now)) }
{
    let mut at = 0;
    while at < cells.len() {
        let row = first_row(size, &cells[at..]);
        put_cells(shape.w, row.first, row.words.as_slice(), into)?;
        at += row.count;
    }
    Ok(())
}

/// Puts the lines of a state: its size, its program status word, and the rows that are not all zero.
///
/// It costs the number of listed cells. Each word fits a word of the machine.
pub fn put_state(shape: &Shape, state: &Sparse, into: &mut Vec<u8>) -> Result<(), AllocError>
    requires shape { IsShape shape.now }
    requires fit { DoStateWordsFit shape.now.w state.now }
    ensures { OnOk result (into.new.items ≡ into.old.items ++ lines_text shape.now (state_lines state.now)) }
{
    put_size(state.size, into)?;
    put_psw(&state.psw, into)?;
    put_rows(shape, state.size, state.cells.as_slice(), into)
}

/// Puts the lines of two states.
fn put_pair(
    shape: &Shape,
    first: &Sparse,
    second: &Sparse,
    into: &mut Vec<u8>,
) -> Result<(), AllocError>
    requires shape { IsShape shape.now }
    requires first { DoStateWordsFit shape.now.w first.now }
    requires second { DoStateWordsFit shape.now.w second.now }
    ensures { OnOk result (into.new.items ≡ into.old.items ++ lines_text shape.now (state_lines first.now ++ state_lines second.now)) }
{
    put_state(shape, first, into)?;
    put_state(shape, second, into)
}

/// Puts what stands below the header of a finding.
fn put_body(shape: &Shape, finding: &Finding, into: &mut Vec<u8>) -> Result<(), AllocError>
    requires shape { IsShape shape.now }
    requires fit { DoFindingWordsFit shape.now.w finding.now }
    ensures { OnOk result (into.new.items ≡ into.old.items ++ lines_text shape.now (body_lines finding.now)) }
{
    match finding {
        Finding::Refuted(acts) => put_acts(acts.as_slice(), into),
        Finding::Shown(first, second) => put_pair(shape, first, second, into),
        Finding::Spent(_, steps) => put_steps(steps.as_slice(), into),
    }
}

/// What the header of a finding says of it.
fn found_of(finding: &Finding) -> Found
    ensures { result ≡ found_of finding.now }
{
    match finding {
        Finding::Refuted(_) => Found::Refuted,
        Finding::Shown(_, _) => Found::Shown,
        Finding::Spent(budget, _) => Found::Spent(*budget),
    }
}

/// Puts the lines of the finding of an instruction of this name and this kind. Each word of its states fits a word of the machine.
#[tactic(auto, unfolding(crate::specs::Texts::lines_text, crate::specs::Lines::line_text, crate::specs::Lines::line_parts))]
pub fn put_finding(
    shape: &Shape,
    name: &[u8],
    kind: Kind,
    finding: &Finding,
    into: &mut Vec<u8>,
) -> Result<(), AllocError>
    requires shape { IsShape shape.now }
    requires fit { DoFindingWordsFit shape.now.w finding.now }
    ensures { OnOk result (into.new.items ≡ into.old.items ++ lines_text shape.now (named_lines name.now kind finding.now)) }
{
    put_header(name, kind, found_of(finding), into)?;
    put_body(shape, finding, into)
}

/// The number of the instruction of a finding, by the finding's number.
pub fn instr_of(family: Family, number: usize) -> usize
    ensures { result ≡ instr_of family number }
{
    number / family.kinds().len()
}

/// The kind of a finding, by its number.
pub fn kind_of(family: Family, number: usize) -> Kind
    ensures { result ≡ kind_of family number }
{
    let kinds = family.kinds();
    kinds[number % kinds.len()]
}

/// Puts the lines of findings: for each instruction of the machine in order, and each kind of the family in order, one.
fn put_findings(
    machine: &Machine,
    family: Family,
    findings: &[Finding],
    into: &mut Vec<u8>,
) -> Result<(), AllocError>
    requires whole { length findings.now ≡ length machine.now.desc.instrs * kind_count family }
    requires fit { All (DoFindingWordsFit machine.now.desc.word) findings.now }
    ensures { OnOk result (into.new.items ≡ into.old.items ++ lines_text (shape_of machine.now.desc) (findings_lines machine.now.desc family 0 findings.now)) }
{
    for (number, finding) in findings.iter().enumerate() {
        let name = machine.name(instr_of(family, number));
        let kind = kind_of(family, number);
        put_finding(machine.shape(), name, kind, finding, into)?;
    }
    Ok(())
}

/// The heading that is written today.
fn heading_of(family: Family) -> Heading
    ensures { result ≡ heading_of family }
{
    match family {
        Family::Plain => Heading::PlainTwo,
        Family::Hybrid => Heading::HybridOne,
    }
}

/// The text of a certificate of a machine, which has one finding for each of its instructions and each kind of the family. Each word of a
/// state that is shown fits a word of the machine.
///
/// It costs the length of the text.
#[tactic(auto, unfolding(crate::specs::Texts::cert_lines))]
pub fn write(alloc: Global, machine: &Machine, cert: &Cert) -> Result<Vec<u8>, AllocError>
    requires whole { length cert.now.findings ≡ length machine.now.desc.instrs * kind_count cert.now.family }
    requires fit { All (DoFindingWordsFit machine.now.desc.word) cert.now.findings }
    ensures { IfOk result (λ text. text.items ≡ cert_text machine.now.desc (heading_of cert.now.family) cert.now) }
{
    let mut text = Vec::new(alloc);
    put_first(heading_of(cert.family), &mut text)?;
    put_findings(machine, cert.family, cert.findings.as_slice(), &mut text)?;
    put_end(&mut text)?;
    Ok(text)
}
