//! The new certificate, with its text and what is told of it.

ghost use Rattle.std.specs.Prelude.{◌≡◌, ◌<◌, length, string_bytes, IfOk};
ghost use Rattle.pg_prog_base.specs.Imported.{IsOfText, IsPlaceOf, IsRightAt};
ghost use Rattle.pg_proof.specs.Trimmed.{step_count};
ghost use Rattle.pg_prog_proofs.specs.Saved.{IsNew, import_line, refuted_line, shown_line};

use crate::import::answer::finding_of;
use crate::import::request::Request;
use pg_ask::ask;
use pg_cert::{Cert, Finding};
use pg_cli_says::Lacking;
use pg_cmd_certs::JudgedMachine;
use pg_mach_ready::Machine;
use pg_prog_base::{Imported, Stop, place_of, replaced};
use pg_proof::Act;
use std::alloc::{AllocError, Global};
use std::fmt::Write;

/// A new certificate.
#[derive(Drop)]
pub struct Written {
    /// The line that tells what was imported.
    pub line: String,
    /// The text of the certificate.
    pub text: Vec<u8>,
    /// The machine, and what is kept of the certificate.
    pub judged: JudgedMachine,
}

/// What is imported: a finding, and the line that tells of it.
#[derive(Drop)]
struct Taken {
    finding: Finding,
    line: String,
}

/// The certificate that the words ask for: one that was made anew, with what another solver wrote of an instruction, by its number.
pub fn new_certificate(
    alloc: Global,
    machine: Machine,
    cert: Cert,
    instr: usize,
    request: &Request<'_>,
    bytes: &[u8],
) -> Result<Written, Stop>
    requires made { IsOfText machine.desc cert }
    requires there { instr < length machine.desc.instrs }
    ensures machine { IfOk result (λ w. w.judged.machine.desc ≡ machine.desc) }
    ensures is_new { IfOk result (IsNew machine.desc cert instr request.now) }
{
    let Some(place) = place_of(&cert, instr, request.kind) else {
        return Err(Stop::Lacking(Lacking::Kind));
    };
    let taken = match taken_finding(alloc, &machine, &cert, instr, place, request, bytes) {
        Ok(taken) => taken,
        Err(stop) => return Err(stop),
    };
    let Taken { finding, line } = taken;
    match replaced(alloc, &machine, cert, place, finding) {
        Ok(imported) => {
            let Imported {
                cert: _,
                report,
                text,
            } = imported;
            Ok(Written {
                line,
                text,
                judged: JudgedMachine { machine, report },
            })
        }
        Err(_) => Err(Stop::Memory),
    }
}

/// The finding of an instruction and a kind, which stands at a place, that the bytes say.
fn taken_finding(
    alloc: Global,
    machine: &Machine,
    cert: &Cert,
    instr: usize,
    place: usize,
    request: &Request<'_>,
    bytes: &[u8],
) -> Result<Taken, Stop>
    requires there { instr < length machine.now.desc.instrs }
    requires asked { IsPlaceOf cert.now instr request.now.kind place }
    ensures right { IfOk result (λ t. IsRightAt machine.now.desc cert.now.family place t.finding) }
    ensures line { IfOk result (λ t. string_bytes t.line ≡ import_line request.now.instr.now request.now.word.now t.finding) }
{
    match right_finding(alloc, machine, cert, instr, place, request, bytes) {
        Ok(finding) => match line_of(alloc, request, &finding) {
            Ok(line) => Ok(Taken { finding, line }),
            Err(_) => Err(Stop::Memory),
        },
        Err(stop) => Err(stop),
    }
}

/// The same without the line.
fn right_finding(
    alloc: Global,
    machine: &Machine,
    cert: &Cert,
    instr: usize,
    place: usize,
    request: &Request<'_>,
    bytes: &[u8],
) -> Result<Finding, Stop>
    requires there { instr < length machine.now.desc.instrs }
    requires asked { IsPlaceOf cert.now instr request.now.kind place }
    ensures { IfOk result (IsRightAt machine.now.desc cert.now.family place) }
{
    match ask(alloc, machine, instr, request.kind) {
        Ok(asked) => finding_of(alloc, &asked, bytes),
        Err(_) => Err(Stop::Memory),
    }
}

/// The line that tells what was imported.
fn line_of(alloc: Global, request: &Request<'_>, finding: &Finding) -> Result<String, AllocError>
    ensures { IfOk result (λ line. string_bytes line ≡ import_line request.now.instr.now request.now.word.now finding.now) }
{
    match finding {
        Finding::Refuted(acts) => refuted_line(
            alloc,
            request.instr,
            request.word,
            step_count(acts.as_slice()),
        ),
        Finding::Shown(..) | Finding::Spent(..) => shown_line(alloc, request.instr, request.word),
    }
}

/// The line of a log of so many steps.
fn refuted_line(alloc: Global, instr: &str, word: &str, steps: usize) -> Result<String, AllocError>
    ensures { IfOk result (λ line. string_bytes line ≡ refuted_line instr.now word.now steps) }
{
    format!(in alloc; "imported {instr} {word} refuted {steps} steps\n")
}

/// The line of two states.
fn shown_line(alloc: Global, instr: &str, word: &str) -> Result<String, AllocError>
    ensures { IfOk result (λ line. string_bytes line ≡ shown_line instr.now word.now) }
{
    format!(in alloc; "imported {instr} {word} shown\n")
}

/// How many steps a log has.
fn step_count(acts: &[Act]) -> usize
    ensures { result ≡ step_count acts.now }
{
    let mut count = 0usize;
    for act in acts {
        match act {
            Act::Add(_) => count = count.saturating_add(1),
            Act::Remove(_) => {}
        }
    }
    count
}
