//! Files to certificates.
//!
//! A certificate may be large, so it is never held whole: `load_certificate` asks for it part by part, and hands each part over
//! to a verifier, which keeps of it what its verdict needs. A fault of the text becomes the line that tells of it, each the one
//! of its name. Where a file goes on without end the verifier refuses it, as too long.

ghost use Rattle.std.specs.Prelude.{◌≡◌, ◌≤◌, length, IfOk, IfErr, IfSome, IsErrOf, OnOk, Ok, Some, Err};
ghost use Rattle.pg_ast.specs.declared.tree.Desc.{Desc};
ghost use Rattle.pg_cert.specs.Texts.{name_of};
ghost use Rattle.pg_cert.specs.declared.cert.Family.{Family};
ghost use Rattle.pg_edge.specs.Count.{Rose};
ghost use Rattle.pg_edge.specs.Shelf.{HoldsPart, LacksFile};
ghost use Rattle.pg_edge.specs.declared.shelf.LoadFault.TheVariants.{Missing, Long, Failed};
ghost use Rattle.pg_verify.specs.Feeding.{begun, most_bytes};
ghost use Rattle.pg_cmd_base.specs.Answering.{Comes, OnlyReads};
ghost use Rattle.pg_cmd_certs.specs.Certificates.{CertDue, cause_number, told_of_verifying};
ghost use Rattle.pg_cmd_certs.specs.Parts.{HoldsUpTo, IsStopOf, most_part};

use pg_cert::{Family, Report};
use pg_cli_table::FileName;
use pg_cmd_base::{Refusal, Stop, stop_of};
use pg_edge::{LoadFault, Shelf};
use pg_mach_ready::Machine;
use pg_report::{CertificateLine, RefusalLine};
use pg_verify::{CERT_BYTES, StepCause, Verifier, VerifyFault};
use sqlite_items::Items;
use std::alloc::Global;

/// How many bytes of a certificate are asked for at once.
const PART_BYTES: u64 = 65_536;

/// What is kept of the certificate of a machine that a file holds, of this family, or why there is none.
pub fn load_certificate<F: Shelf>(
    alloc: Global,
    family: Family,
    machine: &Machine,
    name: &FileName,
    shelf: &mut F,
) -> Result<Report, Stop>
    ensures comes { Comes (λ report. report) (CertDue machine.now.desc family (F.files shelf.old) name.now) (F.reads shelf.old)
        (F.reads shelf.new) result }
    ensures reads { OnlyReads F.Shelf shelf.old shelf.new }
{
    match try_size(name, shelf) {
        Ok(()) => verify_parts(alloc, family, machine, name, shelf),
        Err(stop) => Err(stop),
    }
}

/// That a file is not too long for a certificate, or why a command goes no further.
fn try_size<F: Shelf>(name: &FileName, shelf: &mut F) -> Result<(), Stop>
    ensures fits { OnOk result (HoldsUpTo (F.files shelf.old) name.now most_bytes) }
    ensures stops { IfErr result (λ why. (d : Desc) (family : Family) → Comes (λ report. report)
        (CertDue d family (F.files shelf.old) name.now) (F.reads shelf.old) (F.reads shelf.new) (Err why)) }
    ensures reads { OnlyReads F.Shelf shelf.old shelf.new }
{
    match shelf.size(name.as_str()) {
        Ok(size) => {
            if size <= u64::from(CERT_BYTES) {
                Ok(())
            } else {
                Err(refused(CertificateLine::Long))
            }
        }
        Err(fault) => Err(stop_of(fault, RefusalLine::Certificate(CertificateLine::Long))),
    }
}

/// What is kept of a certificate whose parts are handed over one after another, until there is none.
fn verify_parts<F: Shelf>(
    alloc: Global,
    family: Family,
    machine: &Machine,
    name: &FileName,
    shelf: &mut F,
) -> Result<Report, Stop>
    requires { HoldsUpTo (F.files shelf.old) name.now most_bytes }
    ensures comes { Comes (λ report. report) (CertDue machine.now.desc family (F.files shelf.old) name.now) (F.reads shelf.old)
        (F.reads shelf.new) result }
    ensures reads { OnlyReads F.Shelf shelf.old shelf.new }
{
    let mut verifier = verifier_of(alloc, family, machine);
    let mut at = 0;
    'parts: loop {
        let part = match load_part(alloc, name, at, shelf) {
            Ok(part) => part,
            Err(fault) => {
                return Err(stop_of(fault, RefusalLine::Certificate(CertificateLine::Long)));
            }
        };
        if part.is_empty() {
            break 'parts;
        }
        match verifier.feed(&part) {
            Ok(()) => {}
            Err(fault) => return Err(stop_of_text(alloc, machine, fault)),
        }
        at += part.len() as u64;
    }
    match verifier.finish() {
        Ok(report) => Ok(report),
        Err(fault) => Err(stop_of_text(alloc, machine, fault)),
    }
}

/// A verifier of the certificates of a family, to which nothing was handed over.
fn verifier_of<'m>(alloc: Global, family: Family, machine: &'m Machine) -> Verifier<'m>
    ensures { result ≡ Ok (begun machine.now.desc family) }
{
    match family {
        Family::Plain => Verifier::new(alloc, machine),
        Family::Hybrid => Verifier::hybrid(alloc, machine),
    }
}

/// The bytes of a file from a place on, some of them; none where the file ends there.
fn load_part<F: Shelf>(
    alloc: Global,
    name: &FileName,
    at: u64,
    shelf: &mut F,
) -> Result<Vec<u8>, LoadFault>
    ensures ok { IfOk result (λ bytes. HoldsPart (F.files shelf.old) name.now at bytes.items) }
    ensures within { IfOk result (λ bytes. length bytes.items ≤ most_part) }
    ensures missing { IsErrOf result Missing → LacksFile (F.files shelf.old) name.now }
    ensures long { ¬ IsErrOf result Long }
    ensures failed { IsErrOf result Failed → Rose (F.reads shelf.old) (F.reads shelf.new) }
    ensures reads { OnlyReads F.Shelf shelf.old shelf.new }
{
    let mut bytes = Vec::new(alloc);
    match shelf.part(name.as_str(), at, PART_BYTES, &mut bytes) {
        Ok(()) => Ok(bytes),
        Err(fault) => Err(fault),
    }
}

/// Why a command goes no further whose certificate is refused with this fault.
pub fn stop_of_text(alloc: Global, machine: &Machine, fault: VerifyFault) -> Stop
    ensures { IsStopOf machine.now.desc fault result }
{
    match told_of_verifying(alloc, machine, fault) {
        Some(line) => refused(line),
        None => Stop::Memory,
    }
}

/// A certificate is refused, as this line tells.
fn refused(line: CertificateLine) -> Stop
    ensures { result ≡ Stop.Refused (Refusal.Line (RefusalLine.Certificate line)) }
{
    Stop::Refused(Refusal::Line(RefusalLine::Certificate(line)))
}

/// What is told of bytes that are no certificate of a machine; nothing where memory was refused, for them or for the line.
fn told_of_verifying(
    alloc: Global,
    machine: &Machine,
    fault: VerifyFault,
) -> Option<CertificateLine>
    ensures { IfSome result (λ line. told_of_verifying machine.now.desc fault ≡ Some line) }
{
    match fault {
        VerifyFault::Long => Some(CertificateLine::Long),
        VerifyFault::Token(line) => Some(CertificateLine::Token(line)),
        VerifyFault::Grammar(line) => Some(CertificateLine::Grammar(line)),
        VerifyFault::Version => Some(CertificateLine::Version),
        VerifyFault::NoSuchInstr(line) => Some(CertificateLine::Instr(line)),
        VerifyFault::BadStep(line, cause) => Some(CertificateLine::Step(line, cause_number(cause))),
        VerifyFault::NotClosed(line) => Some(CertificateLine::Closed(line)),
        VerifyFault::BadPair(line) => Some(CertificateLine::Pair(line)),
        VerifyFault::BadSpent(line) => Some(CertificateLine::Spent(line)),
        VerifyFault::Missing(instr, kind) => match name_of(alloc, machine, instr) {
            Some(name) => Some(CertificateLine::Missing(name, kind)),
            None => None,
        },
        VerifyFault::Extra(line) => Some(CertificateLine::Extra(line)),
        VerifyFault::BadDelete(line) => Some(CertificateLine::Delete(line)),
        VerifyFault::Memory => None,
    }
}

/// The number of a cause for which a step is not valid.
fn cause_number(cause: StepCause) -> u32
    ensures { result ≡ cause_number cause }
{
    match cause {
        StepCause::UnknownLit => 1,
        StepCause::UnknownHint => 2,
        StepCause::NotUnit => 3,
        StepCause::NoConflict => 4,
    }
}

/// The name of an instruction, and no byte where there is none of this number; `None` where memory was refused.
fn name_of(alloc: Global, machine: &Machine, instr: usize) -> Option<Items<u8>>
    ensures { IfSome result (λ name. name ≡ name_of machine.now.desc instr) }
{
    if instr >= machine.count() {
        return Some(Items::new(alloc));
    }
    match Items::from_slice(alloc, machine.name(instr)) {
        Ok(name) => Some(name),
        Err(_) => None,
    }
}
