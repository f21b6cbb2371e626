//! Takes what another solver found of a question into a certificate.
//!
//!     pg_import DESC CERT INSTR KIND PROOF FILE
//!
//! CERT is a certificate of the description in DESC, of either family, as `pgv check` and `pgv hcheck` write it. PROOF is what
//! another solver wrote for the clauses that `pg_dimacs DESC INSTR KIND` writes: a proof that they cannot all be true, DRAT or LRAT,
//! or its output with an assignment (`pg_sat_foreign`). Nothing of it is believed: a proof is made a log that a checker takes
//! (`pg_sat_foreign`), and an assignment is tried on all clauses (`answer`). The finding stands in FILE in place of that of CERT, all others
//! as `pgv migrate` makes them (`pg_prog_base`); so a verifier of its family takes FILE, where it is within the limit of its length.
//!
//! On standard output stands what was imported, and the verdict of the new certificate, as `pgv verify` tells it. The status is
//! that of the verdict: 0 accepted, 1 refused, 2 open; what is then left, of files and sink, is *EndsImported* (`specs/Saved.antt`).
//! Words that are not taken, or name an instruction or a kind that is not there, are answered by the usage (3). The other refusals are
//! those of `pgv`, with 6 for a refused PROOF too (`pg_prog_base`).
//!
//! - `request`: the words. `answer`: what PROOF says. `making`: the new certificate.

ghost use Rattle.std.specs.Prelude.{◌≡◌, ◌≤◌, ◌<◌, length, map, string_bytes, Some, IfOk, OnOk};
ghost use Rattle.pg_cmd_certs.specs.Saving.{HoldsNow};
ghost use Rattle.pg_edge.specs.Shelf.{SameBut};
ghost use Rattle.pg_edge.specs.Told.{BothTold};
ghost use Rattle.pg_prog_base.specs.Imported.{IsOfFile};
ghost use Rattle.pg_cmd_certs.specs.Views.{judged};
ghost use Rattle.pg_cmd_base.specs.Answering.{OnlyReads};
ghost use Rattle.pg_cmd_base.specs.Classes.{class_of};
ghost use Rattle.pg_cmd_base.specs.FileSteps.{HoldsWithin};
ghost use Rattle.pg_cmd_base.specs.World.{output};
ghost use Rattle.pg_verify.specs.Taking.{instr_named};
ghost use Rattle.pg_prog_proofs.specs.Saved.{IsImport, IsImported, EndsImported, SavesNothingElse, SavesOnce, ToldBehindAs};

mod answer;
mod making;
mod request;

use crate::import::making::{Written, new_certificate};
use crate::import::request::{Request, asked_by};
use pg_cert::Cert;
use pg_cli_says::{Lacking, WordsWatcher};
use pg_cli_table::FileName;
use pg_cmd_base::{Status, StopWatcher, load_file, stop_of};
use pg_cmd_certs::tell_verdict;
use pg_edge::{LoadFault, Shelf, Sink};
use pg_mach_ready::Machine;
use pg_prog_base::files::{certificate, file_name, find, machine, put, save};
use pg_prog_base::{ProofFault, Stop, ended};
use pg_report::{CertificateLine, RefusalLine};
use std::alloc::{AllocError, Global};

/// How the program is called.
pub const USAGE: &[u8] = b"usage: pg_import DESC CERT INSTR KIND PROOF FILE\n";

/// The most bytes of what another solver wrote.
const PROOF_BYTES: u64 = 1 << 30;

/// The names of the files that are read.
#[derive(Drop)]
struct Sources {
    desc: FileName,
    cert: FileName,
    proof: FileName,
}

/// What is read of files beside the description.
#[derive(Drop)]
struct Read {
    /// The certificate, made anew.
    cert: Cert,
    /// The number of the instruction.
    instr: usize,
    /// What another solver wrote.
    bytes: Vec<u8>,
}

/// Imports what the words ask for, the program's name first, and gives the status of the verdict; else puts a line, and gives another
/// status.
pub fn run<F: Shelf, S: Sink, W: StopWatcher + WordsWatcher>(
    alloc: Global,
    words: &[String],
    shelf: &mut F,
    out: &mut S,
    watcher: &mut W,
) -> u8
    ensures done { result ≤ 2 → EndsImported (map string_bytes words.now) (F.files shelf.old) (F.files shelf.new)
        (F.saves shelf.old) (F.saves shelf.new) (output S.Sink out.old) (output S.Sink out.new) result }
    ensures others { SavesNothingElse (map string_bytes words.now) (F.files shelf.old) (F.files shelf.new) }
{
    let Some(request) = asked_by(words) else {
        return ended(alloc, USAGE, Err(Stop::Words), out, watcher);
    };
    match import(alloc, &request, shelf, out) {
        Ok(status) => status.code(),
        Err(stop) => ended(alloc, USAGE, Err(stop), out, watcher),
    }
}

/// Imports what is asked for. The answer is the status of the verdict, or `WriteFault` where the verdict could not be put.
fn import<F: Shelf, S: Sink>(
    alloc: Global,
    request: &Request<'_>,
    shelf: &mut F,
    out: &mut S,
) -> Result<Status, Stop>
    ensures imported { IfOk result (IsImported request.now (F.files shelf.old) (F.files shelf.new)
        (F.saves shelf.old) (F.saves shelf.new) (output S.Sink out.old) (output S.Sink out.new)) }
    ensures others { BothTold (F.files shelf.old) (F.files shelf.new) (SameBut request.now.file.now) }
{
    match prepare(alloc, request, shelf) {
        Ok(new) => save_new(shelf, out, request, &new),
        Err(stop) => Err(stop),
    }
}

/// The names of the files that are read.
fn sources_of(alloc: Global, request: &Request<'_>) -> Result<Sources, AllocError>
    ensures desc { IfOk result (λ s. s.desc ≡ request.now.desc.now) }
    ensures cert { IfOk result (λ s. s.cert ≡ request.now.cert.now) }
{
    let desc = file_name(alloc, request.desc)?;
    let cert = file_name(alloc, request.cert)?;
    let proof = file_name(alloc, request.proof)?;
    Ok(Sources { desc, cert, proof })
}

/// The new certificate, before any of it is saved.
fn prepare<F: Shelf>(alloc: Global, request: &Request<'_>, shelf: &mut F) -> Result<Written, Stop>
    ensures is_import { IfOk result (IsImport (F.files shelf.old) request.now) }
    ensures reads { OnlyReads F.Shelf shelf.old shelf.new }
{
    let sources = sources_of(alloc, request)?;
    let machine = match machine(alloc, shelf, &sources.desc) {
        Ok(machine) => machine,
        Err(stop) => return Err(stop),
    };
    match read_beside(alloc, request, shelf, &sources, &machine) {
        Ok(read) => {
            let Read { cert, instr, bytes } = read;
            new_certificate(alloc, machine, cert, instr, request, bytes.as_slice())
        }
        Err(stop) => Err(stop),
    }
}

/// What is read of the other files, in their order.
fn read_beside<F: Shelf>(
    alloc: Global,
    request: &Request<'_>,
    shelf: &mut F,
    sources: &Sources,
    machine: &Machine,
) -> Result<Read, Stop>
    requires cert { sources.now.cert ≡ request.now.cert.now }
    ensures of_file { IfOk result (λ r. IsOfFile (F.files shelf.old) request.now.cert.now machine.now.desc r.cert) }
    ensures there { IfOk result (λ r. r.instr < length machine.now.desc.instrs) }
    ensures named { IfOk result (λ r. instr_named machine.now.desc request.now.instr.now ≡ Some r.instr) }
    ensures reads { OnlyReads F.Shelf shelf.old shelf.new }
{
    let cert = match certificate(alloc, shelf, machine, &sources.cert) {
        Ok(migrated) => migrated.cert,
        Err(stop) => return Err(stop),
    };
    let Some(instr) = find(machine, request.instr) else {
        return Err(Stop::Lacking(Lacking::Instr));
    };
    match load_proof(alloc, shelf, &sources.proof) {
        Ok(bytes) => Ok(Read { cert, instr, bytes }),
        Err(stop) => Err(stop),
    }
}

/// What another solver wrote.
fn load_proof<F: Shelf>(alloc: Global, shelf: &mut F, name: &FileName) -> Result<Vec<u8>, Stop>
    ensures held { IfOk result (λ bytes. HoldsWithin (F.files shelf.old) name.now 1073741824 bytes.items) }
    ensures reads { OnlyReads F.Shelf shelf.old shelf.new }
{
    match load_file(alloc, name, PROOF_BYTES, shelf) {
        Ok(bytes) => Ok(bytes),
        Err(LoadFault::Long) => Err(Stop::Proof(ProofFault::Long)),
        // the line is that of `Long` alone
        Err(fault) => Err(Stop::Told(stop_of(
            fault,
            RefusalLine::Certificate(CertificateLine::Long),
        ))),
    }
}

/// Saves the new certificate, and tells what it is.
fn save_new<F: Shelf, S: Sink>(
    shelf: &mut F,
    out: &mut S,
    request: &Request<'_>,
    new: &Written,
) -> Result<Status, Stop>
    ensures saved { OnOk result (BothTold (F.files shelf.old) (F.files shelf.new) (HoldsNow request.now.file.now new.now.text.items)) }
    ensures others { BothTold (F.files shelf.old) (F.files shelf.new) (SameBut request.now.file.now) }
    ensures once { OnOk result (SavesOnce (F.saves shelf.old) (F.saves shelf.new)) }
    ensures told { IfOk result (λ given. ToldBehindAs (string_bytes new.now.line) (judged new.now.judged)
        (output S.Sink out.old) (output S.Sink out.new) given (class_of given)) }
{
    match save(shelf, request.file, new.text.as_slice()) {
        Ok(()) => tell_new(out, new),
        Err(stop) => Err(stop),
    }
}

/// Puts what was imported, and the verdict behind it.
fn tell_new<S: Sink>(out: &mut S, new: &Written) -> Result<Status, Stop>
    ensures { IfOk result (λ given. ToldBehindAs (string_bytes new.now.line) (judged new.now.judged)
        (output S.Sink out.old) (output S.Sink out.new) given (class_of given)) }
{
    match put(out, new.line.as_bytes()) {
        Ok(()) => Ok(tell_verdict(out, &new.judged)),
        Err(stop) => Err(stop),
    }
}
