//! Writes the log of a finding that is refuted, for people with a checker of their own.
//!
//!     pg_export DESC CERT INSTR KIND [--cnf FILE]
//!
//! CERT is a certificate of the description in DESC, of either family. It is verified whole, and made anew as `pgv migrate` makes
//! it, before anything is written. The log that it has of INSTR and KIND is written in the format LRAT, and under `--cnf` the
//! clauses that it refutes are saved, as `pg_dimacs` writes them (`pg_prog_base`). A finding that has no log is told in a line (3).
//!
//! Words that are not taken, or name an instruction or a kind that is not there, are answered by the usage (3). The other refusals have
//! the lines and statuses of `pgv`. Where the status is 0 the log is written (*EndsExported*, `specs/Exported.antt`). The words are read
//! in `request`, and the texts made in `making`.

ghost use Rattle.std.specs.Prelude.{◌≡◌, map, option_copied, string_bytes, IfOk, OnOk};
ghost use Rattle.pg_edge.specs.Sink.{Adds};
ghost use Rattle.pg_edge.specs.Told.{BothTold};
ghost use Rattle.pg_prog_base.specs.Imported.{IsOfText};
ghost use Rattle.pg_cmd_base.specs.Answering.{OnlyReads};
ghost use Rattle.pg_cmd_base.specs.World.{SavesOnly};
ghost use Rattle.pg_prog_proofs.specs.Exported.{AreTextsOf, EndsExported, IsExport, IsExported, IsOfCert, SavesClauses, SavesNothingElse};

mod making;
mod request;

use crate::export::making::{Texts, texts_at};
use crate::export::request::{Request, asked_by};
use pg_cert::Cert;
use pg_cli_says::{Lacking, WordsWatcher};
use pg_cli_table::FileName;
use pg_cmd_base::StopWatcher;
use pg_edge::{Shelf, Sink};
use pg_mach_ready::Machine;
use pg_prog_base::files::{certificate, file_name, find, machine, put, save};
use pg_prog_base::{Stop, ended, place_of};
use std::alloc::Global;

/// How the program is called.
pub const USAGE: &[u8] = b"usage: pg_export DESC CERT INSTR KIND [--cnf FILE]\n";

/// Puts the log that the words ask for, the program's name first, and gives the status 0; else puts a line, and gives another status.
pub fn run<F: Shelf, S: Sink, W: StopWatcher + WordsWatcher>(
    alloc: Global,
    words: &[String],
    shelf: &mut F,
    out: &mut S,
    watcher: &mut W,
) -> u8
    ensures done { result ≡ 0 → EndsExported (map string_bytes words.now) (F.files shelf.old) (F.files shelf.new)
        (S.written out.old) (S.written out.new) }
    ensures others { SavesNothingElse (map string_bytes words.now) (F.files shelf.old) (F.files shelf.new) }
{
    let Some(request) = asked_by(words) else {
        return ended(alloc, USAGE, Err(Stop::Words), out, watcher);
    };
    match export(alloc, &request, shelf, out) {
        Ok(()) => 0,
        Err(stop) => ended(alloc, USAGE, Err(stop), out, watcher),
    }
}

/// Puts the log that is asked for, and saves the clauses before it, where they are asked for too.
fn export<F: Shelf, S: Sink>(
    alloc: Global,
    request: &Request<'_>,
    shelf: &mut F,
    out: &mut S,
) -> Result<(), Stop>
    ensures exported { OnOk result (IsExported request.now (F.files shelf.old) (F.files shelf.new) (S.written out.old) (S.written out.new)) }
    ensures others { SavesOnly (option_copied request.now.cnf) (F.files shelf.old) (F.files shelf.new) }
{
    match load(alloc, shelf, request) {
        Ok(texts) => tell(shelf, out, request, &texts),
        Err(stop) => Err(stop),
    }
}

/// Saves the clauses, where they are asked for, and puts the log.
fn tell<F: Shelf, S: Sink>(
    shelf: &mut F,
    out: &mut S,
    request: &Request<'_>,
    texts: &Texts,
) -> Result<(), Stop>
    ensures saved { OnOk result (SavesClauses (option_copied request.now.cnf) texts.now.clauses.items (F.files shelf.old) (F.files shelf.new)) }
    ensures put { OnOk result (BothTold (S.written out.old) (S.written out.new) (Adds texts.now.log.items)) }
    ensures others { SavesOnly (option_copied request.now.cnf) (F.files shelf.old) (F.files shelf.new) }
{
    match save_beside(shelf, request, texts.clauses.as_slice()) {
        Ok(()) => put(out, texts.log.as_slice()),
        Err(stop) => Err(stop),
    }
}

/// Saves clauses where the words name a file for them.
fn save_beside<F: Shelf>(shelf: &mut F, request: &Request<'_>, text: &[u8]) -> Result<(), Stop>
    ensures saved { OnOk result (SavesClauses (option_copied request.now.cnf) text.now (F.files shelf.old) (F.files shelf.new)) }
    ensures others { SavesOnly (option_copied request.now.cnf) (F.files shelf.old) (F.files shelf.new) }
{
    match request.cnf {
        None => Ok(()),
        Some(file) => save(shelf, file, text),
    }
}

/// The texts of the finding that the words ask for.
fn load<F: Shelf>(alloc: Global, shelf: &mut F, request: &Request<'_>) -> Result<Texts, Stop>
    ensures is_export { IfOk result (IsExport (F.files shelf.old) request.now) }
    ensures reads { OnlyReads F.Shelf shelf.old shelf.new }
{
    let desc = file_name(alloc, request.names.file)?;
    let cert = file_name(alloc, request.cert)?;
    match machine(alloc, shelf, &desc) {
        Ok(machine) => load_beside(alloc, shelf, request, &machine, &cert),
        Err(stop) => Err(stop),
    }
}

/// The same of a machine, with the certificate of a file.
fn load_beside<F: Shelf>(
    alloc: Global,
    shelf: &mut F,
    request: &Request<'_>,
    machine: &Machine,
    cert: &FileName,
) -> Result<Texts, Stop>
    requires cert { cert.now ≡ request.now.cert.now }
    ensures of_cert { IfOk result (IsOfCert (F.files shelf.old) machine.now.desc request.now) }
    ensures reads { OnlyReads F.Shelf shelf.old shelf.new }
{
    match certificate(alloc, shelf, machine, cert) {
        Ok(migrated) => texts_asked(alloc, machine, &migrated.cert, request),
        Err(stop) => Err(stop),
    }
}

/// The texts of the finding that the words ask for, in a certificate that was made anew.
fn texts_asked(
    alloc: Global,
    machine: &Machine,
    cert: &Cert,
    request: &Request<'_>,
) -> Result<Texts, Stop>
    requires { IsOfText machine.now.desc cert.now }
    ensures { IfOk result (AreTextsOf machine.now.desc cert.now request.now) }
{
    let Some(instr) = find(machine, request.names.instr) else {
        return Err(Stop::Lacking(Lacking::Instr));
    };
    match place_of(cert, instr, request.kind) {
        Some(place) => texts_at(alloc, machine, cert, place, &request.names),
        None => Err(Stop::Lacking(Lacking::Kind)),
    }
}
