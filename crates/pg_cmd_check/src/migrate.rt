//! `migrate`: a certificate of a description, trimmed and in the spelling of today, and its verdict.
//!
//! The description is loaded, and the certificate whole, since all of it is made anew; what is made of it gets its text whole:
//! memory is refused before any of it is saved. Then the text is saved, and after that the text of the verdict is put. No more
//! memory is taken for either.

ghost use Rattle.std.specs.Prelude.{◌≡◌, IfOk, map};
ghost use Rattle.pg_cert.specs.Verdicts.{mark_of};
ghost use Rattle.pg_cert.specs.declared.cert.Family.TheVariants.{Plain};
ghost use Rattle.pg_cmd_certs.specs.WrittenViews.{written};
ghost use Rattle.pg_cmd_certs.specs.Certificates.{CertDue};
ghost use Rattle.pg_cmd_certs.specs.Judged.{JudgedDue};
ghost use Rattle.pg_cmd_base.specs.Answering.{Comes, OnlyReads};
ghost use Rattle.pg_cmd_base.specs.Commands.{Carries};
ghost use Rattle.pg_cmd_base.specs.World.{Keeps, around};
ghost use Rattle.pg_cmd_check.specs.Migrate.{IsMigratedText, MigratesFile, migrate_command};

use crate::saving::save_and_tell;
use pg_cert::{Family, write};
use pg_cert_migrate::{Migrated, ReadWatcher, migrate_watched};
use pg_cli_table::{FileName, MigrateWords};
use pg_cmd_base::{Status, Stop, StopWatcher, load_file, load_machine, stop_of, stopped};
use pg_cmd_certs::{JudgedMachine, VerdictWatcher, WrittenCert, stop_of_text};
use pg_edge::{Shelf, Sink};
use pg_hw::Hardware;
use pg_mach_ready::Machine;
use pg_report::{CertificateLine, RefusalLine};
use pg_verify::CERT_BYTES;
use std::alloc::Global;

/// Carries out `migrate`. The hardware is lent, and stays as it is. The watcher is told how far the certificate has been verified, why the
/// command stops, and of a verdict that could not be saved.
pub fn carry_migrate<F: Shelf, S: Sink, H: Hardware, W: ReadWatcher + StopWatcher + VerdictWatcher>(
    alloc: Global,
    words: &MigrateWords,
    shelf: &mut F,
    out: &mut S,
    hw: &H,
    watcher: &mut W,
) -> Status
    ensures carries { Carries (migrate_command words.now) (around F.Shelf S.Sink H.Hardware shelf.old out.old hw.now)
        (around F.Shelf S.Sink H.Hardware shelf.new out.new hw.now) result }
    ensures keeps { Keeps (migrate_command words.now).saved (around F.Shelf S.Sink H.Hardware shelf.old out.old hw.now)
        (around F.Shelf S.Sink H.Hardware shelf.new out.new hw.now) }
{
    match prepare_migrate(alloc, words, shelf, watcher) {
        Ok(made) => save_and_tell(shelf, out, hw, &words.file, &made, watcher),
        Err(stop) => stopped(&stop, out, watcher),
    }
}

/// The certificate that is to be saved, and whose verdict is to be put; or why there is none.
fn prepare_migrate<F: Shelf, W: ReadWatcher>(
    alloc: Global,
    words: &MigrateWords,
    shelf: &mut F,
    watcher: &mut W,
) -> Result<WrittenCert, Stop>
    ensures comes { Comes written (JudgedDue Plain words.now.desc words.now.cert (F.files shelf.old)) (F.reads shelf.old)
        (F.reads shelf.new) result }
    ensures migrated { IfOk result (λ p. IsMigratedText (F.files shelf.old) words.now.cert p.judged.machine.desc p.text.items
        p.judged.report) }
    ensures reads { OnlyReads F.Shelf shelf.old shelf.new }
{
    let machine = match load_machine(alloc, &words.desc, shelf) {
        Ok(machine) => machine,
        Err(stop) => return Err(stop),
    };
    let made = match load_migrated(alloc, &machine, &words.cert, shelf, watcher) {
        Ok(made) => made,
        Err(stop) => return Err(stop),
    };
    match write(alloc, &machine, &made.cert) {
        Ok(text) => Ok(WrittenCert {
            judged: JudgedMachine {
                machine,
                report: made.report,
            },
            text,
        }),
        Err(_) => Err(Stop::Memory),
    }
}

/// The certificate of a machine that a file holds, made anew, with what is kept of it; or why there is none. The file is held
/// whole.
fn load_migrated<F: Shelf, W: ReadWatcher>(
    alloc: Global,
    machine: &Machine,
    name: &FileName,
    shelf: &mut F,
    watcher: &mut W,
) -> Result<Migrated, Stop>
    ensures comes { Comes (λ m. m.report) (CertDue machine.now.desc Plain (F.files shelf.old) name.now) (F.reads shelf.old)
        (F.reads shelf.new) result }
    ensures from_file { IfOk result (λ m. MigratesFile (F.files shelf.old) name.now machine.now.desc m.cert) }
    ensures family { IfOk result (λ m. m.report.family ≡ m.cert.family) }
    ensures marks { IfOk result (λ m. m.report.marks ≡ map mark_of m.cert.findings) }
    ensures reads { OnlyReads F.Shelf shelf.old shelf.new }
{
    let bytes = match load_file(alloc, name, CERT_BYTES as u64, shelf) {
        Ok(bytes) => bytes,
        Err(fault) => {
            return Err(stop_of(fault, RefusalLine::Certificate(CertificateLine::Long)));
        }
    };
    match migrate_watched(alloc, machine, Family::Plain, &bytes, watcher) {
        Ok(migrated) => Ok(migrated),
        Err(fault) => Err(stop_of_text(alloc, machine, fault)),
    }
}
