//! The same of either family.

ghost use Rattle.std.specs.Prelude.{◌≡◌, map, IfOk};
ghost use Rattle.pg_cert.specs.Verdicts.{mark_of};
ghost use Rattle.pg_verify.specs.Feeding.{verified_whole, IsAnswer};
ghost use Rattle.pg_cert_migrate.specs.Migrated.{IsMigrated, report_told};

use crate::migrating::{Migrated, made_anew};
use crate::reporting::report;
use crate::watching::{ReadWatcher, Unwatched};
use pg_cert::Family;
use pg_mach_ready::Machine;
use pg_verify::VerifyFault;
use std::alloc::Global;

/// What `migrate` makes, of a certificate in which the kinds of a family are asked about: of the plain one it is the same.
pub fn migrate_of(
    alloc: Global,
    machine: &Machine,
    family: Family,
    bytes: &[u8],
) -> Result<Migrated, VerifyFault>
    ensures migrated { IfOk result (λ m. IsMigrated machine.now.desc family bytes.now m.cert) }
    ensures answer { IsAnswer (verified_whole machine.now.desc family bytes.now) (report_told result) }
    ensures marks { IfOk result (λ m. m.report.marks ≡ map mark_of m.cert.findings) }
    ensures family { IfOk result (λ m. m.report.family ≡ m.cert.family) }
{
    migrate_watched(alloc, machine, family, bytes, &mut Unwatched)
}

/// The same, and the watcher is told how far the text has been verified, which is the first part of the work. What is made is the same
/// with any other watcher.
pub fn migrate_watched<W: ReadWatcher>(
    alloc: Global,
    machine: &Machine,
    family: Family,
    bytes: &[u8],
    watcher: &mut W,
) -> Result<Migrated, VerifyFault>
    ensures migrated { IfOk result (λ m. IsMigrated machine.now.desc family bytes.now m.cert) }
    ensures answer { IsAnswer (verified_whole machine.now.desc family bytes.now) (report_told result) }
    ensures marks { IfOk result (λ m. m.report.marks ≡ map mark_of m.cert.findings) }
    ensures family { IfOk result (λ m. m.report.family ≡ m.cert.family) }
{
    match report(alloc, machine, family, bytes, watcher) {
        Ok(report) => Ok(made_anew(alloc, machine, family, bytes, report)?),
        Err(fault) => Err(fault),
    }
}
