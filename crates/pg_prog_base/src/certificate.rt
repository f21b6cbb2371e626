//! A certificate from its file, made anew.

ghost use Rattle.std.specs.Prelude.{IfOk};
ghost use Rattle.pg_prog_base.specs.Imported.{IsOfFile};
ghost use Rattle.pg_cmd_base.specs.Answering.{OnlyReads};

use pg_cert::Family;
use pg_cert_migrate::{Migrated, migrate_of};
use pg_cli_table::FileName;
use pg_cmd_base::{Stop, load_file, stop_of};
use pg_cmd_certs::stop_of_text;
use pg_edge::Shelf;
use pg_mach_ready::Machine;
use pg_report::{CertificateLine, RefusalLine};
use pg_verify::CERT_BYTES;
use std::alloc::Global;

/// How a certificate of the hybrid family begins.
const HYBRID: &[u8] = b"pghybrid ";

/// The certificate of a machine that a file holds, of the family that its first bytes say, made anew as `pgv migrate` makes it; or
/// why there is none, as `pgv verify` tells it. The file is held whole.
pub fn load_certificate<F: Shelf>(
    alloc: Global,
    machine: &Machine,
    name: &FileName,
    shelf: &mut F,
) -> Result<Migrated, Stop>
    ensures of_file { IfOk result (λ m. IsOfFile (F.files shelf.old) name.now machine.now.desc m.cert) }
    ensures reads { OnlyReads F.Shelf shelf.old shelf.new }
{
    let bytes = match load_file(alloc, name, CERT_BYTES as u64, shelf) {
        Ok(bytes) => bytes,
        Err(fault) => {
            return Err(stop_of(fault, RefusalLine::Certificate(CertificateLine::Long)));
        }
    };
    match migrate_of(alloc, machine, family_of(&bytes), &bytes) {
        Ok(migrated) => Ok(migrated),
        Err(fault) => Err(stop_of_text(alloc, machine, fault)),
    }
}

/// The family that a certificate's first bytes say. What is no certificate is taken for one of the plain family, so that it is
/// refused in its turn.
fn family_of(bytes: &[u8]) -> Family {
    if bytes.starts_with(HYBRID) {
        Family::Hybrid
    } else {
        Family::Plain
    }
}
