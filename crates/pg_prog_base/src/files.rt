//! Files to machines and certificates, and what is put and saved.

ghost use Rattle.std.specs.Prelude.{◌≡◌, ◌<◌, length, Some, IfOk, IfSome, IsErrOf};
ghost use Rattle.pg_edge.specs.Count.{Rose};
ghost use Rattle.pg_edge.specs.Shelf.{CountsSave, Saves};
ghost use Rattle.pg_edge.specs.Sink.{Puts};
ghost use Rattle.pg_prog_base.specs.Imported.{IsOfFile};
ghost use Rattle.pg_cmd_base.specs.Descriptions.{DescDue};
ghost use Rattle.pg_cmd_base.specs.Answering.{OnlyReads};
ghost use Rattle.pg_cmd_base.specs.Steps.{Came};
ghost use Rattle.pg_verify.specs.Taking.{instr_named};

use crate::load_certificate;
use crate::stop::Stop;
use pg_cert::Family;
use pg_cert_migrate::Migrated;
use pg_cli_table::FileName;
use pg_cmd_base::load_machine;
use pg_edge::{Failed, LoadFault, Shelf, Sink};
use pg_mach_ready::Machine;
use std::alloc::{AllocError, Global};

/// How a certificate of the hybrid family begins.
const HYBRID: &[u8] = b"pghybrid ";

/// The name of a file.
pub fn file_name(alloc: Global, name: &str) -> Result<FileName, AllocError>
    ensures { IfOk result (λ n. n ≡ name.now) }
{
    Ok(FileName::new(String::from_str(alloc, name)?))
}

/// The machine that a file describes.
pub fn machine<F: Shelf>(alloc: Global, shelf: &mut F, name: &FileName) -> Result<Machine, Stop>
    ensures due { IfOk result (λ m. DescDue (F.files shelf.old) name.now (Came m.desc)) }
    ensures reads { OnlyReads F.Shelf shelf.old shelf.new }
{
    match load_machine(alloc, name, shelf) {
        Ok(machine) => Ok(machine),
        Err(stop) => Err(Stop::Told(stop)),
    }
}

/// The certificate of a machine that a file holds, made anew.
pub fn certificate<F: Shelf>(
    alloc: Global,
    shelf: &mut F,
    machine: &Machine,
    name: &FileName,
) -> Result<Migrated, Stop>
    ensures of_file { IfOk result (λ m. IsOfFile (F.files shelf.old) name.now machine.now.desc m.cert) }
    ensures reads { OnlyReads F.Shelf shelf.old shelf.new }
{
    match load_certificate(alloc, machine, name, shelf) {
        Ok(migrated) => Ok(migrated),
        Err(stop) => Err(Stop::Told(stop)),
    }
}

/// Why the family of a certificate is not known.
#[derive(Debug, Clone, Copy, PartialEq, Eq)]
pub enum FamilyFault {
    /// Its first bytes could not be read.
    Failed,
    /// Memory was refused for them.
    Memory,
}

/// The family that a certificate's first bytes say. What is no certificate, or is not there, is taken for one of the plain family,
/// so that it is refused in its turn.
pub fn family_of<F: Shelf>(
    alloc: Global,
    name: &FileName,
    shelf: &mut F,
) -> Result<Family, FamilyFault>
    ensures failed { IsErrOf result FamilyFault.Failed → Rose (F.reads shelf.old) (F.reads shelf.new) }
    ensures reads { OnlyReads F.Shelf shelf.old shelf.new }
{
    let mut bytes = Vec::new(alloc);
    match shelf.part(name.as_str(), 0, HYBRID.len() as u64, &mut bytes) {
        Ok(()) if bytes.as_slice() == HYBRID => Ok(Family::Hybrid),
        Ok(()) | Err(LoadFault::Missing | LoadFault::Long) => Ok(Family::Plain),
        Err(LoadFault::Failed) => Err(FamilyFault::Failed),
        Err(LoadFault::Memory) => Err(FamilyFault::Memory),
    }
}

/// The number of the instruction of a name.
pub fn find(machine: &Machine, name: &str) -> Option<usize>
    ensures there { IfSome result (λ k. k < length machine.now.desc.instrs) }
    ensures named { IfSome result (λ k. instr_named machine.now.desc name.now ≡ Some k) }
{
    match machine.find(name) {
        Some(instr) if instr < machine.count() => Some(instr),
        _ => None,
    }
}

/// Puts a text.
pub fn put<S: Sink>(out: &mut S, text: &[u8]) -> Result<(), Stop>
    ensures { Puts (S.written out.old) (S.written out.new) (S.faults out.old) (S.faults out.new) text.now result }
{
    match out.put(text) {
        Ok(()) => Ok(()),
        Err(Failed) => Err(Stop::Output),
    }
}

/// Saves a text as a file.
pub fn save<F: Shelf>(shelf: &mut F, name: &str, text: &[u8]) -> Result<(), Stop>
    ensures saves { Saves (F.files shelf.old) (F.files shelf.new) name.now text.now result }
    ensures counted { CountsSave (F.saves shelf.old) (F.saves shelf.new) result }
    ensures reads { F.reads shelf.new ≡ F.reads shelf.old }
{
    match shelf.save(name, text) {
        Ok(()) => Ok(()),
        Err(Failed) => Err(Stop::Output),
    }
}
