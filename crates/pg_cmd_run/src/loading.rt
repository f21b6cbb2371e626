//! Files to guests: what every command that runs guests loads first.
//!
//! The description is loaded, the room beside the cells of monitors is tried, the images are loaded, and then the certificate, in
//! the order of the definition (`GuestsDue`, `specs/Loading.antt`). Each step hands what it has to the next, which goes on from
//! there: its contract is what comes from there on.

ghost use Rattle.std.specs.Prelude.{◌≡◌, ◌≤◌, ◌*◌, ◌+◌, All, IfOk, length};
ghost use Rattle.pg_cert.specs.declared.report.Verdict.TheVariants.{Accepted};
ghost use Rattle.pg_cmd_base.specs.Images.{Fills};
ghost use Rattle.pg_cmd_certs.specs.Judged.{verdict_on};
ghost use Rattle.pg_cmd_certs.specs.Meaning.{IsAcceptedBy};
ghost use Rattle.pg_cmd_certs.specs.Views.{judged};
ghost use Rattle.pg_cmd_base.specs.Answering.{Comes, OnlyReads};
ghost use Rattle.pg_cmd_run.specs.Loading.{GuestsDue, behind_images, behind_room};
ghost use Rattle.pg_cmd_run.specs.Views.{guest_files, loaded};

use crate::files::{GuestFiles, LoadedGuests};
use pg_cert::Family;
use pg_cmd_base::{Stop, load_images, load_machine, try_room};
use pg_cmd_certs::{JudgedMachine, load_certificate};
use pg_edge::Shelf;
use pg_image::Image;
use pg_mach_ready::Machine;
use sqlite_items::Items;
use std::alloc::Global;

/// What the files of a run hold, with a certificate of this family; or why a command goes no further. The machine has learned words
/// of the images, by how many steps each guest does.
pub fn load_guests<F: Shelf>(
    alloc: Global,
    family: Family,
    files: &GuestFiles<'_>,
    shelf: &mut F,
) -> Result<LoadedGuests, Stop>
    ensures comes { Comes loaded (GuestsDue family (guest_files files.now) (F.files shelf.old)) (F.reads shelf.old)
        (F.reads shelf.new) result }
    ensures accepts { IfOk result (λ l. verdict_on (judged l.judged) ≡ Accepted → IsAcceptedBy family l.judged.machine.desc) }
    ensures count { IfOk result (λ l. length l.images ≡ length files.now.images.now) }
    ensures room { IfOk result (λ l. files.now.kept + length l.images * files.now.grant ≤ l.judged.machine.desc.size) }
    ensures each { IfOk result (λ l. All (Fills l.judged.machine.desc.word files.now.grant) l.images) }
    ensures reads { OnlyReads F.Shelf shelf.old shelf.new }
{
    let machine = match load_machine(alloc, files.desc, shelf) {
        Ok(machine) => machine,
        Err(stop) => return Err(stop),
    };
    // At most 8 * 1,048,575.
    let wanted = files.images.len() as u32 * files.grant;
    match try_room(wanted, files.kept, machine.shape()) {
        Ok(()) => load_behind_room(alloc, family, files, machine, shelf),
        Err(stop) => Err(stop),
    }
}

/// Behind the room: the images, and what is behind them.
fn load_behind_room<F: Shelf>(
    alloc: Global,
    family: Family,
    files: &GuestFiles<'_>,
    machine: Machine,
    shelf: &mut F,
) -> Result<LoadedGuests, Stop>
    requires { files.now.kept + length files.now.images.now * files.now.grant ≤ machine.desc.size }
    ensures comes { Comes loaded (behind_room family (guest_files files.now) (F.files shelf.old) machine.desc)
        (F.reads shelf.old) (F.reads shelf.new) result }
    ensures accepts { IfOk result (λ l. verdict_on (judged l.judged) ≡ Accepted → IsAcceptedBy family l.judged.machine.desc) }
    ensures same { IfOk result (λ l. l.judged.machine.desc ≡ machine.desc) }
    ensures count { IfOk result (λ l. length l.images ≡ length files.now.images.now) }
    ensures each { IfOk result (λ l. All (Fills machine.desc.word files.now.grant) l.images) }
    ensures reads { OnlyReads F.Shelf shelf.old shelf.new }
{
    match load_images(alloc, files.images, machine.shape(), files.grant, shelf) {
        Ok(images) => load_behind_images(alloc, family, files, machine, images, shelf),
        Err(stop) => Err(stop),
    }
}

/// Behind the images: the certificate. Then the machine learns words of the images.
fn load_behind_images<F: Shelf>(
    alloc: Global,
    family: Family,
    files: &GuestFiles<'_>,
    machine: Machine,
    images: Items<Image>,
    shelf: &mut F,
) -> Result<LoadedGuests, Stop>
    ensures comes { Comes loaded (behind_images family (guest_files files.now) (F.files shelf.old) machine.desc images)
        (F.reads shelf.old) (F.reads shelf.new) result }
    ensures accepts { IfOk result (λ l. verdict_on (judged l.judged) ≡ Accepted → IsAcceptedBy family l.judged.machine.desc) }
    ensures same { IfOk result (λ l. l.judged.machine.desc ≡ machine.desc) }
    ensures images { IfOk result (λ l. l.images ≡ images) }
    ensures reads { OnlyReads F.Shelf shelf.old shelf.new }
{
    match load_certificate(alloc, family, &machine, files.cert, shelf) {
        Ok(report) => {
            let judged = JudgedMachine { machine, report };
            Ok(LoadedGuests {
                judged: judged.learned(alloc, images.as_slice(), files.steps),
                images,
            })
        }
        Err(stop) => Err(stop),
    }
}
