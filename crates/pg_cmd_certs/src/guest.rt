//! Files to one guest: what every command loads first that runs one image under monitors.
//!
//! The description is loaded, the room beside the cells of monitors is tried, the image is loaded, and then the certificate, in
//! the order of the definition (`GuestDue`, `specs/Guests.antt`). Each step hands what it has to the next, which goes on from
//! there: its contract is what comes from there on.

ghost use Rattle.std.specs.Prelude.{◌≡◌, ◌≤◌, ◌+◌, IfOk};
ghost use Rattle.pg_cert.specs.declared.report.Verdict.TheVariants.{Accepted};
ghost use Rattle.pg_cmd_base.specs.Images.{Fills};
ghost use Rattle.pg_cmd_certs.specs.GuestViews.{guest_source, loaded_guest};
ghost use Rattle.pg_cmd_certs.specs.Guests.{GuestDue, behind_image, behind_room};
ghost use Rattle.pg_cmd_certs.specs.Judged.{verdict_on};
ghost use Rattle.pg_cmd_certs.specs.Views.{judged};
ghost use Rattle.pg_cmd_base.specs.Answering.{Comes, OnlyReads};
ghost use Rattle.pg_type.specs.Accepting.{IsAccepted};

use crate::certified::load_certificate;
use crate::machine::JudgedMachine;
use crate::source::{GuestSource, LoadedGuest};
use pg_cert::Family;
use pg_cmd_base::{Stop, load_image, load_machine, try_room};
use pg_edge::Shelf;
use pg_image::Image;
use pg_mach_ready::Machine;
use std::alloc::Global;
use std::slice::from_ref;

/// What the files of one guest hold; or why a command goes no further.
pub fn load_guest<F: Shelf>(
    alloc: Global,
    source: &GuestSource<'_>,
    shelf: &mut F,
) -> Result<LoadedGuest, Stop>
    ensures comes { Comes loaded_guest (GuestDue (guest_source source.now) (F.files shelf.old)) (F.reads shelf.old)
        (F.reads shelf.new) result }
    ensures accepts { IfOk result (λ l. verdict_on (judged l.judged) ≡ Accepted → IsAccepted l.judged.machine.desc) }
    ensures room { IfOk result (λ l. source.now.kept + source.now.grant ≤ l.judged.machine.desc.size) }
    ensures fills { IfOk result (λ l. Fills l.judged.machine.desc.word source.now.grant l.image) }
    ensures reads { OnlyReads F.Shelf shelf.old shelf.new }
{
    let machine = match load_machine(alloc, source.desc, shelf) {
        Ok(machine) => machine,
        Err(stop) => return Err(stop),
    };
    match try_room(source.grant, source.kept, machine.shape()) {
        Ok(()) => load_behind_room(alloc, source, machine, shelf),
        Err(stop) => Err(stop),
    }
}

/// Behind the room: the image, and what is behind it.
fn load_behind_room<F: Shelf>(
    alloc: Global,
    source: &GuestSource<'_>,
    machine: Machine,
    shelf: &mut F,
) -> Result<LoadedGuest, Stop>
    requires { source.now.kept + source.now.grant ≤ machine.desc.size }
    ensures comes { Comes loaded_guest (behind_room (guest_source source.now) (F.files shelf.old) machine.desc)
        (F.reads shelf.old) (F.reads shelf.new) result }
    ensures accepts { IfOk result (λ l. verdict_on (judged l.judged) ≡ Accepted → IsAccepted l.judged.machine.desc) }
    ensures same { IfOk result (λ l. l.judged.machine.desc ≡ machine.desc) }
    ensures fills { IfOk result (λ l. Fills machine.desc.word source.now.grant l.image) }
    ensures reads { OnlyReads F.Shelf shelf.old shelf.new }
{
    match load_image(alloc, 0, source.image, machine.shape(), source.grant, shelf) {
        Ok(image) => load_behind_image(alloc, source, machine, image, shelf),
        Err(stop) => Err(stop),
    }
}

/// Behind the image: the certificate. Then the machine learns words of the image.
fn load_behind_image<F: Shelf>(
    alloc: Global,
    source: &GuestSource<'_>,
    machine: Machine,
    image: Image,
    shelf: &mut F,
) -> Result<LoadedGuest, Stop>
    ensures comes { Comes loaded_guest (behind_image (guest_source source.now) (F.files shelf.old) machine.desc image)
        (F.reads shelf.old) (F.reads shelf.new) result }
    ensures accepts { IfOk result (λ l. verdict_on (judged l.judged) ≡ Accepted → IsAccepted l.judged.machine.desc) }
    ensures same { IfOk result (λ l. l.judged.machine.desc ≡ machine.desc) }
    ensures image { IfOk result (λ l. l.image ≡ image) }
    ensures reads { OnlyReads F.Shelf shelf.old shelf.new }
{
    match load_certificate(alloc, Family::Plain, &machine, source.cert, shelf) {
        Ok(report) => {
            let judged = JudgedMachine { machine, report };
            Ok(LoadedGuest {
                judged: judged.learned(alloc, from_ref(&image), source.steps),
                image,
            })
        }
        Err(stop) => Err(stop),
    }
}
