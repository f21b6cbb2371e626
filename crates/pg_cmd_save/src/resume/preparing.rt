//! A saved guest that is to go on: what is loaded for it.
//!
//! The description is loaded, the saved guest is read, the room is tried, and then the certificate is loaded, in the order of the
//! definition (`ResumeDue`, `specs/Resume.antt`). Each step hands what it has to the next, which goes on from there: its contract
//! is what comes from there on.

ghost use Rattle.std.specs.Prelude.{◌≡◌, ◌≤◌, ◌+◌, IfOk};
ghost use Rattle.pg_alloc.specs.Fit.{kept_cells};
ghost use Rattle.pg_cert.specs.declared.report.Verdict.TheVariants.{Accepted};
ghost use Rattle.pg_cmd_certs.specs.Judged.{verdict_on};
ghost use Rattle.pg_cmd_certs.specs.Views.{judged};
ghost use Rattle.pg_lang_meaning.specs.States.{shape_of};
ghost use Rattle.pg_move.specs.Seen.{guest_of};
ghost use Rattle.pg_move.specs.Texts.{IsSaved};
ghost use Rattle.pg_cmd_base.specs.Answering.{Comes, OnlyReads};
ghost use Rattle.pg_cmd_save.specs.Plans.{resume_run};
ghost use Rattle.pg_cmd_save.specs.Resume.{ResumeDue, behind_desc, behind_room};
ghost use Rattle.pg_type.specs.Accepting.{IsAccepted};

use super::plan::ResumePlan;
use crate::saved::load_saved;
use pg_cert::Family;
use pg_cli_table::ResumeWords;
use pg_cmd_base::{Stop, load_machine, try_room};
use pg_cmd_certs::{JudgedMachine, load_certificate};
use pg_edge::Shelf;
use pg_image::Image;
use pg_mach_ready::Machine;
use pg_mon_control::KEPT_CELLS;
use pg_move::Saved;
use sqlite_items::Items;
use std::alloc::Global;
use std::slice::from_ref;

/// The guest that is to go on; or why there is none.
pub(crate) fn prepare_resume<F: Shelf>(
    alloc: Global,
    words: &ResumeWords,
    shelf: &mut F,
) -> Result<ResumePlan, Stop>
    ensures comes { Comes resume_run (ResumeDue words.now (F.files shelf.old)) (F.reads shelf.old) (F.reads shelf.new) result }
    ensures accepts { IfOk result (λ p. verdict_on (judged p.judged) ≡ Accepted → IsAccepted p.judged.machine.desc) }
    ensures reads { OnlyReads F.Shelf shelf.old shelf.new }
{
    match load_machine(alloc, &words.desc, shelf) {
        Ok(machine) => load_behind_machine(alloc, words, machine, shelf),
        Err(stop) => Err(stop),
    }
}

/// Behind the machine: the saved guest, the room, and what is behind that.
fn load_behind_machine<F: Shelf>(
    alloc: Global,
    words: &ResumeWords,
    machine: Machine,
    shelf: &mut F,
) -> Result<ResumePlan, Stop>
    ensures comes { Comes resume_run (behind_desc words.now (F.files shelf.old) machine.desc) (F.reads shelf.old)
        (F.reads shelf.new) result }
    ensures accepts { IfOk result (λ p. verdict_on (judged p.judged) ≡ Accepted → IsAccepted p.judged.machine.desc) }
    ensures reads { OnlyReads F.Shelf shelf.old shelf.new }
{
    let saved = match load_saved(alloc, &words.saved, &machine, shelf) {
        Ok(saved) => saved,
        Err(stop) => return Err(stop),
    };
    // At most twice 1,048,575.
    let wanted = saved.state.size + words.skip.cells();
    match try_room(wanted, KEPT_CELLS, machine.shape()) {
        Ok(()) => load_behind_room(alloc, words, machine, saved, shelf),
        Err(stop) => Err(stop),
    }
}

/// Behind the room: the certificate. Then the machine learns words of the guest.
fn load_behind_room<F: Shelf>(
    alloc: Global,
    words: &ResumeWords,
    machine: Machine,
    saved: Saved,
    shelf: &mut F,
) -> Result<ResumePlan, Stop>
    requires saved { IsSaved (shape_of machine.desc) (guest_of saved) }
    requires room { kept_cells + (saved.state.size + words.now.skip) ≤ machine.desc.size }
    ensures comes { Comes resume_run (behind_room words.now (F.files shelf.old) machine.desc (guest_of saved))
        (F.reads shelf.old) (F.reads shelf.new) result }
    ensures accepts { IfOk result (λ p. verdict_on (judged p.judged) ≡ Accepted → IsAccepted p.judged.machine.desc) }
    ensures reads { OnlyReads F.Shelf shelf.old shelf.new }
{
    let (skip, steps) = (words.skip.cells(), words.steps.count());
    match load_certificate(alloc, Family::Plain, &machine, &words.cert, shelf) {
        Ok(report) => {
            let judged = JudgedMachine { machine, report };
            Ok(ResumePlan {
                judged: knowing(alloc, judged, &saved, steps),
                saved,
                skip,
                steps,
            })
        }
        Err(stop) => Err(stop),
    }
}

/// The same machine, which knows words of the cells of a guest that does so many steps. Where memory is refused, it knows none.
fn knowing(alloc: Global, told: JudgedMachine, saved: &Saved, steps: u64) -> JudgedMachine
    ensures { judged result ≡ judged told }
{
    match words_of(alloc, saved) {
        Some(image) => told.learned(alloc, from_ref(&image), steps),
        None => told,
    }
}

/// The words of the cells of a guest that are not zero; `None` where memory is refused.
fn words_of(alloc: Global, saved: &Saved) -> Option<Image> {
    let mut words = Items::new(alloc);
    for cell in saved.state.cells.as_slice() {
        match words.push(cell.1) {
            Ok(()) => {}
            Err(_) => return None,
        }
    }
    Some(words)
}
