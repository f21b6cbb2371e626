//! The files of a run, to guests that can run.

ghost use Rattle.std.specs.Prelude.{◌≡◌, IfOk};
ghost use Rattle.pg_cert.specs.declared.cert.Family.TheVariants.{Plain};
ghost use Rattle.pg_cert.specs.declared.report.Verdict.TheVariants.{Accepted};
ghost use Rattle.pg_cmd_certs.specs.Judged.{verdict_on};
ghost use Rattle.pg_cmd_certs.specs.Meaning.{IsAcceptedBy};
ghost use Rattle.pg_cmd_certs.specs.Views.{judged};
ghost use Rattle.pg_cmd_base.specs.Answering.{Comes, OnlyReads};
ghost use Rattle.pg_prog_go.specs.Going.{GoDue};
ghost use Rattle.pg_prog_go.specs.Plans.{judged_go};

use crate::plan::GoPlan;
use crate::request::GoWords;
use pg_cert::Family;
use pg_cmd_base::Stop;
use pg_cmd_run::{GuestFiles, load_guests};
use pg_edge::Shelf;
use pg_mon_control::KEPT_CELLS;
use std::alloc::Global;

/// The run that is to be done; or why there is none.
pub(crate) fn prepare_go<F: Shelf>(
    alloc: Global,
    words: &GoWords,
    shelf: &mut F,
) -> Result<GoPlan, Stop>
    ensures comes { Comes judged_go (GoDue words.now (F.files shelf.old)) (F.reads shelf.old) (F.reads shelf.new) result }
    ensures accepts { IfOk result (λ p. verdict_on (judged p.judged) ≡ Accepted → IsAcceptedBy Plain p.judged.machine.desc) }
    ensures reads { OnlyReads F.Shelf shelf.old shelf.new }
{
    let files = GuestFiles {
        desc: &words.desc,
        images: words.images.as_slice(),
        cert: &words.cert,
        grant: words.grant.cells(),
        kept: KEPT_CELLS,
        steps: words.steps.count,
    };
    match load_guests(alloc, Family::Plain, &files, shelf) {
        Ok(loaded) => Ok(GoPlan {
            judged: loaded.judged,
            images: loaded.images,
            grant: files.grant,
            slice: words.slice.steps(),
            steps: files.steps,
        }),
        Err(stop) => Err(stop),
    }
}
