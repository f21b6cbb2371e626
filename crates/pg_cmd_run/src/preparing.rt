//! Runs of images, made ready: under a monitor, or under a hybrid one, by a certificate of its family.

ghost use Rattle.std.specs.Prelude.{◌≡◌, IfOk};
ghost use Rattle.pg_cert.specs.declared.report.Verdict.TheVariants.{Accepted};
ghost use Rattle.pg_cmd_certs.specs.Judged.{verdict_on};
ghost use Rattle.pg_cmd_certs.specs.Meaning.{IsAcceptedBy};
ghost use Rattle.pg_cmd_certs.specs.Views.{judged};
ghost use Rattle.pg_cmd_base.specs.Answering.{Comes, OnlyReads};
ghost use Rattle.pg_cmd_run.specs.Plans.{judged_run};
ghost use Rattle.pg_cmd_run.specs.Run.{RunDue};

use crate::files::GuestFiles;
use crate::loading::load_guests;
use crate::plan::RunPlan;
use pg_cert::Family;
use pg_cli_table::RunWords;
use pg_cmd_base::Stop;
use pg_edge::Shelf;
use pg_mon_control::KEPT_CELLS;
use std::alloc::Global;

/// The run that is to be done, with a certificate of this family of its machine; or why there is none.
pub(crate) fn prepare_run<F: Shelf>(
    alloc: Global,
    family: Family,
    words: &RunWords,
    shelf: &mut F,
) -> Result<RunPlan, Stop>
    ensures comes { Comes judged_run (RunDue family words.now (F.files shelf.old)) (F.reads shelf.old) (F.reads shelf.new) result }
    ensures accepts { IfOk result (λ p. verdict_on (judged p.judged) ≡ Accepted → IsAcceptedBy family p.judged.machine.desc) }
    ensures reads { OnlyReads F.Shelf shelf.old shelf.new }
{
    let files = GuestFiles {
        desc: &words.desc,
        images: words.images.as_slice(),
        cert: &words.cert,
        grant: words.grant.cells(),
        kept: KEPT_CELLS,
        steps: words.steps.count(),
    };
    match load_guests(alloc, family, &files, shelf) {
        Ok(loaded) => Ok(RunPlan {
            judged: loaded.judged,
            images: loaded.images,
            grant: files.grant,
            slice: words.slice.steps(),
            steps: files.steps,
        }),
        Err(stop) => Err(stop),
    }
}
