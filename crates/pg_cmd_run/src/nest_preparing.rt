//! A run under one to four monitors: what is loaded for it.

ghost use Rattle.std.specs.Prelude.{◌≡◌, IfOk};
ghost use Rattle.pg_cert.specs.declared.report.Verdict.TheVariants.{Accepted};
ghost use Rattle.pg_cmd_certs.specs.Judged.{verdict_on};
ghost use Rattle.pg_cmd_certs.specs.Views.{judged};
ghost use Rattle.pg_cmd_base.specs.Answering.{Comes, OnlyReads};
ghost use Rattle.pg_cmd_run.specs.Nest.{NestDue};
ghost use Rattle.pg_cmd_run.specs.NestPlans.{nest_run};
ghost use Rattle.pg_type.specs.Accepting.{IsAccepted};

use crate::nest_plan::NestPlan;
use pg_cli_table::NestWords;
use pg_cmd_base::Stop;
use pg_cmd_certs::{GuestSource, load_guest};
use pg_edge::Shelf;
use pg_mon_control::KEPT_CELLS;
use std::alloc::Global;

/// The run that is to be done; or why there is none. Its guest wants room beside the cells of all monitors.
pub(crate) fn prepare_nest<F: Shelf>(
    alloc: Global,
    words: &NestWords,
    shelf: &mut F,
) -> Result<NestPlan, Stop>
    ensures comes { Comes nest_run (NestDue words.now (F.files shelf.old)) (F.reads shelf.old) (F.reads shelf.new) result }
    ensures accepts { IfOk result (λ p. verdict_on (judged p.judged) ≡ Accepted → IsAccepted p.judged.machine.desc) }
    ensures reads { OnlyReads F.Shelf shelf.old shelf.new }
{
    let depth = words.depth.monitors();
    let source = GuestSource {
        desc: &words.desc,
        image: &words.image,
        cert: &words.cert,
        grant: words.grant.cells(),
        kept: KEPT_CELLS * depth,
        steps: words.steps.count(),
    };
    match load_guest(alloc, &source, shelf) {
        Ok(loaded) => Ok(NestPlan {
            judged: loaded.judged,
            image: loaded.image,
            grant: source.grant,
            depth,
            steps: source.steps,
        }),
        Err(stop) => Err(stop),
    }
}
