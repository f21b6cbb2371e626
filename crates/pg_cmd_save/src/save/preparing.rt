//! A run that is to be saved: what is loaded for it.

ghost use Rattle.std.specs.Prelude.{◌≡◌, IfOk};
ghost use Rattle.pg_cert.specs.declared.report.Verdict.TheVariants.{Accepted};
ghost use Rattle.pg_cmd_certs.specs.Judged.{verdict_on};
ghost use Rattle.pg_cmd_certs.specs.Views.{judged};
ghost use Rattle.pg_cmd_base.specs.Answering.{Comes, OnlyReads};
ghost use Rattle.pg_cmd_save.specs.Plans.{save_run};
ghost use Rattle.pg_cmd_save.specs.Save.{SaveDue};
ghost use Rattle.pg_type.specs.Accepting.{IsAccepted};

use super::plan::SavePlan;
use pg_cli_table::SaveWords;
use pg_cmd_base::Stop;
use pg_cmd_certs::{GuestSource, load_guest};
use pg_edge::Shelf;
use pg_mon_control::KEPT_CELLS;
use std::alloc::Global;

/// The run that is to be done and saved; or why there is none.
pub(crate) fn prepare_save<F: Shelf>(
    alloc: Global,
    words: &SaveWords,
    shelf: &mut F,
) -> Result<SavePlan, Stop>
    ensures comes { Comes save_run (SaveDue words.now (F.files shelf.old)) (F.reads shelf.old) (F.reads shelf.new) result }
    ensures accepts { IfOk result (λ p. verdict_on (judged p.judged) ≡ Accepted → IsAccepted p.judged.machine.desc) }
    ensures reads { OnlyReads F.Shelf shelf.old shelf.new }
{
    let source = GuestSource {
        desc: &words.desc,
        image: &words.image,
        cert: &words.cert,
        grant: words.grant.cells(),
        kept: KEPT_CELLS,
        steps: words.steps.count(),
    };
    match load_guest(alloc, &source, shelf) {
        Ok(loaded) => Ok(SavePlan {
            judged: loaded.judged,
            image: loaded.image,
            grant: source.grant,
            steps: source.steps as u32,
        }),
        Err(stop) => Err(stop),
    }
}
