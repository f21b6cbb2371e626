//! The files to what there is to do, in the order of `pgv run` up to the certificate.

ghost use Rattle.std.specs.Prelude.{◌≡◌, ◌*◌, ◌+◌, ◌≤◌, All, length, IfOk, IfSome};
ghost use Rattle.pg_cert.specs.Verdicts.{kind_count};
ghost use Rattle.pg_report.specs.Verdicts.{DoMarkWordsFit};
ghost use Rattle.pg_cmd_base.specs.Answering.{Comes, OnlyReads};
ghost use Rattle.pg_prog_trace.specs.Plans.{kept_beside};
ghost use Rattle.pg_prog_trace.specs.Tracing.{TraceDue, trace_work};

use crate::plan::Plan;
use crate::prepare::prepare;
use crate::request::TraceWords;
use pg_cert::Report;
use pg_cmd_base::Stop;
use pg_edge::Shelf;
use pg_mon_control::KEPT_CELLS;
use pg_prog_base::load_either;
use std::alloc::Global;

/// What there is to do.
#[derive(Drop)]
pub struct Work {
    /// The run.
    pub plan: Plan,
    /// What is kept of the certificate of its machine, where one is named.
    pub report: Option<Report>,
}

/// What the words ask for; or why there is nothing to do.
pub fn load_work<F: Shelf>(alloc: Global, words: &TraceWords, shelf: &mut F) -> Result<Work, Stop>
    ensures comes { Comes trace_work (TraceDue words.now.cert words.now.bare (F.files shelf.old)) (F.reads shelf.old) (F.reads shelf.new) result }
    ensures whole { IfOk result (λ w. IfSome w.report (λ r. length r.marks ≡ length w.plan.machine.desc.instrs * kind_count r.family)) }
    ensures fit { IfOk result (λ w. IfSome w.report (λ r. All (DoMarkWordsFit w.plan.machine.desc.word) r.marks)) }
    ensures room { IfOk result (λ w. kept_beside words.now.cert + w.plan.grant ≤ w.plan.machine.desc.size) }
    ensures reads { OnlyReads F.Shelf shelf.old shelf.new }
{
    let plan = match prepare(alloc, kept_beside(words), &words.bare, shelf) {
        Ok(plan) => plan,
        Err(stop) => return Err(stop),
    };
    match &words.cert {
        None => Ok(Work { plan, report: None }),
        Some(cert) => match load_either(alloc, &plan.machine, cert, shelf) {
            Ok(report) => Ok(Work {
                plan,
                report: Some(report),
            }),
            Err(stop) => Err(stop),
        },
    }
}

/// How many cells a monitor keeps beside the run.
fn kept_beside(words: &TraceWords) -> u32
    ensures { result ≡ kept_beside words.now.cert }
{
    match words.cert {
        None => 0,
        Some(_) => KEPT_CELLS,
    }
}
