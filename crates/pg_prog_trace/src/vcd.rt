//! A run as a value change dump.

ghost use Rattle.std.specs.Prelude.{◌≡◌, ◌*◌, All, IfSome, IsErrOf, OnOk, Some, length};
ghost use Rattle.pg_cert.specs.Verdicts.{kind_count};
ghost use Rattle.pg_edge.specs.Count.{Rose};
ghost use Rattle.pg_report.specs.Verdicts.{DoMarkWordsFit};
ghost use Rattle.pg_cmd_base.specs.Able.{IsAble};
ghost use Rattle.pg_cmd_base.specs.Answering.{OnlyReads};
ghost use Rattle.pg_cmd_base.specs.Classes.{class_of};
ghost use Rattle.pg_cmd_base.specs.World.{around, output};
ghost use Rattle.pg_cmd_base.specs.declared.status.Status.TheVariants as status;
ghost use Rattle.pg_prog_trace.specs.Dumped.{IsDumped, IsWorkDumped, PutsDump};
ghost use Rattle.pg_prog_trace.specs.Plans.{planned_run};
ghost use Rattle.pg_prog_trace.specs.Tracing.{FormLeaves, TracesForm, trace_work};

use crate::carry::{ended, tell_refused};
use crate::monitor::monitor_of;
use crate::plan::Plan;
use crate::request::{TraceWords, Until};
use crate::until::part_of;
use crate::work::{Work, load_work};
use pg_cert::Report;
use pg_cmd_base::{Status, StopWatcher, stopped};
use pg_cmd_certs::is_accepted;
use pg_edge::{Shelf, Sink};
use pg_hw::Hardware;
use pg_out_steps::{Monitor, TraceFault, put_dump};
use std::alloc::Global;

/// Runs what the words ask for, and puts its dump; refusals are those of the text, and so is the verdict of a certificate that does
/// not accept the machine. No file is saved.
pub fn carry_vcd<F: Shelf, S: Sink, H: Hardware, W: StopWatcher>(
    alloc: Global,
    words: &TraceWords,
    shelf: &mut F,
    out: &mut S,
    hw: &mut H,
    watcher: &mut W,
) -> Status
    requires able { IsAble H.Hardware hw.old }
    ensures dumped { result ≡ status.Done → IsDumped words.now (F.files shelf.old) (S.written out.old) (S.written out.new)
        (H.machinery hw.new).state }
    ensures form { TracesForm words.now (around F.Shelf S.Sink H.Hardware shelf.old out.old hw.old)
        (around F.Shelf S.Sink H.Hardware shelf.new out.new hw.new) result }
    ensures reads { OnlyReads F.Shelf shelf.old shelf.new }
{
    match load_work(alloc, words, shelf) {
        Ok(work) => dump_work(alloc, work, words.until, hw, out),
        Err(stop) => stopped(&stop, out, watcher),
    }
}

/// Does the work, and puts its dump.
fn dump_work<S: Sink, H: Hardware>(
    alloc: Global,
    work: Work,
    until: Option<Until>,
    hw: &mut H,
    out: &mut S,
) -> Status
    requires able { IsAble H.Hardware hw.old }
    requires whole { IfSome work.report (λ r. length r.marks ≡ length work.plan.machine.desc.instrs * kind_count r.family) }
    requires fit { IfSome work.report (λ r. All (DoMarkWordsFit work.plan.machine.desc.word) r.marks) }
    ensures dumped { result ≡ status.Done → IsWorkDumped until (trace_work work) (S.written out.old) (S.written out.new) (H.machinery hw.new).state }
    ensures left { FormLeaves (trace_work work) (output S.Sink out.old) (output S.Sink out.new) (H.machinery hw.old) (H.machinery hw.new)
        result (class_of result) }
{
    let Work { plan, report } = work;
    match report {
        None => ended(dump_part(alloc, plan, until, hw, out, None)),
        Some(report) => dump_judged(alloc, plan, report, until, hw, out),
    }
}

/// The same under a monitor, where a certificate says that one may run the machine; else puts the verdict.
fn dump_judged<S: Sink, H: Hardware>(
    alloc: Global,
    plan: Plan,
    report: Report,
    until: Option<Until>,
    hw: &mut H,
    out: &mut S,
) -> Status
    requires able { IsAble H.Hardware hw.old }
    requires whole { length report.marks ≡ length plan.machine.desc.instrs * kind_count report.family }
    requires fit { All (DoMarkWordsFit plan.machine.desc.word) report.marks }
    ensures dumped { result ≡ status.Done → IsWorkDumped until (record { run = planned_run plan; report = Some report }) (S.written out.old)
        (S.written out.new) (H.machinery hw.new).state }
    ensures left { FormLeaves (record { run = planned_run plan; report = Some report }) (output S.Sink out.old) (output S.Sink out.new)
        (H.machinery hw.old) (H.machinery hw.new) result (class_of result) }
{
    if !is_accepted(report.verdict()) {
        return tell_refused(plan, report, out);
    }
    let monitor = monitor_of(report.family);
    ended(dump_part(alloc, plan, until, hw, out, Some(monitor)))
}

/// Runs a plan, up to where a condition first holds if one is named, and puts the dump of what was run.
fn dump_part<S: Sink, H: Hardware>(
    alloc: Global,
    plan: Plan,
    until: Option<Until>,
    hw: &mut H,
    out: &mut S,
    monitor: Option<Monitor>,
) -> Result<(), TraceFault>
    requires able { IsAble H.Hardware hw.old }
    ensures put { OnOk result (PutsDump monitor until (planned_run plan) (S.written out.old) (S.written out.new) (H.machinery hw.new).state) }
    ensures cause { IsErrOf result TraceFault.Output → Rose (S.faults out.old) (S.faults out.new) }
{
    let part = part_of(plan, until, hw)?;
    let image = part.image.as_slice();
    put_dump(alloc, &part.machine, image, hw, out, part.steps, monitor)
}
