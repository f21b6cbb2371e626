//! A run as JSON: `docs/DATA.md` has its keys.

ghost use Rattle.std.specs.Prelude.{◌≡◌, ◌*◌, ◌≤◌, All, IfSome, IsErrOf, OnOk, Some, length};
ghost use Rattle.pg_ast.specs.declared.tree.Desc.{Desc};
ghost use Rattle.pg_cert.specs.Verdicts.{kind_count};
ghost use Rattle.pg_edge.specs.Count.{Rose};
ghost use Rattle.pg_report.specs.Verdicts.{DoMarkWordsFit};
ghost use Rattle.pg_cmd_base.specs.Able.{IsAble};
ghost use Rattle.pg_cmd_base.specs.Answering.{OnlyReads};
ghost use Rattle.pg_cmd_base.specs.Classes.{class_of};
ghost use Rattle.pg_cmd_base.specs.World.{around, output};
ghost use Rattle.pg_cmd_plain.specs.Bare.{reached};
ghost use Rattle.pg_lang_valid.specs.Valid.{IsValid};
ghost use Rattle.pg_prog_trace.specs.Plans.{planned_run};
ghost use Rattle.pg_prog_trace.specs.Tracing.{FormLeaves, TracesForm, trace_work};

use crate::carry::{ended, tell_refused};
use crate::monitor::monitor_of;
use crate::plan::Plan;
use crate::request::{TraceWords, Until};
use crate::until::part_of;
use crate::work::{Work, load_work};
use pg_cert::Report;
use pg_cli_version::VERSION;
use pg_cmd_base::{Status, StopWatcher, stopped};
use pg_cmd_certs::is_accepted;
use pg_edge::{Shelf, Sink};
use pg_hw::Hardware;
use pg_out_json::{push_head, push_string, put_run};
use pg_out_place::Text;
use pg_out_steps::{Monitor, TraceFault};
use std::alloc::Global;

/// Runs what the words ask for, and puts it as JSON; refusals are those of the text, and so is the verdict of a certificate that does
/// not accept the machine. No file is saved.
pub fn carry_json<F: Shelf, S: Sink, H: Hardware, W: StopWatcher>(
    alloc: Global,
    words: &TraceWords,
    shelf: &mut F,
    out: &mut S,
    hw: &mut H,
    watcher: &mut W,
) -> Status
    requires able { IsAble H.Hardware hw.old }
    ensures form { TracesForm words.now (around F.Shelf S.Sink H.Hardware shelf.old out.old hw.old)
        (around F.Shelf S.Sink H.Hardware shelf.new out.new hw.new) result }
    ensures reads { OnlyReads F.Shelf shelf.old shelf.new }
{
    match load_work(alloc, words, shelf) {
        Ok(work) => put_work(alloc, work, words.until, hw, out),
        Err(stop) => stopped(&stop, out, watcher),
    }
}

/// Does the work, and puts it.
fn put_work<S: Sink, H: Hardware>(
    alloc: Global,
    work: Work,
    until: Option<Until>,
    hw: &mut H,
    out: &mut S,
) -> Status
    requires able { IsAble H.Hardware hw.old }
    requires whole { IfSome work.report (λ r. length r.marks ≡ length work.plan.machine.desc.instrs * kind_count r.family) }
    requires fit { IfSome work.report (λ r. All (DoMarkWordsFit work.plan.machine.desc.word) r.marks) }
    ensures { FormLeaves (trace_work work) (output S.Sink out.old) (output S.Sink out.new) (H.machinery hw.old) (H.machinery hw.new) result
        (class_of result) }
{
    let Work { plan, report } = work;
    match report {
        None => ended(put_part(alloc, plan, until, hw, out, None)),
        Some(report) => carry_accepted(alloc, plan, report, until, hw, out),
    }
}

/// The same under a monitor, where a certificate says that one may run the machine.
fn carry_accepted<S: Sink, H: Hardware>(
    alloc: Global,
    plan: Plan,
    report: Report,
    until: Option<Until>,
    hw: &mut H,
    out: &mut S,
) -> Status
    requires able { IsAble H.Hardware hw.old }
    requires whole { length report.marks ≡ length plan.machine.desc.instrs * kind_count report.family }
    requires fit { All (DoMarkWordsFit plan.machine.desc.word) report.marks }
    ensures { FormLeaves (record { run = planned_run plan; report = Some report }) (output S.Sink out.old) (output S.Sink out.new)
        (H.machinery hw.old) (H.machinery hw.new) result (class_of result) }
{
    if !is_accepted(report.verdict()) {
        return tell_refused(plan, report, out);
    }
    let monitor = monitor_of(report.family);
    ended(put_part(alloc, plan, until, hw, out, Some(monitor)))
}

/// Runs a plan, up to where a condition first holds if one is named, and puts what was run.
fn put_part<S: Sink, H: Hardware>(
    alloc: Global,
    plan: Plan,
    until: Option<Until>,
    hw: &mut H,
    out: &mut S,
    monitor: Option<Monitor>,
) -> Result<(), TraceFault>
    requires able { IsAble H.Hardware hw.old }
    ensures cause { IsErrOf result TraceFault.Output → Rose (S.faults out.old) (S.faults out.new) }
{
    let part = part_of(plan, until, hw)?;
    put_json(alloc, &part, hw, out, monitor)
}

/// Runs a plan, and puts it.
fn put_json<S: Sink, H: Hardware>(
    alloc: Global,
    plan: &Plan,
    hw: &mut H,
    out: &mut S,
    monitor: Option<Monitor>,
) -> Result<(), TraceFault>
    requires serves { (d : Desc) → IsValid d → H.serves (H.fixed hw.old) d }
    requires room { 1048575 ≤ H.room (H.fixed hw.old) }
    ensures reached { OnOk result ((H.machinery hw.new).state ≡ reached (planned_run plan.now)) }
    ensures cause { IsErrOf result TraceFault.Output → Rose (S.faults out.old) (S.faults out.new) }
{
    let mut text = Text::new(alloc);
    push_begin(&mut text, plan, monitor);
    let image = plan.image.as_slice();
    put_run(
        alloc,
        &plan.machine,
        image,
        hw,
        out,
        &mut text,
        plan.steps,
        monitor,
    )
}

/// Pushes what stands before the pieces of a run.
fn push_begin(text: &mut Text, plan: &Plan, monitor: Option<Monitor>) {
    push_head(text, b"pg_trace", VERSION, &plan.machine);
    text.push(b",\n\"grant\":");
    text.push_number(u64::from(plan.grant));
    text.push(b",\"steps\":");
    text.push_number(plan.steps);
    match monitor {
        None => {}
        Some(monitor) => {
            text.push(b",\"monitor\":");
            push_string(text, monitor_name(monitor));
        }
    }
}

/// The command of a monitor.
fn monitor_name(monitor: Monitor) -> &'static [u8] {
    match monitor {
        Monitor::Plain => b"run",
        Monitor::Hybrid => b"hybrid",
    }
}
