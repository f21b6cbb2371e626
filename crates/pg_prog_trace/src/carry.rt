//! The run, and its text.

ghost use Rattle.std.specs.Prelude.{◌≡◌, ◌*◌, ◌++◌, ◌≤◌, All, IfErr, IfSome, IsErrOf, OnErr, OnOk, Some, length};
ghost use Rattle.pg_ast.specs.declared.tree.Desc.{Desc};
ghost use Rattle.pg_cert.specs.Verdicts.{kind_count};
ghost use Rattle.pg_cmd_certs.specs.Telling.{ToldAs};
ghost use Rattle.pg_report.specs.Verdicts.{DoMarkWordsFit};
ghost use Rattle.pg_edge.specs.Count.{Rose};
ghost use Rattle.pg_cmd_base.specs.Able.{IsAble};
ghost use Rattle.pg_cmd_base.specs.Answering.{OnlyReads};
ghost use Rattle.pg_cmd_base.specs.Classes.{class_of};
ghost use Rattle.pg_cmd_base.specs.World.{around, output};
ghost use Rattle.pg_cmd_base.specs.declared.status.Status.TheVariants as status;
ghost use Rattle.pg_cmd_plain.specs.Bare.{reached};
ghost use Rattle.pg_out_steps.specs.Putting.{PutsUpTo};
ghost use Rattle.pg_lang_valid.specs.Valid.{IsValid};
ghost use Rattle.pg_prog_trace.specs.Done.{IsShown, PutsText, has_state, ended_as, reached_text, end_text, all_counts, handled_text};
ghost use Rattle.pg_prog_trace.specs.Plans.{planned_run};
ghost use Rattle.pg_prog_trace.specs.Tracing.{BreaksPart, PutsFront, PutsPart, Traces, WorkLeaves, trace_work};

use crate::monitor::monitor_of;
use crate::plan::Plan;
use crate::request::{TraceWords, Until};
use crate::until::part_of;
use crate::work::{Work, load_work};
use pg_cert::Report;
use pg_cmd_base::{Status, StopWatcher, stopped};
use pg_cmd_certs::{JudgedMachine, is_accepted, tell_verdict};
use pg_edge::{Shelf, Sink};
use pg_hw::Hardware;
use pg_mach_ready::Machine;
use pg_out_steps::{
    Monitor, Shows, Tally, Telling, TraceFault, push_counts, push_shares, trace_bare,
};
use pg_report::{put_state, put_text};
use std::alloc::{AllocError, Global};

/// Runs what the words ask for, and puts its text; or the verdict of the certificate that they name, where it does not accept the
/// machine. No file is saved.
pub fn carry<F: Shelf, S: Sink, H: Hardware, W: StopWatcher>(
    alloc: Global,
    words: &TraceWords,
    shelf: &mut F,
    out: &mut S,
    hw: &mut H,
    watcher: &mut W,
) -> Status
    requires able { IsAble H.Hardware hw.old }
    ensures done { result ≡ status.Done → IsShown words.now (F.files shelf.old) (H.machinery hw.new).state (S.written out.old) (S.written out.new) }
    ensures traces { Traces words.now (around F.Shelf S.Sink H.Hardware shelf.old out.old hw.old)
        (around F.Shelf S.Sink H.Hardware shelf.new out.new hw.new) result }
    ensures reads { OnlyReads F.Shelf shelf.old shelf.new }
    ensures later { S.faults out.old ≤ S.faults out.new }
{
    match load_work(alloc, words, shelf) {
        Ok(work) => carry_work(alloc, work, words, hw, out),
        Err(stop) => stopped(&stop, out, watcher),
    }
}

/// What is told of a run.
fn told_of(shows: Shows, monitor: Option<Monitor>) -> Telling
    ensures { result ≡ record { shows = shows; monitor = monitor } }
{
    Telling { shows, monitor }
}

/// Does the work, and puts its text.
fn carry_work<S: Sink, H: Hardware>(
    alloc: Global,
    work: Work,
    words: &TraceWords,
    hw: &mut H,
    out: &mut S,
) -> Status
    requires able { IsAble H.Hardware hw.old }
    requires whole { IfSome work.report (λ r. length r.marks ≡ length work.plan.machine.desc.instrs * kind_count r.family) }
    requires fit { IfSome work.report (λ r. All (DoMarkWordsFit work.plan.machine.desc.word) r.marks) }
    ensures left { WorkLeaves words.now.shows words.now.until (trace_work work) (output S.Sink out.old) (output S.Sink out.new)
        (H.machinery hw.old) (H.machinery hw.new) result (class_of result) }
    ensures later { S.faults out.old ≤ S.faults out.new }
{
    let Work { plan, report } = work;
    match report {
        None => {
            let telling = told_of(words.shows, None);
            ended(put_part(alloc, plan, words.until, hw, out, telling))
        }
        Some(report) => carry_judged(alloc, plan, report, words, hw, out),
    }
}

/// Runs a plan where a certificate says that a monitor may run its machine, and puts its text with what the monitor would do; else
/// puts the verdict.
fn carry_judged<S: Sink, H: Hardware>(
    alloc: Global,
    plan: Plan,
    report: Report,
    words: &TraceWords,
    hw: &mut H,
    out: &mut S,
) -> Status
    requires able { IsAble H.Hardware hw.old }
    requires whole { length report.marks ≡ length plan.machine.desc.instrs * kind_count report.family }
    requires fit { All (DoMarkWordsFit plan.machine.desc.word) report.marks }
    ensures left { WorkLeaves words.now.shows words.now.until (record { run = planned_run plan; report = Some report })
        (output S.Sink out.old) (output S.Sink out.new) (H.machinery hw.old) (H.machinery hw.new) result (class_of result) }
    ensures later { S.faults out.old ≤ S.faults out.new }
{
    if !is_accepted(report.verdict()) {
        return tell_refused(plan, report, out);
    }
    let telling = told_of(words.shows, Some(monitor_of(report.family)));
    ended(put_part(alloc, plan, words.until, hw, out, telling))
}

/// Tells the verdict of a certificate of the machine of a plan.
pub fn tell_refused<S: Sink>(plan: Plan, report: Report, out: &mut S) -> Status
    requires whole { length report.marks ≡ length plan.machine.desc.instrs * kind_count report.family }
    requires fit { All (DoMarkWordsFit plan.machine.desc.word) report.marks }
    ensures told { ToldAs (record { desc = plan.machine.desc; report = report }) (output S.Sink out.old) (output S.Sink out.new) result (class_of result) }
    ensures later { S.faults out.old ≤ S.faults out.new }
{
    let Plan { machine, .. } = plan;
    tell_verdict(out, &JudgedMachine { machine, report })
}

/// How the program ends, by how the text was put.
pub fn ended(put: Result<(), TraceFault>) -> Status
    ensures { result ≡ ended_as put }
{
    match put {
        Ok(()) => Status::Done,
        Err(TraceFault::Output) => Status::WriteFault,
        Err(TraceFault::Memory) => Status::Memory,
    }
}

/// Runs a plan, up to where a condition first holds if one is named, and puts the text of what was run.
fn put_part<S: Sink, H: Hardware>(
    alloc: Global,
    plan: Plan,
    until: Option<Until>,
    hw: &mut H,
    out: &mut S,
    telling: Telling,
) -> Result<(), TraceFault>
    requires able { IsAble H.Hardware hw.old }
    ensures put { OnOk result (PutsPart telling until (planned_run plan) (S.written out.old) (S.written out.new) (H.machinery hw.new).state) }
    ensures front { IfErr result (BreaksPart telling until (planned_run plan) (output S.Sink out.old) (output S.Sink out.new)) }
    ensures later { S.faults out.old ≤ S.faults out.new }
    ensures cause { IsErrOf result TraceFault.Output → Rose (S.faults out.old) (S.faults out.new) }
{
    let part = part_of(plan, until, hw)?;
    put_run(alloc, &part, hw, out, telling)
}

/// Runs a plan, and puts its text.
fn put_run<S: Sink, H: Hardware>(
    alloc: Global,
    plan: &Plan,
    hw: &mut H,
    out: &mut S,
    telling: Telling,
) -> Result<(), TraceFault>
    requires serves { (d : Desc) → IsValid d → H.serves (H.fixed hw.old) d }
    requires room { 1048575 ≤ H.room (H.fixed hw.old) }
    ensures reached { OnOk result ((H.machinery hw.new).state ≡ reached (planned_run plan.now)) }
    ensures put { OnOk result (PutsText telling (planned_run plan.now) (S.written out.old) (S.written out.new)) }
    ensures front { OnErr result (PutsFront telling (planned_run plan.now) (S.written out.old) (S.written out.new)) }
    ensures later { S.faults out.old ≤ S.faults out.new }
    ensures cause { IsErrOf result TraceFault.Output → Rose (S.faults out.old) (S.faults out.new) }
{
    let image = plan.image.as_slice();
    let tally = trace_bare(alloc, &plan.machine, image, hw, out, plan.steps, telling)?;
    put_counts(alloc, &plan.machine, &tally, out, telling.monitor)?;
    put_end(plan, hw, out, telling.shows)
}

/// Puts the counts.
fn put_counts<S: Sink>(
    alloc: Global,
    m: &Machine,
    tally: &Tally,
    out: &mut S,
    monitor: Option<Monitor>,
) -> Result<(), TraceFault>
    requires { length tally.now.instrs.items ≡ length m.now.desc.instrs }
    ensures { PutsUpTo (S.written out.old) (S.written out.new) (S.faults out.old) (S.faults out.new)
        (all_counts monitor m.now.desc tally.now) result }
{
    let mut text = Vec::new(alloc);
    push_counts(&mut text, m, tally)?;
    push_handled(&mut text, monitor, tally)?;
    put_text(out, text.as_slice())?;
    Ok(())
}

/// Pushes the shares of a monitor, where one is named.
fn push_handled(
    text: &mut Vec<u8>,
    monitor: Option<Monitor>,
    tally: &Tally,
) -> Result<(), AllocError>
    ensures { OnOk result (text.new.items ≡ text.old.items ++ handled_text monitor tally.now.shares) }
{
    match monitor {
        None => Ok(()),
        Some(_) => push_shares(text, &tally.shares),
    }
}

/// Puts the state that was reached, where steps may have lines.
fn put_end<S: Sink, H: Hardware>(
    plan: &Plan,
    hw: &H,
    out: &mut S,
    shows: Shows,
) -> Result<(), TraceFault>
    requires { (H.machinery hw.now).state ≡ reached (planned_run plan.now) }
    ensures { PutsUpTo (S.written out.old) (S.written out.new) (S.faults out.old) (S.faults out.new)
        (end_text shows (planned_run plan.now)) result }
{
    if has_state(shows) {
        put_reached(plan, hw, out)
    } else {
        Ok(())
    }
}

/// Whether the state is put.
fn has_state(shows: Shows) -> bool
    ensures { result ≡ has_state shows }
{
    match shows {
        Shows::Steps | Shows::Traps => true,
        Shows::Counts => false,
    }
}

/// Puts the state that was reached, which the hardware holds.
fn put_reached<S: Sink, H: Hardware>(plan: &Plan, hw: &H, out: &mut S) -> Result<(), TraceFault>
    requires { (H.machinery hw.now).state ≡ reached (planned_run plan.now) }
    ensures { PutsUpTo (S.written out.old) (S.written out.new) (S.faults out.old) (S.faults out.new)
        (reached_text (planned_run plan.now)) result }
{
    let psw = hw.psw();
    put_state(out, plan.machine.shape(), hw, 0, plan.grant, psw)?;
    Ok(())
}
