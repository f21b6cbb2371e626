//! What would mend a machine. Each error is out of memory.

ghost use Rattle.std.specs.Prelude.{◌≡◌, ◌*◌, ◌≤◌, length, IfOk, IfSome};
ghost use Rattle.pg_cert.specs.Lines.{most_budget};
ghost use Rattle.pg_cert.specs.Verdicts.{kind_count};
ghost use Rattle.pg_out_reasons.specs.Mending.{IsMended};

use crate::instr::push_instr;
use crate::part::Wish;
use crate::push::push_name;
use pg_cert::put::kind_name;
use pg_cert::{Family, Verdict};
use pg_mach_ready::Machine;
use pg_out_guarded::{GuardedMachine, ask_guarded, find};
use pg_out_place::Text;
use std::alloc::{AllocError, Global};

/// Pushes whether a hybrid monitor may run a machine, which is asked here.
pub(crate) fn push_hybrid(
    alloc: Global,
    text: &mut Text,
    m: &Machine,
    budget: u32,
) -> Result<(), AllocError>
    requires least { 1 ≤ budget }
    requires most { budget ≤ most_budget }
{
    let report = find(alloc, m, Family::Hybrid, budget)?;
    match report.verdict() {
        Verdict::Accepted => text.push(
            b"In user mode nothing shows: a hybrid monitor may run the machine (pgv hcheck).\n",
        ),
        Verdict::Refused(instr) => {
            text.push(b"A hybrid monitor may not run the machine either, because of ");
            push_name(text, m, instr);
            text.push(b".\n");
        }
        Verdict::Unsettled(instr, kind) => {
            text.push(b"Whether a hybrid monitor may run the machine is open: ");
            push_name(text, m, instr);
            text.push(b" ");
            text.push(kind_name(kind));
            text.push(b".\n");
        }
    }
    Ok(())
}

/// Pushes whether a machine is accepted with guards before the bodies of the instructions with a mark, which is asked here. Where it
/// is, that machine is the answer.
pub(crate) fn push_guarded(
    alloc: Global,
    text: &mut Text,
    m: &Machine,
    marks: &[bool],
    budget: u32,
) -> Result<Option<Machine>, AllocError>
    requires each { length marks.now ≡ length m.now.desc.instrs }
    requires least { 1 ≤ budget }
    requires most { budget ≤ most_budget }
    ensures { IfOk result (λ mended. IfSome mended (λ g. IsMended marks.now m.now.desc g.desc)) }
{
    text.push(b"With 'if mode { trap; }' before the body of");
    push_marked(text, m, marks);
    let Some(found) = ask_guarded(alloc, m, marks, budget)? else {
        text.push(b" the description is not valid: a body is too long.\n");
        return Ok(None);
    };
    push_found(alloc, text, &found)?;
    let GuardedMachine { machine, report } = found;
    match report.verdict() {
        Verdict::Accepted => Ok(Some(machine)),
        Verdict::Refused(_) | Verdict::Unsettled(..) => Ok(None),
    }
}

/// Pushes the names of the instructions with a mark.
fn push_marked(text: &mut Text, m: &Machine, marks: &[bool]) {
    let mut is_first = true;
    for (instr, is_marked) in marks.iter().enumerate() {
        if *is_marked {
            text.push(if is_first { b" " } else { b", " });
            push_name(text, m, instr);
            is_first = false;
        }
    }
}

/// Pushes the verdict on a machine with guards, and why it is refused.
fn push_found(alloc: Global, text: &mut Text, found: &GuardedMachine) -> Result<(), AllocError>
    requires { length found.now.report.marks ≡ length found.now.machine.desc.instrs * kind_count found.now.report.family }
{
    match found.report.verdict() {
        Verdict::Accepted => text.push(b" the machine is accepted.\n"),
        Verdict::Refused(instr) => {
            text.push(b" the machine is still refused. ");
            if instr < found.machine.count() {
                push_instr(
                    alloc,
                    text,
                    &found.machine,
                    &found.report,
                    Wish::all(),
                    instr,
                )?;
            }
            text.push(
                b"A guard makes it trap in user mode; words that trap in supervisor mode want a pattern of their own.\n",
            );
        }
        Verdict::Unsettled(instr, kind) => {
            text.push(b" it is open whether the machine is accepted: ");
            push_name(text, &found.machine, instr);
            text.push(b" ");
            text.push(kind_name(kind));
            text.push(b".\n");
        }
    }
    Ok(())
}
