//! All that is told of a report.

ghost use Rattle.std.specs.Prelude.{◌≡◌, ◌*◌, ◌≤◌, length, true, IfOk, IfSome};
ghost use Rattle.pg_cert.specs.Lines.{most_budget};
ghost use Rattle.pg_cert.specs.Verdicts.{kind_count};
ghost use Rattle.pg_out_reasons.specs.Mending.{AreWanted, IsMended, IsMendedBy};

use crate::instr::push_instr;
use crate::mending::{push_guarded, push_hybrid};
use crate::part::{Part, Wish};
use crate::push::push_name;
use pg_cert::put::kind_name;
use pg_cert::{Family, Report, Verdict};
use pg_mach_ready::Machine;
use pg_out_guarded::broken_instrs;
use pg_out_place::Text;
use std::alloc::{AllocError, Global};

/// What is told of a report, and a machine that is mended.
#[derive(Drop)]
pub struct Reasons {
    /// The text.
    pub text: Vec<u8>,
    /// The machine with guards, where it was asked and is accepted.
    pub mended: Option<Mended>,
}

/// A machine that guards mend.
#[derive(Drop)]
pub struct Mended {
    /// The machine with guards.
    pub machine: Machine,
    /// For each instruction, whether it has one.
    pub marks: Vec<bool>,
}

/// What is told of a report of a machine, which has one mark for each instruction and each kind of its family. Where a
/// machine is refused, what would mend it is asked, with a budget of learned clauses for each question, from 1 to 1,000,000; but not
/// where a kind alone is told.
///
/// # Errors
/// Only for lack of memory.
pub fn tell_reasons(
    alloc: Global,
    m: &Machine,
    report: &Report,
    wish: Wish,
    budget: u32,
) -> Result<Reasons, AllocError>
    requires whole { length report.now.marks ≡ length m.now.desc.instrs * kind_count report.now.family }
    requires least { 1 ≤ budget }
    requires most { budget ≤ most_budget }
    ensures mended { IfOk result (λ told. IfSome told.mended (λ g. IsMendedBy m.now.desc report.now g.machine.desc)) }
    ensures marks { IfOk result (λ told. IfSome told.mended (λ g. IsMended g.marks.items m.now.desc g.machine.desc)) }
{
    let mut text = Text::new(alloc);
    push_verdict(&mut text, m, report.verdict());
    let marks = wanted(alloc, m, report, wish.part)?;
    push_instrs(alloc, &mut text, m, report, wish, marks.as_slice())?;
    let mended = push_mending(
        alloc,
        &mut text,
        m,
        report,
        wish.part,
        marks.as_slice(),
        budget,
    )?;
    let text = text.finish()?;
    match mended {
        None => Ok(Reasons { text, mended: None }),
        Some(machine) => Ok(Reasons {
            text,
            mended: Some(Mended { machine, marks }),
        }),
    }
}

/// Pushes the line of a verdict.
fn push_verdict(text: &mut Text, m: &Machine, verdict: Verdict) {
    match verdict {
        Verdict::Accepted => text.push(b"accepted\n"),
        Verdict::Refused(instr) => {
            text.push(b"refused ");
            push_name(text, m, instr);
            text.push(b"\n");
        }
        Verdict::Unsettled(instr, kind) => {
            text.push(b"open ");
            push_name(text, m, instr);
            text.push(b" ");
            text.push(kind_name(kind));
            text.push(b"\n");
        }
    }
}

/// Whether an instruction is broken, and is of the part.
fn is_wanted(part: Part, instr: usize, is_broken: bool) -> bool
    ensures { result ≡ true → is_broken ≡ true }
{
    if is_broken { part.takes(instr) } else { false }
}

/// For each instruction, whether it is of the part, shown not to be privileged, and shown to be sensitive.
fn wanted(alloc: Global, m: &Machine, report: &Report, part: Part) -> Result<Vec<bool>, AllocError>
    requires { length report.now.marks ≡ length m.now.desc.instrs * kind_count report.now.family }
    ensures { IfOk result (λ marks. AreWanted report.now (length m.now.desc.instrs) marks.items) }
{
    let broken = broken_instrs(alloc, m, report)?;
    let mut marks = Vec::new(alloc);
    for (instr, is_broken) in broken.iter().enumerate() {
        marks.push(is_wanted(part, instr, *is_broken))?;
    }
    Ok(marks)
}

/// Pushes the instructions that are wished for: those with a mark, or the one that is named.
fn push_instrs(
    alloc: Global,
    text: &mut Text,
    m: &Machine,
    report: &Report,
    wish: Wish,
    marks: &[bool],
) -> Result<(), AllocError>
    requires whole { length report.now.marks ≡ length m.now.desc.instrs * kind_count report.now.family }
    requires each { length marks.now ≡ length m.now.desc.instrs }
{
    for (instr, is_marked) in marks.iter().enumerate() {
        if *is_marked || (wish.part != Part::All && wish.part.takes(instr)) {
            push_instr(alloc, text, m, report, wish, instr)?;
        }
    }
    Ok(())
}

/// Pushes what would mend a machine, where instructions are marked and not a kind alone is told.
fn push_mending(
    alloc: Global,
    text: &mut Text,
    m: &Machine,
    report: &Report,
    part: Part,
    marks: &[bool],
    budget: u32,
) -> Result<Option<Machine>, AllocError>
    requires marked { AreWanted report.now (length m.now.desc.instrs) marks.now }
    requires least { 1 ≤ budget }
    requires most { budget ≤ most_budget }
    ensures mended { IfOk result (λ mended. IfSome mended (λ g. IsMendedBy m.now.desc report.now g.desc)) }
    ensures marks { IfOk result (λ mended. IfSome mended (λ g. IsMended marks.now m.now.desc g.desc)) }
{
    if matches!(part, Part::Kind(..)) || !marks.iter().any(|is_marked| *is_marked) {
        return Ok(None);
    }
    if report.family == Family::Plain {
        push_hybrid(alloc, text, m, budget)?;
    }
    push_guarded(alloc, text, m, marks, budget)
}
