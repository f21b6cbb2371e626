//! The text of a verdict.
//!
//! For each instruction in order there is a line of what is known of it, and behind them what follows for the machine:
//! that it is accepted; or the first instruction that is open, and its kind; or the first that breaks the rule, with the
//! two states that show that it is not privileged, and those of its first sensitive kind that is shown.

ghost use Rattle.std.specs.Prelude.{◌≡◌, ◌*◌, ◌<◌, ◌≤◌, length, position, All, IfSome};
ghost use Rattle.pg_edge.specs.Sink.{Puts};
ghost use Rattle.pg_word.specs.Shape.{IsShape};
ghost use Rattle.pg_cert.specs.Texts.{DoStateWordsFit};
ghost use Rattle.pg_cert.specs.Verdicts.{kind_count, marks_of, verdict_of, instr_count, is_shown};
ghost use Rattle.pg_report.specs.Verdicts.{answer_lines, conclusion_text, evidence_text, outcome_line, verdict_text, accepted_line, refused_line, unsettled_line, breach_text, shown_text, shown_at, shown_place, kind_line, DoMarkWordsFit};
ghost use Rattle.pg_cert.specs.declared.report.Mark.TheVariants.{Shown};

use crate::answers::answer_line;
use crate::push::{push_kind, push_name};
use crate::sparse::put_sparse;
use pg_cert::{Family, Mark, Report, Verdict};
use pg_edge::{Failed, Sink};
use pg_image::{Line, push};
use pg_type::{Kind, Machine};
use pg_word::{Shape, Sparse};

/// Puts the text of the verdict of a report, which has one mark for each instruction of the machine and each kind of its
/// family. Each word of a state that is kept fits a word of the machine. The cost is linear in the marks and states.
///
/// # Errors
/// `Failed` where not all of the text went through. A front of it may have.
#[tactic(auto, unfolding(crate::specs::Verdicts::verdict_text))]
pub fn put_verdict<S: Sink>(out: &mut S, m: &Machine, report: &Report) -> Result<(), Failed>
    requires whole { length report.now.marks ≡ length m.now.desc.instrs * kind_count report.now.family }
    requires fit { All (DoMarkWordsFit m.now.desc.word) report.now.marks }
    ensures { Puts (S.written out.old) (S.written out.new) (S.faults out.old) (S.faults out.new)
        (verdict_text m.now.desc report.now.family report.now.marks) result }
{
    put_answers(out, m, report)?;
    put_conclusion(out, m, report)
}

/// Puts a line for each instruction.
fn put_answers<S: Sink>(out: &mut S, m: &Machine, report: &Report) -> Result<(), Failed>
    requires whole { length report.now.marks ≡ length m.now.desc.instrs * kind_count report.now.family }
    ensures { Puts (S.written out.old) (S.written out.new) (S.faults out.old) (S.faults out.new)
        (answer_lines m.now.desc report.now.family report.now.marks (length m.now.desc.instrs)) result }
{
    for instr in 0..m.count() {
        let marks = marks_of(report, instr);
        out.put(answer_line(m.name(instr), report.family, marks).as_slice())?;
    }
    Ok(())
}

/// The marks of an instruction.
fn marks_of(report: &Report, instr: usize) -> &[Mark]
    requires { instr < instr_count report.now.family report.now.marks }
    ensures marks { result.now ≡ marks_of (kind_count report.now.family) report.now.marks instr }
    ensures count { length result.now ≡ kind_count report.now.family }
{
    let kinds = report.family.kinds().len();
    let count = report.marks.len() / kinds;
    prove!(instr < count);
    let from = instr * kinds;
    &report.marks.as_slice()[from..from + kinds]
}

/// Puts what follows for the machine.
fn put_conclusion<S: Sink>(out: &mut S, m: &Machine, report: &Report) -> Result<(), Failed>
    requires whole { length report.now.marks ≡ length m.now.desc.instrs * kind_count report.now.family }
    requires fit { All (DoMarkWordsFit m.now.desc.word) report.now.marks }
    ensures { Puts (S.written out.old) (S.written out.new) (S.faults out.old) (S.faults out.new)
        (conclusion_text m.now.desc report.now.family report.now.marks (verdict_of report.now.family report.now.marks)) result }
{
    put_outcome(out, m, report)?;
    put_evidence(out, m, report)
}

/// Puts the line of the verdict of a report, which has one mark for each instruction of the machine and each kind of its
/// family: that the machine is accepted, or the instruction that is open or breaks the rule. The cost is linear in the marks.
///
/// # Errors
/// `Failed` where not all of the line went through. A front of it may have.
pub fn put_outcome<S: Sink>(out: &mut S, m: &Machine, report: &Report) -> Result<(), Failed>
    requires whole { length report.now.marks ≡ length m.now.desc.instrs * kind_count report.now.family }
    ensures { Puts (S.written out.old) (S.written out.new) (S.faults out.old) (S.faults out.new)
        (outcome_line m.now.desc (verdict_of report.now.family report.now.marks)) result }
{
    out.put(outcome_line(m, report).as_slice())
}

/// The line of the verdict.
#[tactic(auto, unfolding(crate::specs::Verdicts::outcome_line))]
fn outcome_line(m: &Machine, report: &Report) -> Line
    requires whole { length report.now.marks ≡ length m.now.desc.instrs * kind_count report.now.family }
    ensures { result.items ≡ outcome_line m.now.desc (verdict_of report.now.family report.now.marks) }
{
    match report.verdict() {
        Verdict::Accepted => accepted_line(),
        Verdict::Refused(instr) => refused_line(m.name(instr)),
        Verdict::Unsettled(instr, kind) => unsettled_line(m.name(instr), kind),
    }
}

/// The line of a machine that is accepted.
#[tactic(auto, unfolding(crate::specs::Verdicts::accepted_line))]
fn accepted_line() -> Line
    ensures { result.items ≡ accepted_line }
{
    let mut line = Line::new();
    push(&mut line, b"accepted\n");
    line
}

/// The line of an instruction that breaks the rule.
#[tactic(auto, unfolding(crate::specs::Verdicts::refused_line))]
fn refused_line(name: &[u8]) -> Line
    ensures { result.items ≡ refused_line name.now }
{
    let mut line = Line::new();
    push(&mut line, b"refused ");
    push_name(&mut line, name);
    line.push(b'\n');
    line
}

/// The line of an instruction that is open, and its kind.
#[tactic(auto, unfolding(crate::specs::Verdicts::unsettled_line))]
fn unsettled_line(name: &[u8], kind: Kind) -> Line
    ensures { result.items ≡ unsettled_line name.now kind }
{
    let mut line = Line::new();
    push(&mut line, b"open ");
    push_name(&mut line, name);
    push(&mut line, b" ");
    push_kind(&mut line, kind);
    line.push(b'\n');
    line
}

/// Puts the states that the verdict rests on, where it is that an instruction breaks the rule.
#[tactic(auto, unfolding(crate::specs::Verdicts::evidence_text))]
fn put_evidence<S: Sink>(out: &mut S, m: &Machine, report: &Report) -> Result<(), Failed>
    requires whole { length report.now.marks ≡ length m.now.desc.instrs * kind_count report.now.family }
    requires fit { All (DoMarkWordsFit m.now.desc.word) report.now.marks }
    ensures { Puts (S.written out.old) (S.written out.new) (S.faults out.old) (S.faults out.new)
        (evidence_text m.now.desc report.now.family report.now.marks (verdict_of report.now.family report.now.marks)) result }
{
    match report.verdict() {
        Verdict::Refused(instr) => {
            put_breach(out, m.shape(), report.family, marks_of(report, instr))
        }
        Verdict::Accepted | Verdict::Unsettled(_, _) => Ok(()),
    }
}

/// Puts the states by which an instruction of these marks breaks the rule.
fn put_breach<S: Sink>(
    out: &mut S,
    shape: &Shape,
    family: Family,
    marks: &[Mark],
) -> Result<(), Failed>
    requires shape { IsShape shape.now }
    requires count { length marks.now ≡ kind_count family }
    requires fit { All (DoMarkWordsFit shape.now.w) marks.now }
    ensures { Puts (S.written out.old) (S.written out.new) (S.faults out.old) (S.faults out.new)
        (breach_text shape.now.w family marks.now) result }
{
    put_shown_at(out, shape, family, marks, 0)?;
    put_shown_at(out, shape, family, marks, shown_place(marks))
}

/// The place of the first mark that is shown behind that of privileged.
fn shown_place(marks: &[Mark]) -> usize
    requires { 2 ≤ length marks.now }
    ensures place { result ≡ shown_place marks.now }
    ensures within { result < length marks.now }
{
    match first_shown(&marks[1..]) {
        None => 1,
        Some(place) => place + 1,
    }
}

/// The place of the first mark that is shown.
fn first_shown(marks: &[Mark]) -> Option<usize>
    ensures place { result ≡ position is_shown marks.now }
    ensures within { IfSome result (λ place. place < length marks.now) }
{
    marks.iter().position(|mark| is_shown(mark))
}

/// Two states show the kind.
fn is_shown(mark: &Mark) -> bool
    ensures { result ≡ is_shown mark.now }
{
    matches!(mark, Mark::Shown(_, _))
}

/// Puts the kind at a place of the family, with the states that the mark at the place keeps.
#[tactic(auto, unfolding(crate::specs::Verdicts::shown_at))]
fn put_shown_at<S: Sink>(
    out: &mut S,
    shape: &Shape,
    family: Family,
    marks: &[Mark],
    place: usize,
) -> Result<(), Failed>
    requires shape { IsShape shape.now }
    requires count { length marks.now ≡ kind_count family }
    requires within { place < length marks.now }
    requires fit { All (DoMarkWordsFit shape.now.w) marks.now }
    ensures { Puts (S.written out.old) (S.written out.new) (S.faults out.old) (S.faults out.new)
        (shown_at shape.now.w family marks.now place) result }
{
    put_shown(out, shape, family.kinds()[place], &marks[place])
}

/// Puts a kind and the two states that show it, where a mark keeps them.
#[tactic(auto, unfolding(crate::specs::Verdicts::shown_text))]
fn put_shown<S: Sink>(out: &mut S, shape: &Shape, kind: Kind, mark: &Mark) -> Result<(), Failed>
    requires shape { IsShape shape.now }
    requires fit { DoMarkWordsFit shape.now.w mark.now }
    ensures { Puts (S.written out.old) (S.written out.new) (S.faults out.old) (S.faults out.new)
        (shown_text shape.now.w kind mark.now) result }
{
    match mark {
        Mark::Shown(first, second) => put_pair(out, shape, kind, first, second),
        Mark::Refuted | Mark::Spent(_) => Ok(()),
    }
}

/// Puts a kind and the two states that show it.
fn put_pair<S: Sink>(
    out: &mut S,
    shape: &Shape,
    kind: Kind,
    first: &Sparse,
    second: &Sparse,
) -> Result<(), Failed>
    requires shape { IsShape shape.now }
    requires first { DoStateWordsFit shape.now.w first.now }
    requires second { DoStateWordsFit shape.now.w second.now }
    ensures { Puts (S.written out.old) (S.written out.new) (S.faults out.old) (S.faults out.new)
        (shown_text shape.now.w kind (Shown first.now second.now)) result }
{
    out.put(kind_line(kind).as_slice())?;
    put_sparse(out, shape, first)?;
    put_sparse(out, shape, second)
}

/// The line of a kind.
#[tactic(auto, unfolding(crate::specs::Verdicts::kind_line))]
fn kind_line(kind: Kind) -> Line
    ensures { result.items ≡ kind_line kind }
{
    let mut line = Line::new();
    push_kind(&mut line, kind);
    line.push(b'\n');
    line
}
