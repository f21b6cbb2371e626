//! The text of a replay.
//!
//! For each finding that is shown, in order, there is a line with the name of the instruction and the kind, and behind it
//! the two states, each with a line of how the step from it ends and with the state that follows. A step is made when its
//! turn comes, put, and forgotten, so no more memory is taken than the state that follows needs.

ghost use Rattle.std.specs.Prelude.{◌≡◌, ◌≤◌, ◌*◌, ◌++◌, length, All};
ghost use Rattle.pg_edge.specs.Sink.{Puts};
ghost use Rattle.pg_lang_meaning.specs.States.{IsState};
ghost use Rattle.pg_type.specs.Listed.{state_of};
ghost use Rattle.pg_cert.specs.Verdicts.{kind_count};
ghost use Rattle.pg_cert.specs.declared.report.Mark.TheVariants.{Shown};
ghost use Rattle.pg_report.specs.Replays.{AreMarkStates, PutsOrStarves, finding_line, replay_text, replayed_text, shown_state, step_line, step_word, stepped_text};

use crate::push::{push_kind, push_name};
use crate::sparse::put_sparse;
use pg_cert::{Mark, Report};
use pg_edge::{Failed, Sink};
use pg_image::{Line, push};
use pg_replay::after;
use pg_type::{Kind, Machine};
use pg_word::{Cause, Sparse};
use std::alloc::Global;

/// Why the text of a replay did not go through whole.
#[derive(Clone, Copy, Debug, Drop, PartialEq, Eq)]
pub enum ReplayFault {
    /// The sink took not all of it, and counted a fault.
    Failed,
    /// There was no memory for the state that a step leaves.
    Memory,
}

/// Puts the text of the replay of a report, which has one mark for each instruction of the machine and each kind of its
/// family, and keeps states of the machine. The cost is linear in the marks, the states and the stores of the steps; the
/// memory is that of one state.
///
/// # Errors
/// `Failed` where the sink took not all of the text, and `Memory` where there was none for the state that follows a step.
/// A front of the text may have gone through.
pub fn put_replay<S: Sink>(
    alloc: Global,
    out: &mut S,
    m: &Machine,
    report: &Report,
) -> Result<(), ReplayFault>
    requires whole { length report.now.marks ≡ length m.now.desc.instrs * kind_count report.now.family }
    requires states { All (AreMarkStates m.now.desc) report.now.marks }
    ensures { PutsOrStarves (S.written out.old) (S.written out.new) (S.faults out.old) (S.faults out.new)
        (replay_text m.now.desc report.now.family report.now.marks) result }
{
    let kinds = report.family.kinds();
    for (place, mark) in report.marks.as_slice().iter().enumerate() {
        let name = m.name(place / kinds.len());
        match put_mark(alloc, out, m, name, kinds[place % kinds.len()], mark) {
            Ok(()) => {}
            Err(fault) => return Err(fault),
        }
    }
    Ok(())
}

/// Puts the finding of a kind of the instruction of this name, where its mark is shown.
#[tactic(auto, unfolding(crate::specs::Replays::replayed_text), using(crate::proofs::Replays::nothing_starves))]
fn put_mark<S: Sink>(
    alloc: Global,
    out: &mut S,
    m: &Machine,
    name: &[u8],
    kind: Kind,
    mark: &Mark,
) -> Result<(), ReplayFault>
    requires { AreMarkStates m.now.desc mark.now }
    ensures { PutsOrStarves (S.written out.old) (S.written out.new) (S.faults out.old) (S.faults out.new)
        (replayed_text m.now.desc name.now kind mark.now) result }
{
    match mark {
        Mark::Shown(first, second) => put_finding(alloc, out, m, name, kind, first, second),
        Mark::Refuted | Mark::Spent(_) => Ok(()),
    }
}

/// Puts a finding that two states show.
fn put_finding<S: Sink>(
    alloc: Global,
    out: &mut S,
    m: &Machine,
    name: &[u8],
    kind: Kind,
    first: &Sparse,
    second: &Sparse,
) -> Result<(), ReplayFault>
    requires first { IsState m.now.desc (state_of first.now) }
    requires second { IsState m.now.desc (state_of second.now) }
    ensures { PutsOrStarves (S.written out.old) (S.written out.new) (S.faults out.old) (S.faults out.new)
        (replayed_text m.now.desc name.now kind (Shown first.now second.now)) result }
{
    match out.put(finding_line(name, kind).as_slice()) {
        Ok(()) => {}
        Err(_) => return Err(ReplayFault::Failed),
    }
    match put_stepped(alloc, out, m, first) {
        Ok(()) => {}
        Err(fault) => return Err(fault),
    }
    put_stepped(alloc, out, m, second)
}

/// The line of a kind of the instruction of this name.
#[tactic(auto, unfolding(crate::specs::Replays::finding_line))]
fn finding_line(name: &[u8], kind: Kind) -> Line
    ensures { result.items ≡ finding_line name.now kind }
{
    let mut line = Line::new();
    push_name(&mut line, name);
    push(&mut line, b" ");
    push_kind(&mut line, kind);
    line.push(b'\n');
    line
}

/// Puts a state, how the step from it ends, and the state that follows.
fn put_stepped<S: Sink>(
    alloc: Global,
    out: &mut S,
    m: &Machine,
    s: &Sparse,
) -> Result<(), ReplayFault>
    requires { IsState m.now.desc (state_of s.now) }
    ensures { PutsOrStarves (S.written out.old) (S.written out.new) (S.faults out.old) (S.faults out.new)
        (stepped_text m.now.desc (state_of s.now)) result }
{
    match put_shown(out, m, s) {
        Ok(()) => {}
        Err(_) => return Err(ReplayFault::Failed),
    }
    let (cause, next) = match after(alloc, m, s) {
        Ok(step) => step,
        Err(_) => return Err(ReplayFault::Memory),
    };
    match put_after(out, m, cause, &next) {
        Ok(()) => Ok(()),
        Err(_) => Err(ReplayFault::Failed),
    }
}

/// Puts how a step ended, and the state that follows.
fn put_after<S: Sink>(
    out: &mut S,
    m: &Machine,
    cause: Option<Cause>,
    next: &Sparse,
) -> Result<(), Failed>
    requires { IsState m.now.desc (state_of next.now) }
    ensures { Puts (S.written out.old) (S.written out.new) (S.faults out.old) (S.faults out.new)
        (step_line cause ++ shown_state m.now.desc (state_of next.now)) result }
{
    match out.put(step_line(cause).as_slice()) {
        Ok(()) => {}
        Err(fault) => return Err(fault),
    }
    put_shown(out, m, next)
}

/// Puts the text of a state of the machine.
#[tactic(auto, unfolding(crate::specs::Verdicts::sparse_text))]
fn put_shown<S: Sink>(out: &mut S, m: &Machine, s: &Sparse) -> Result<(), Failed>
    requires { IsState m.now.desc (state_of s.now) }
    ensures { Puts (S.written out.old) (S.written out.new) (S.faults out.old) (S.faults out.new)
        (shown_state m.now.desc (state_of s.now)) result }
{
    // the cells are listed, so that the words of the storage are those of the list
    let _ = s.cells.as_slice();
    put_sparse(out, m.shape(), s)
}

/// The line of how a step ended.
#[tactic(auto, unfolding(crate::specs::Replays::step_line))]
fn step_line(cause: Option<Cause>) -> Line
    ensures { result.items ≡ step_line cause }
{
    let mut line = Line::new();
    push(&mut line, b"step ");
    push(&mut line, step_word(cause));
    line.push(b'\n');
    line
}

/// How a step ended, by why it trapped.
fn step_word(cause: Option<Cause>) -> &'static [u8]
    ensures word { result.now ≡ step_word cause }
    ensures len { length result.now ≤ 7 }
{
    match cause {
        None => b"done",
        Some(Cause::Memory) => b"memtrap",
        Some(Cause::Trap | Cause::NoPattern) => b"trap",
    }
}
