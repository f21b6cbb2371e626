//! The instructions of a report that are shown not to be privileged and shown to be sensitive.

ghost use Rattle.std.specs.Prelude.{◌≡◌, ◌*◌, ◌<◌, length, map, IfOk};
ghost use Rattle.std.specs.List.{list_any};
ghost use Rattle.pg_cert.specs.Verdicts.{breaks, instr_count, kind_count, is_shown, marks_of};
ghost use Rattle.pg_out_guarded.specs.Broken.{AreBroken};

use pg_cert::{Mark, Report};
use pg_mach_ready::Machine;
use std::alloc::{AllocError, Global};

/// The marks of an instruction, in the order of the kinds.
pub fn marks_at<'r>(m: &Machine, report: &'r Report, instr: usize) -> &'r [Mark]
    requires whole { length report.now.marks ≡ length m.now.desc.instrs * kind_count report.now.family }
    requires there { instr < length m.now.desc.instrs }
    ensures marks { result.now ≡ marks_of (kind_count report.now.family) report.now.marks instr }
    ensures count { length result.now ≡ kind_count report.now.family }
{
    // there are as many instructions as the marks say
    let _ = m;
    marks_of(report, instr)
}

/// The same, of a report alone.
fn marks_of(report: &Report, instr: usize) -> &[Mark]
    requires { instr < instr_count report.now.family report.now.marks }
    ensures marks { result.now ≡ marks_of (kind_count report.now.family) report.now.marks instr }
    ensures count { length result.now ≡ kind_count report.now.family }
{
    let kinds = report.family.kinds().len();
    let count = report.marks.len() / kinds;
    prove!(instr < count);
    let from = instr * kinds;
    &report.marks.as_slice()[from..from + kinds]
}

/// Whether two states show the kind of a mark.
fn is_shown(mark: &Mark) -> bool
    ensures { result ≡ is_shown mark.now }
{
    matches!(mark, Mark::Shown(_, _))
}

/// Whether a mark is shown.
fn any_shown(marks: &[Mark]) -> bool
    ensures { result ≡ list_any is_shown marks.now }
{
    marks.iter().any(|mark| is_shown(mark))
}

/// Whether marks of one instruction say that it is not privileged and is sensitive.
fn breaks(marks: &[Mark]) -> bool
    ensures { result ≡ breaks marks.now }
{
    match marks {
        [] => false,
        [privileged, sensitive @ ..] => is_shown(privileged) && any_shown(sensitive),
    }
}

/// For each instruction, whether it is shown not to be privileged and shown to be sensitive.
pub fn broken_instrs(alloc: Global, m: &Machine, report: &Report) -> Result<Vec<bool>, AllocError>
    requires { length report.now.marks ≡ length m.now.desc.instrs * kind_count report.now.family }
    ensures { IfOk result (λ list. AreBroken report.now (length m.now.desc.instrs) list.items) }
{
    let mut list = Vec::new(alloc);
    for instr in 0..m.count() {
        list.push(breaks(marks_at(m, report, instr)))?;
    }
    Ok(list)
}
