//! Commands that memory may be refused to.
//!
//! The test holds whether memory is refused somewhere or not, once in a run: a command is run twice, so that one of the two is
//! whole. Where it is refused to the test itself, for a file or a text, the test ends for want of it. `fuzz/refused-memory` runs it
//! with one allocation refused, and another one each time; the variable `PGV_LINES` of its environment says how the lines begin that
//! are run then.

use crate::commands::ROWS;
use crate::puts::GUESTS;
use crate::setting::{FILES, HELD, Setting, are_alike, run};
use pg_tool::Status;
use std::alloc::{AllocError, Global};
use std::env;
use std::env::VarError;
use std::process::Abort;
use std::test::Fail;

/// Whether a command to which memory was refused did no step, put nothing, but by `replay`, and left `c` as it was or saved whole.
fn stopped_early(line: &str, held: &[u8], left: &Setting, whole: &Setting) -> bool {
    left.steps() == 0
        && (left.text().is_empty() || line.starts_with("replay "))
        && whole.text().starts_with(left.text())
        && (left.held() == held || left.held() == whole.held())
}

/// Whether two runs of a line came to the same, but where memory was refused to the first of them, and the other ended so.
fn are_right(line: &str, held: &[u8], status: Status, left: &Setting, whole: &Setting) -> bool {
    let is_right = if left.status == Status::Memory {
        stopped_early(line, held, left, whole)
    } else {
        are_alike(left, whole)
    };
    is_right && whole.status == status && left.keeps(&FILES) && whole.keeps(&FILES)
}

/// Two runs of a line come to the same, but where memory was refused to the one.
fn ends_either_way(
    rt: &impl Abort,
    alloc: Global,
    line: &str,
    held: &[u8],
    status: Status,
) -> Result<(), Fail> {
    let one = run(alloc, line, held, &[], &[])?;
    let other = run(alloc, line, held, &[], &[])?;
    let is_right = if one.status == Status::Memory {
        are_right(line, held, status, &one, &other)
    } else {
        are_right(line, held, status, &other, &one)
    };
    assert!(rt; is_right, "{line}");
    Ok(())
}

/// A machine of four instructions is checked, and two guests run by what was saved then.
fn of_four_instructions(rt: &impl Abort, alloc: Global, begin: &str) -> Result<(), Fail> {
    let line = "check m0 --cert c";
    if line.starts_with(begin) {
        ends_either_way(rt, alloc, line, HELD, Status::Done)?;
    }
    if !GUESTS.starts_with(begin) {
        return Ok(());
    }
    let checked = run(alloc, line, HELD, &[], &[])?;
    if checked.status == Status::Memory {
        return Ok(());
    }
    ends_either_way(rt, alloc, GUESTS, checked.held(), Status::Done)
}

/// The lines that begin so end either way.
fn lines_end_either_way(rt: &impl Abort, alloc: Global, begin: &str) -> Result<(), Fail> {
    for (line, status, _, _) in ROWS {
        if line.starts_with(begin) {
            ends_either_way(rt, alloc, line, HELD, status)?;
        }
    }
    of_four_instructions(rt, alloc, begin)
}

#[test]
fn commands_end_with_and_without_memory(rt: HostRuntime) -> Result<(), Fail> {
    match env::var(&rt, "PGV_LINES") {
        Ok(begin) => lines_end_either_way(&rt, rt.alloc(), begin.as_str()),
        Err(VarError::OutOfMemory) => Err(AllocError.into()),
        Err(_) => lines_end_either_way(&rt, rt.alloc(), ""),
    }
}
