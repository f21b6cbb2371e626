//! Puts that fail.

use crate::commands::ROWS;
use crate::setting::{FILES, HELD, Setting, are_alike, did_alike, run};
use pg_tool::Status;
use std::alloc::Global;
use std::process::Abort;
use std::test::Fail;

/// A command, what `c` holds before it, and what it leaves where nothing fails.
#[derive(Clone, Copy)]
struct Whole<'a> {
    line: &'a str,
    held: &'a [u8],
    left: &'a Setting,
}

/// Whether the text is written up to there, and nothing else differs from where no put fails.
fn is_front(left: &Setting, whole: &Setting, written: usize) -> bool {
    left.is(
        Status::WriteFault,
        whole.text().get(..written).unwrap_or("no front"),
    ) && left.keeps(&FILES)
        && left.held() == whole.held()
        && did_alike(left, whole)
}

/// Each put fails in turn, which hands over a line, after nothing and after two bytes. Then one more fails, which never comes:
/// there are as many as lines.
fn fails_at_each_put(rt: &impl Abort, alloc: Global, whole: Whole<'_>) -> Result<(), Fail> {
    let (line, held) = (whole.line, whole.held);
    let (mut put, mut start) = (1, 0usize);
    for text in whole.left.text().lines() {
        let end = start.wrapping_add(text.len()).wrapping_add(1);
        for taken in [0, 2] {
            let left = run(alloc, line, held, &[], &[(put, taken)])?;
            let written = start.wrapping_add(taken).min(end);
            assert!(rt;
                is_front(&left, whole.left, written),
                "{line} {put} {taken}"
            );
        }
        (put, start) = (put.wrapping_add(1), end);
    }
    let left = run(alloc, line, held, &[], &[(put, 0)])?;
    assert!(rt; are_alike(&left, whole.left), "{line}");
    Ok(())
}

/// Each put of a command fails in turn, which ends so where none does.
fn is_cut_off(
    rt: &impl Abort,
    alloc: Global,
    line: &str,
    held: &[u8],
    status: Status,
) -> Result<(), Fail> {
    let left = run(alloc, line, held, &[], &[])?;
    assert!(rt; left.status == status, "{line}");
    fails_at_each_put(
        rt,
        alloc,
        Whole {
            line,
            held,
            left: &left,
        },
    )
}

/// Two guests: one is refused an address that another grant holds, and one loops. Nine lines are told of them.
pub(crate) const GUESTS: &str = "run m0 c past loop --grant 16 --steps 10 --slice 3";

#[test]
fn a_put_that_fails_leaves_a_front_of_the_text(rt: HostRuntime) -> Result<(), Fail> {
    for (line, status, _, _) in ROWS {
        is_cut_off(&rt, rt.alloc(), line, HELD, status)?;
    }
    let checked = run(rt.alloc(), "check m0 --cert c", HELD, &[], &[])?;
    is_cut_off(&rt, rt.alloc(), GUESTS, checked.held(), Status::Done)
}
