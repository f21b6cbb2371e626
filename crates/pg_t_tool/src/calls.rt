//! Calls of the shelf that fail.

use crate::commands::{ROWS, Row};
use crate::setting::{FILES, HELD, Setting, are_alike, did_alike, is_silent, run};
use pg_tool::Status;
use std::alloc::Global;
use std::process::Abort;
use std::test::Fail;

/// A read that fails leaves nothing but its status.
fn fails_to_read(rt: &impl Abort, alloc: Global, line: &str, reads: u64) -> Result<(), Fail> {
    for call in 1..=reads {
        let left = run(alloc, line, HELD, &[(call, 2)], &[])?;
        assert!(rt; is_silent(&left, Status::ReadFault, HELD), "{line} {call}");
    }
    Ok(())
}

/// Whether a save failed: nothing was put, `c` holds this front, and the hardware is as it was made, or, of the command that saves
/// what a guest came to, as where nothing fails.
fn is_unsaved(left: &Setting, whole: &Setting, front: &[u8]) -> bool {
    left.is(Status::WriteFault, "")
        && left.keeps(&FILES)
        && left.held() == front
        && (left.is_fresh() || did_alike(left, whole))
}

/// A save that fails, after nothing, after three bytes and before the last, leaves that front of what was to be saved.
fn fails_to_save(
    rt: &impl Abort,
    alloc: Global,
    line: &str,
    call: u64,
    whole: &Setting,
) -> Result<(), Fail> {
    let saved = whole.held();
    for taken in [0, 3, saved.len().saturating_sub(1)] {
        let left = run(alloc, line, HELD, &[(call, taken)], &[])?;
        let front = saved.get(..taken).unwrap_or(saved);
        assert!(rt; is_unsaved(&left, whole, front), "{line} {taken}");
    }
    Ok(())
}

/// Each call of a row fails in turn. There are as many as the row says: one more never comes.
fn fails_at_each_call(rt: &impl Abort, alloc: Global, row: Row) -> Result<(), Fail> {
    let (line, status, reads, saves) = row;
    let whole = run(alloc, line, HELD, &[], &[])?;
    assert!(rt;
        whole.status == status && (saves || whole.held() == HELD),
        "{line}"
    );
    fails_to_read(rt, alloc, line, reads)?;
    let mut behind = reads.wrapping_add(1);
    if saves {
        fails_to_save(rt, alloc, line, behind, &whole)?;
        behind = behind.wrapping_add(1);
    }
    let left = run(alloc, line, HELD, &[(behind, 0)], &[])?;
    assert!(rt; are_alike(&left, &whole), "{line}");
    Ok(())
}

/// Saves under a name that there is not: no file is made.
const UNDER_A_NEW_NAME: [&str; 3] = [
    "check none --cert x",
    "hcheck none --cert x",
    "migrate none end x",
];

#[test]
fn a_call_that_fails_ends_the_command(rt: HostRuntime) -> Result<(), Fail> {
    for row in ROWS {
        fails_at_each_call(&rt, rt.alloc(), row)?;
    }
    for line in UNDER_A_NEW_NAME {
        let left = run(rt.alloc(), line, HELD, &[], &[])?;
        assert!(rt; is_silent(&left, Status::WriteFault, HELD), "{line}");
    }
    Ok(())
}
