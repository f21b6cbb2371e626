//! Guests of eight cells that reach for what is not theirs, each beside a neighbour that must not notice.
//!
//! Each of two guests is told as a bare machine is, whichever monitor they have. Nothing is poked but the monitor's word and their
//! cells, that word stays, and no cell behind theirs is set.

use crate::setting::Setting;
use crate::texts::{LOOP, M0, TO_USER_MODE};
use pg_tool::Status;
use std::alloc::{AllocError, Global};
use std::test::Fail;

/// Where a window of a guest of 8 cells may begin, and how long it may be: none, one, all but one, all, one past it, and far past.
const EDGES: [&str; 6] = ["00", "01", "07", "08", "09", "ff"];

/// Images that reach for what is not theirs in supervisor mode.
const HOSTILE: [&str; 12] = [
    // It makes of its next instruction one that loads a register past its grant.
    "1: 00020008 01030405 02000002 04000000 0000ffff\n",
    // It makes a jump of its next word, which is no instruction; and no instruction of its own word.
    "2: 01030404 00000000 01000001\n",
    "2: 01020707 02000002\n",
    // It traps for ever: where its traps lead stands no instruction, or one that traps, in either mode.
    "1: 00010008\n",
    "1: 00020008 03000000\n",
    "1: 01020008 03000000\n",
    // Under a bound past its grant it stores right behind the grant, and at the last address.
    "1: 00020010 040000ff 01080203\n",
    "1: 000200ff 01ff0203\n",
    // In a window that the grant cuts off it stores in the last cell, and then behind it.
    "1: 00020008 040003ff\n6: 01040000 01050000\n",
    // It loads from its neighbour's cells.
    "1: 00020010 040000ff 0107090a\n",
    // It stores over the cells of its traps, and jumps there.
    "2: 01000505 02000000\n5: 01000001\n",
    // It loads a register past its grant, and then stores behind the grant in user mode.
    "1: 01030010 0400ffff 01080203\n",
];

/// Images that go to user mode.
const IN_USER_MODE: [&str; 6] = [
    // Under a bound past its grant it stores right behind the grant, and at the last address.
    "1: 00020008 040000ff 05000004 01080203\n",
    "1: 00020008 040000ff 05000004 01ff0203\n",
    // It loads from its neighbour's cells.
    "1: 00020008 040000ff 05000004 0107090a\n",
    // It stores over the cells of its traps, and traps.
    "2: 05000003 01000506 01010506 03000000 00000003\n",
    // It makes of its next instruction one that loads a register past its grant.
    "1: 00020008 05000003 01040506 00000000 02000000 020000ff\n",
    // It goes on behind its grant.
    "1: 00020008 040000ff 05000008\n",
];

/// The two guests and the steps of each, as words of a line, and the machine with its certificate.
#[derive(Clone, Copy)]
struct Side<'a> {
    command: &'a str,
    desc: &'a str,
    cert: &'a [u8],
}

/// A setting of a machine and two images.
fn setting<'a>(
    alloc: Global,
    side: Side<'a>,
    first: &'a str,
    second: &'a str,
) -> Result<Setting, AllocError> {
    let files = [("d", side.desc), ("i", first), ("j", second)];
    Setting::new(alloc, &files, side.cert, &[])
}

/// What is told of both guests, as of two bare machines.
fn told_alone(alloc: Global, at: &mut Setting) -> Result<String, AllocError> {
    at.run("bare d i --grant 8 --steps 20", &[])?;
    let one = format!(in alloc; "guest 0\n{}", at.text())?;
    at.run("bare d j --grant 8 --steps 20", &[])?;
    format!(in alloc; "{one}guest 1\n{}", at.text())
}

/// Two guests, step by step side by side, keep to their grants.
fn keep<'a>(alloc: Global, side: Side<'a>, first: &'a str, second: &'a str) -> Result<(), Fail> {
    let mut at = setting(alloc, side, first, second)?;
    let told = told_alone(alloc, &mut at)?;
    at.run(side.command, &[])?;
    let text = format!(in alloc; "{told}steps 40 direct {}\n", at.direct())?;
    let poked = at.poked(18)?;
    if at.is(Status::Done, &text) && poked.as_str() == "1 to 17, 00020040, 0" {
        return Ok(());
    }
    Err(Fail::new(format_args!("{} {first:?} {second:?}: {poked}", side.command)))
}

/// Each image keeps to its grant before and behind a guest that loops.
fn all_keep(alloc: Global, side: Side<'_>, images: &[&str]) -> Result<(), Fail> {
    for image in images {
        keep(alloc, side, image, LOOP)?;
        keep(alloc, side, LOOP, image)?;
    }
    Ok(())
}

/// A guest keeps to its grant wherever its window begins and however long it is, with these words behind the first two.
fn windows_keep(alloc: Global, side: Side<'_>, words: &str) -> Result<(), Fail> {
    for l in EDGES {
        for b in EDGES {
            let image = format!(in alloc; "1: 00020008 0400{l}{b}{words}\n")?;
            keep(alloc, side, &image, LOOP)?;
        }
    }
    Ok(())
}

/// A machine's certificate.
fn certified(alloc: Global, line: &str, desc: &str) -> Result<Setting, AllocError> {
    let mut at = Setting::new(alloc, &[("d", desc)], &[], &[])?;
    at.run(line, &[])?;
    Ok(at)
}

#[test]
fn guests_of_a_monitor_keep_to_their_grants(rt: HostRuntime) -> Result<(), Fail> {
    let checked = certified(rt.alloc(), "check d --cert c", M0)?;
    let side = Side {
        command: "run d c i j --grant 8 --steps 20 --slice 1",
        desc: M0,
        cert: checked.held(),
    };
    all_keep(rt.alloc(), side, &HOSTILE)?;
    windows_keep(rt.alloc(), side, "")
}

#[test]
fn guests_of_a_hybrid_monitor_keep_to_their_grants(rt: HostRuntime) -> Result<(), Fail> {
    let more = format!(in rt.alloc(); "{M0}{TO_USER_MODE}")?;
    let checked = certified(rt.alloc(), "hcheck d --cert c", &more)?;
    let side = Side {
        command: "hybrid d c i j --grant 8 --steps 20 --slice 1",
        desc: &more,
        cert: checked.held(),
    };
    all_keep(rt.alloc(), side, &HOSTILE)?;
    all_keep(rt.alloc(), side, &IN_USER_MODE)?;
    // Wherever the window begins, its cell 3 has the jump to user mode, if it has one.
    windows_keep(
        rt.alloc(),
        side,
        " 05000004 05000004 05000004 05000004 05000004",
    )
}
