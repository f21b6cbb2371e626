//! Steps, pokes and loads of runs, and cells of the hardware behind them, worked out by hand.
//!
//! A monitor pokes its word into cell 1 and each cell of an image. A step that traps costs a load, and one poke where the guest's trap
//! or its instruction stores. Another load is due where the guest changes.

use crate::setting::Setting;
use crate::texts::{FOUR, HALF, HEAD, HEAD_WITH_CAUSES, LOOP, M0, PAST, TO_USER_MODE};
use pg_tool::Status;
use std::test::Fail;

/// A line, how what was done begins, and cells of the hardware, each by its address and its word.
type Row = (&'static str, &'static str, &'static [(u32, u64)]);

/// Lines whose certificates the rows below take.
const CHECKS: [Row; 4] = [
    ("check m0 --cert c", "0 cells, 0 steps", &[]),
    ("check causes --cert cc", "0 cells, 0 steps", &[]),
    ("check half --cert ch", "0 cells, 0 steps", &[]),
    ("hcheck more --cert hc", "0 cells, 0 steps", &[]),
];

/// A bare machine: each cell of its image is poked, its program status word is loaded, and its third step traps.
const BARE_RUNS: [Row; 1] = [(
    "bare m0 moved --grant 16 --steps 3",
    "16 cells, 3 steps, 0 direct, 1 loads, 16 pokes",
    &[(0, 0x0004_0408), (4, 0x0a)],
)];

/// Runs under a monitor. Cell 0 has the word of the hardware's last trap.
const RUNS: [Row; 9] = [
    // The first guest loads a register, without a poke, and traps, five times each; the second only makes direct steps. Each has four
    // slices, of 3, 3, 3 and 1.
    (
        "run m0 c past loop --grant 16 --steps 10 --slice 3",
        "64 cells, 20 steps, 10 direct, 18 loads, 38 pokes",
        &[(0, 0x0103_0210), (1, 0x0002_0040)],
    ),
    // It traps, adds in a window that is clipped to one cell, as the word of the last trap says, and traps.
    (
        "run m0 c clipped --grant 8 --steps 3",
        "64 cells, 3 steps, 1 direct, 3 loads, 11 pokes",
        &[(0, 0x0101_0901), (1, 0x0002_0040)],
    ),
    // An instruction that is not privileged and traps in user mode for some words: it is interpreted for the first of two.
    (
        "run half ch copies --grant 8 --steps 2",
        "64 cells, 2 steps, 1 direct, 2 loads, 10 pokes",
        &[(0, 0x0102_0208), (1, 0x0002_0040)],
    ),
    // No turn: nothing is loaded.
    (
        "run m0 c zeros zeros --grant 31 --steps 0",
        "64 cells, 0 steps, 0 direct, 0 loads, 63 pokes",
        &[(0, 0), (1, 0x0002_0040)],
    ),
    // Every step traps.
    (
        "run m0 c zeros --grant 8 --steps 1000",
        "64 cells, 1000 steps, 0 direct, 1001 loads, 1009 pokes",
        &[(0, 0x0100_0200), (1, 0x0002_0040)],
    ),
    // The same where a trap stores its cause.
    (
        "run causes cc zeros --grant 8 --steps 1000",
        "64 cells, 1000 steps, 0 direct, 1001 loads, 1009 pokes",
        &[(0, 0x0300_0200), (1, 0x0002_0040)],
    ),
    // Of one guest a slice follows upon its own, and nothing is loaded between them.
    (
        "run m0 c loop --grant 16 --steps 10 --slice 3",
        "64 cells, 10 steps, 10 direct, 1 loads, 17 pokes",
        &[(0, 0), (1, 0x0002_0040)],
    ),
    // Three guests of direct steps with three slices each.
    (
        "run m0 c loop loop loop --grant 16 --steps 10 --slice 4",
        "64 cells, 30 steps, 30 direct, 9 loads, 49 pokes",
        &[(0, 0), (1, 0x0002_0040)],
    ),
    // Eight guests, of which the last has the cells 51 to 57.
    (
        "run m0 c zeros zeros zeros zeros zeros zeros zeros zeros --grant 7 --steps 1",
        "64 cells, 8 steps, 0 direct, 16 loads, 65 pokes",
        &[(0, 0x0102_3307), (1, 0x0002_0040), (51, 0x0002_0007)],
    ),
];

/// Runs under a hybrid monitor.
const HYBRID_RUNS: [Row; 3] = [
    // Four of the six turns are made from user mode; two of those trap, which costs a poke.
    (
        "hybrid more hc calls --grant 8 --steps 6",
        "64 cells, 4 steps, 2 direct, 2 loads, 11 pokes",
        &[(0, 0x0104_0208), (1, 0x0002_0040)],
    ),
    // A guest that stays in supervisor mode is interpreted: the hardware does no step, and five of its ten store.
    (
        "hybrid more hc loop --grant 16 --steps 10 --slice 3",
        "64 cells, 0 steps, 0 direct, 0 loads, 22 pokes",
        &[(0, 0), (1, 0x0002_0040)],
    ),
    // In between the turns of a guest that is loaded another one is interpreted, and the first stays loaded.
    (
        "hybrid more hc calls loop --grant 8 --steps 6 --slice 1",
        "64 cells, 4 steps, 2 direct, 2 loads, 22 pokes",
        &[(0, 0x0104_0208), (1, 0x0002_0040)],
    ),
];

/// A guest under several monitors: the word of each, supervisor mode, P 2 and the whole storage, which has two cells fewer for each
/// monitor below it; the guest's own cells, and one behind them.
const NESTED_RUNS: [Row; 8] = [
    (
        "nest m0 c clipped --grant 8 --steps 3 --depth 1",
        "64 cells, 3 steps, 1 direct",
        &[
            (1, 0x0002_0040),
            (2, 0x0001_0705),
            (3, 0x0705),
            (9, 0x0200_0000),
            (10, 0),
        ],
    ),
    (
        "nest m0 c clipped --grant 8 --steps 3 --depth 2",
        "64 cells, 3 steps, 1 direct",
        &[
            (1, 0x0002_0040),
            (3, 0x0002_003e),
            (4, 0x0001_0705),
            (5, 0x0705),
            (11, 0x0200_0000),
            (12, 0),
        ],
    ),
    (
        "nest m0 c clipped --grant 8 --steps 3 --depth 3",
        "64 cells, 3 steps, 1 direct",
        &[
            (1, 0x0002_0040),
            (3, 0x0002_003e),
            (5, 0x0002_003c),
            (6, 0x0001_0705),
            (13, 0x0200_0000),
            (14, 0),
        ],
    ),
    (
        "nest m0 c clipped --grant 8 --steps 3 --depth 4",
        "64 cells, 3 steps, 1 direct",
        &[
            (5, 0x0002_003c),
            (7, 0x0002_003a),
            (8, 0x0001_0705),
            (9, 0x0705),
            (15, 0x0200_0000),
            (16, 0),
        ],
    ),
    // Every step traps, and is interpreted by each monitor.
    (
        "nest m0 c zeros --grant 8 --steps 1000 --depth 4",
        "64 cells, 1000 steps, 0 direct",
        &[(1, 0x0002_0040)],
    ),
    (
        "nest causes cc zeros --grant 8 --steps 1000 --depth 3",
        "64 cells, 1000 steps, 0 direct",
        &[(1, 0x0002_0040)],
    ),
    // No step traps: no monitor does any.
    (
        "nest m0 c loop --grant 8 --steps 1000 --depth 4",
        "64 cells, 1000 steps, 1000 direct",
        &[(1, 0x0002_0040)],
    ),
    // The largest guest fills what four monitors leave.
    (
        "nest none end zeros --grant 56 --steps 0 --depth 4",
        "64 cells, 0 steps, 0 direct, 0 loads",
        &[(1, 0x0002_0040), (7, 0x0002_003a), (63, 0)],
    ),
];

/// A guest that is saved and goes on, in the first grant and behind 20 cells.
const SAVED_RUNS: [Row; 3] = [
    (
        "save m0 c loop s --grant 16 --steps 3",
        "64 cells, 3 steps, 3 direct, 1 loads, 17 pokes",
        &[(0, 0), (1, 0x0002_0040)],
    ),
    (
        "resume m0 c s --steps 7",
        "64 cells, 7 steps, 7 direct, 1 loads, 17 pokes",
        &[(2, 6), (4, 0x0100_0404)],
    ),
    (
        "resume m0 c s --steps 7 --skip 20",
        "64 cells, 7 steps, 7 direct, 1 loads, 17 pokes",
        &[(2, 0), (4, 0), (22, 6), (24, 0x0100_0404)],
    ),
];

/// A machine that is drawn by a number, judged, and run: 1000 steps of each of four guests.
const DRAWN_RUNS: [Row; 1] = [("gen 2 1 --cert s", "128 cells, 4000 steps", &[])];

/// Whether cells of the hardware hold these words.
fn holds(at: &Setting, cells: &[(u32, u64)]) -> bool {
    for cell in cells {
        if at.cell(cell.0) != cell.1 {
            return false;
        }
    }
    true
}

/// A line does what its row says.
fn does(at: &mut Setting, row: &Row) -> Result<(), Fail> {
    at.run(row.0, &[])?;
    let done = at.done()?;
    if at.status == Status::Done && done.as_str().starts_with(row.1) && holds(at, row.2) {
        return Ok(());
    }
    Err(Fail::new(format_args!("{}: {:?}, {done}", row.0, at.status)))
}

/// The lines of rows do so, one after another.
fn do_so(at: &mut Setting, rows: &[Row]) -> Result<(), Fail> {
    for row in rows {
        does(at, row)?;
    }
    Ok(())
}

#[test]
fn runs_cost_what_was_worked_out(rt: HostRuntime) -> Result<(), Fail> {
    let causes = format!(in rt.alloc(); "{HEAD_WITH_CAUSES}{FOUR}")?;
    let half = format!(in rt.alloc(); "{M0}{HALF}")?;
    let more = format!(in rt.alloc(); "{M0}{TO_USER_MODE}")?;
    let files = [
        ("none", HEAD),
        ("m0", M0),
        ("causes", causes.as_str()),
        ("half", half.as_str()),
        ("more", more.as_str()),
        ("end", "pgcert 2\nend\n"),
        ("cc", ""),
        ("ch", ""),
        ("hc", ""),
        ("s", ""),
        ("zeros", ""),
        ("loop", LOOP),
        ("past", PAST),
        ("clipped", "1: 00000705\n7: 01000000\n"),
        ("moved", "2: 04000408\n7: 01000707\n11: 00000005\n"),
        ("copies", "2: 07010502 07000602\n"),
        ("calls", "1: 00020008 05000003 01060506 03000000 00000002\n"),
    ];
    let mut at = Setting::new(rt.alloc(), &files, &[], &[])?;
    do_so(&mut at, &CHECKS)?;
    do_so(&mut at, &BARE_RUNS)?;
    do_so(&mut at, &RUNS)?;
    do_so(&mut at, &HYBRID_RUNS)?;
    do_so(&mut at, &NESTED_RUNS)?;
    do_so(&mut at, &SAVED_RUNS)?;
    do_so(&mut at, &DRAWN_RUNS)
}
