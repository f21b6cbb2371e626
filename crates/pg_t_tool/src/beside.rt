//! Guests beside bare machines: eight at a time end where eight bare machines do.

use crate::setting::Setting;
use crate::texts::{FOUR, LOOP, WIDE_HEAD, WIDE_HEAD_WITH_CAUSES};
use pg_tool::Status;
use std::alloc::{AllocError, Global};
use std::test::Fail;

/// Eight images, and how many of the first 20 steps of each are direct, all together.
type Batch = ([&'static str; 8], u64);

/// Images that trap, and that go to the edges of their windows.
const BATCHES: [Batch; 4] = [
    (
        [
            // Nothing: no pattern, and then no window.
            "",
            // A loop; a supervisor call that comes back; one in user mode.
            LOOP,
            "1: 00020010 03000000\n",
            "1: 01020010 03000000\n",
            // A register past the grant, and the trap out of it; one within, where nothing is to be executed.
            "1: 00020010 040000ff 01140505\n",
            "1: 00000705\n7: 01000000\n",
            // A register at the grant's end: there is no window. One cell before it: a window of one cell, which P has left.
            "2: 04001005\n",
            "2: 04000f05\n",
        ],
        38,
    ),
    (
        [
            "1: 00010f05\n",
            // A window of one cell, which P has not left.
            "1: 00000f05\n15: 01000000\n",
            // Loads: the last usable address, the first past the bound, the first past the size.
            "2: 04000408\n7: 01000707\n11: 00000005\n",
            "2: 04000408\n7: 01000708\n11: 00000005\n",
            "2: 04000a14\n13: 01000505\n",
            "2: 04000a14\n13: 01000506\n",
            // Stores: the first two of these.
            "2: 04000408\n7: 01070707\n11: 00000005\n",
            "2: 04000408\n7: 01080707\n11: 00000005\n",
        ],
        21,
    ),
    (
        [
            // And the others.
            "2: 04000a14\n13: 01050505\n15: 00000005\n",
            "2: 04000a14\n13: 01060505\n15: 00000005\n",
            // A privileged instruction in user mode, a jump out of the window, a window of one cell.
            "1: 01020010 04000408\n",
            "1: 00030010 020000ff 01040506\n",
            "1: 00000201\n2: 01000000\n",
            // Stores into the cells of traps, and a trap after them.
            "1: 00020010 01000305 03000000 00000000 00000011\n",
            "1: 00020010 01010305 03000000 00000000 00000011\n",
            // A fetch at the end of the window that the grant cuts off, in user mode.
            "1: 01060a14\n",
        ],
        40,
    ),
    (
        [
            // A trap within what a trap began, each time to where cell 1 was set just before.
            "1: 00030010 03000000 01010109 03000000 0101010a 02000002\n9: 00020000 fffe0000\n",
            // A jump back out of cell 0, where it was stored.
            "2: 01000505 02000000\n5: 01000001\n",
            // A window that the grant cuts off, a jump past it, and the way back.
            "1: 00030010 04000aff 02000002\n13: 02000007\n",
            // The mode in cell 1 is turned before each call.
            "1: 00020010 0101010a 03000000\n10: ff000000\n",
            // Cell 1 is stored through a window that begins there.
            "2: 0400010f\n4: 01000405 00020010\n",
            // A register far past the grant, and an empty window.
            "1: 00020010 0400ffff\n",
            "1: 00020010 04000400\n",
            // A privileged instruction in user mode, in a window that the grant cuts off.
            "1: 01000a14\n10: 01030404 04000010\n14: 00000001\n",
        ],
        69,
    ),
];

/// Steps for each of eight guests and their slice, how many steps all do, and how many slices these are: before each the guest
/// is changed.
type Plan = (&'static str, &'static str, u64, u64);

const PLANS: [Plan; 10] = [
    ("0", "1", 0, 0),
    ("1", "1", 8, 8),
    ("2", "1", 16, 16),
    ("3", "3", 24, 8),
    ("4", "3", 32, 16),
    ("7", "3", 56, 24),
    ("20", "1", 160, 160),
    ("20", "3", 160, 56),
    ("1001", "1000", 8008, 16),
    ("1001", "1000000", 8008, 8),
];

/// The files of a batch: the description, and each image by the number of its guest.
fn setting(alloc: Global, desc: &str, images: &[&str; 8]) -> Result<Setting, AllocError> {
    let files = [
        ("d", desc),
        ("0", images[0]),
        ("1", images[1]),
        ("2", images[2]),
        ("3", images[3]),
        ("4", images[4]),
        ("5", images[5]),
        ("6", images[6]),
        ("7", images[7]),
    ];
    Setting::new(alloc, &files, &[], &[])
}

/// What is told of eight guests that end where bare machines of 16 cells do, which are switched on with the same images.
fn told_alone(alloc: Global, at: &mut Setting, steps: &str) -> Result<String, AllocError> {
    let mut told = String::new(alloc);
    for k in 0..8 {
        let line = format!(in alloc; "bare d {k} --grant 16 --steps {steps}")?;
        at.run(&line, &[])?;
        let one = format!(in alloc; "guest {k}\n{}", at.text())?;
        told.push_str(&one)?;
    }
    Ok(told)
}

/// Whether the loads of a run are one for each change of guest, and one for each step that is not direct.
fn are_counted(at: &Setting, turns: u64, changes: u64) -> bool {
    at.steps() == turns && at.loads().wrapping_add(at.direct()) == turns.wrapping_add(changes)
}

/// The guests of a setting end where bare machines do, by this plan. How many of their steps are direct.
fn agrees(alloc: Global, at: &mut Setting, plan: &Plan) -> Result<u64, Fail> {
    let (steps, slice, turns, changes) = *plan;
    let told = told_alone(alloc, at, steps)?;
    let line = format!(in alloc;
        "run d c 0 1 2 3 4 5 6 7 --grant 16 --steps {steps} --slice {slice}"
    )?;
    at.run(&line, &[])?;
    let direct = at.direct();
    let text = format!(in alloc; "{told}steps {turns} direct {direct}\n")?;
    if at.is(Status::Done, &text) && are_counted(at, turns, changes) {
        return Ok(direct);
    }
    Err(Fail::new(format_args!("{line}: {}", at.text())))
}

/// The guests of a batch end so by all plans.
fn batch_agrees(alloc: Global, desc: &str, batch: &Batch) -> Result<(), Fail> {
    let mut at = setting(alloc, desc, &batch.0)?;
    at.run("check d --cert c", &[])?;
    for plan in &PLANS {
        let direct = agrees(alloc, &mut at, plan)?;
        if plan.0 == "20" && direct != batch.1 {
            return Err(Fail::new(format_args!("{direct} of 20 steps are direct")));
        }
    }
    Ok(())
}

/// Guests end where bare machines do, and store the causes that those do where the head says so.
#[test]
fn guests_end_where_bare_machines_do(rt: HostRuntime) -> Result<(), Fail> {
    for head in [WIDE_HEAD, WIDE_HEAD_WITH_CAUSES] {
        let desc = format!(in rt.alloc(); "{head}{FOUR}")?;
        for batch in &BATCHES {
            batch_agrees(rt.alloc(), &desc, batch)?;
        }
    }
    Ok(())
}
