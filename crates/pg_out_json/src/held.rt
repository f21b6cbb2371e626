//! The state that a hardware holds.

ghost use Rattle.std.specs.Prelude.{◌<◌, ◌≤◌, IsErrOf, length};
ghost use Rattle.pg_edge.specs.Count.{Rose};

use crate::state::{push_begun, push_cell, push_ended};
use pg_edge::Sink;
use pg_hw::Hardware;
use pg_mach_ready::Machine;
use pg_out_place::Text;
use pg_out_steps::TraceFault;

/// How many bytes of a state are held before they are put.
const HELD: usize = 16_384;

/// Puts the state of a hardware behind what a buffer holds, which is put before it and then holds nothing.
pub fn put_held<H: Hardware, S: Sink>(
    out: &mut S,
    text: &mut Text,
    m: &Machine,
    hw: &H,
) -> Result<(), TraceFault>
    ensures later { S.faults out.old ≤ S.faults out.new }
    ensures cause { IsErrOf result TraceFault.Output → Rose (S.faults out.old) (S.faults out.new) }
{
    push_begun(text, u64::from(hw.size()), hw.psw());
    let mut next = None;
    for at in 0..hw.size() {
        next = push_held(text, m, hw, next, at);
        if text.len() > HELD {
            out.put(text.whole()?)?;
            text.clear();
        }
    }
    push_ended(text, next);
    out.put(text.whole()?)?;
    text.clear();
    Ok(())
}

/// Pushes a cell of a hardware, where it is not zero.
fn push_held<H: Hardware>(
    text: &mut Text,
    m: &Machine,
    hw: &H,
    next: Option<u64>,
    at: u32,
) -> Option<u64>
    requires { at < length (H.machinery hw.now).state.cells }
{
    match hw.peek(at) {
        0 => next,
        word => push_cell(text, m, next, at, word),
    }
}
