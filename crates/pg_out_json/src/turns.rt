//! Many steps, those that are told in pieces.

ghost use Rattle.std.specs.Prelude.{◌≡◌, ◌^◌, ◌<◌, ◌≤◌, IfOk, IsErrOf, OnOk};
ghost use Rattle.pg_edge.specs.Count.{Rose};
ghost use Rattle.pg_lang_meaning.specs.States.{IsState};
ghost use Rattle.pg_hw.specs.Serving.{IsServed};
ghost use Rattle.pg_hw.specs.Running.{Ran};
ghost use Rattle.pg_out_steps.specs.Counting.{IsTally};

use crate::asked::asked_cause;
use crate::held::put_held;
use crate::pieces::Pieces;
use crate::turn::{Turn, push_turn};
use pg_edge::Sink;
use pg_hw::Hardware;
use pg_interp::Frame;
use pg_mach_ready::Machine;
use pg_out_place::Text;
use pg_out_steps::{Monitor, Tally, TraceFault, Tracer};
use pg_word::{Cause, Mode};
use std::alloc::Global;

/// Runs a machine on a hardware for `n` steps, less than 2^32, and puts the pieces of the run that are told, as a list up to the end
/// of the last turns; all steps are counted. Where a monitor is named it is told of each step how the monitor would handle it. What the buffer holds is put first.
pub fn put_turns<H: Hardware, S: Sink>(
    alloc: Global,
    m: &Machine,
    hw: &mut H,
    out: &mut S,
    text: &mut Text,
    n: u64,
    monitor: Option<Monitor>,
) -> Result<Tally, TraceFault>
    requires served { IsServed (H.serves (H.fixed hw.old)) m.now.desc }
    requires state { IsState m.now.desc (H.machinery hw.old).state }
    requires few { n < 2 ^ 32 }
    ensures tally { IfOk result (λ t. IsTally m.now.desc n (H.machinery hw.old).state t) }
    ensures ran { OnOk result (Ran m.now.desc n (H.machinery hw.old) (H.machinery hw.new)) }
    ensures later { S.faults out.old ≤ S.faults out.new }
    ensures cause { IsErrOf result TraceFault.Output → Rose (S.faults out.old) (S.faults out.new) }
    ensures fixed { H.fixed hw.new ≡ H.fixed hw.old }
{
    let mut tracer = Tracer::new(monitor);
    let mut tally = Tally::new(alloc, m)?;
    let mut frame = Frame::new();
    let mut pieces = Pieces::new(n);
    put_piece(out, text, m, hw, b"[{\"at\":", 0)?;
    for done in 0..n {
        put_next_piece(out, text, m, hw, &mut pieces, done)?;
        let asked = next_asked(m, hw, monitor, &mut frame);
        let stepped = tracer.step(m, hw);
        tally.count(&stepped);
        let turn = Turn {
            stepped: &stepped,
            stores: tracer.stores(),
            size: hw.size(),
            asked,
        };
        put_turn(alloc, out, text, m, &turn, &mut pieces)?;
    }
    Ok(tally)
}

/// Puts the end of a piece and the begin of the next one, where that begins behind so many steps.
fn put_next_piece<H: Hardware, S: Sink>(
    out: &mut S,
    text: &mut Text,
    m: &Machine,
    hw: &H,
    pieces: &mut Pieces,
    done: u64,
) -> Result<(), TraceFault>
    ensures later { S.faults out.old ≤ S.faults out.new }
    ensures cause { IsErrOf result TraceFault.Output → Rose (S.faults out.old) (S.faults out.new) }
{
    if pieces.begins(done) {
        put_piece(out, text, m, hw, b"]},\n{\"at\":", done)
    } else {
        Ok(())
    }
}

/// Puts the begin of a piece: how many steps were done, and the state.
fn put_piece<H: Hardware, S: Sink>(
    out: &mut S,
    text: &mut Text,
    m: &Machine,
    hw: &H,
    before: &[u8],
    done: u64,
) -> Result<(), TraceFault>
    ensures later { S.faults out.old ≤ S.faults out.new }
    ensures cause { IsErrOf result TraceFault.Output → Rose (S.faults out.old) (S.faults out.new) }
{
    text.push(before);
    text.push_number(done);
    text.push(b",\"state\":");
    put_held(out, text, m, hw)?;
    text.push(b",\"turns\":[");
    Ok(())
}

/// Why the hardware would trap at the next step, where a monitor asks it to do the step, and it would.
fn next_asked<H: Hardware>(
    m: &Machine,
    hw: &H,
    monitor: Option<Monitor>,
    frame: &mut Frame,
) -> Option<Cause>
    requires state { IsState m.now.desc (H.machinery hw.now).state }
{
    match (monitor, hw.psw().mode) {
        (None, _) | (Some(Monitor::Hybrid), Mode::S) => None,
        (Some(Monitor::Plain), _) | (Some(Monitor::Hybrid), Mode::U) => asked_cause(m, hw, frame),
    }
}

/// Puts a step, where it is told: behind the text that the buffer holds, which is empty but for the begin of a piece.
fn put_turn<S: Sink>(
    alloc: Global,
    out: &mut S,
    text: &mut Text,
    m: &Machine,
    turn: &Turn<'_>,
    pieces: &mut Pieces,
) -> Result<(), TraceFault>
    ensures later { S.faults out.old ≤ S.faults out.new }
    ensures cause { IsErrOf result TraceFault.Output → Rose (S.faults out.old) (S.faults out.new) }
{
    if !pieces.tells() {
        return Ok(());
    }
    text.push(if text.is_empty() { b",\n" } else { b"\n" });
    push_turn(alloc, text, m, turn)?;
    out.put(text.whole()?)?;
    text.clear();
    Ok(())
}
