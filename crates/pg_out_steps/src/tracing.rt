//! Many steps, each with its line.

ghost use Rattle.std.specs.Prelude.{◌≡◌, ◌^◌, ◌<◌, ◌≤◌, length, All, IfOk, OnOk, OnErr, IsErrOf};
ghost use Rattle.pg_ast.specs.declared.tree.Desc.{Desc};
ghost use Rattle.pg_lang_meaning.specs.Steps.{bare, power_on};
ghost use Rattle.pg_lang_valid.specs.Valid.{IsValid};
ghost use Rattle.pg_edge.specs.Count.{Rose};
ghost use Rattle.pg_lang_meaning.specs.States.{IsState};
ghost use Rattle.pg_hw.specs.Serving.{IsServed};
ghost use Rattle.pg_hw.specs.Running.{Ran};
ghost use Rattle.pg_out_steps.specs.Counting.{IsBalanced, IsTally};
ghost use Rattle.pg_out_steps.specs.Fitting.{Fits};
ghost use Rattle.pg_out_steps.specs.Handling.{AreShares};
ghost use Rattle.pg_out_steps.specs.Putting.{PutsUpTo};
ghost use Rattle.pg_out_steps.specs.Traces.{PutsTrace, PutsSome, is_shown, shown_step};
ghost use Rattle.pg_out_steps.specs.declared.tracing.TraceFault.TheVariants.{Memory, Output};

use crate::line::push_step;
use crate::shows::{Shows, Telling};
use crate::stepped::Stepped;
use crate::tally::Tally;
use crate::tracer::Tracer;
use pg_edge::{Failed, Sink};
use pg_hw::{Hardware, power_on};
use pg_interp::Write;
use pg_mach_ready::Machine;
use pg_word::Cause;
use std::alloc::{AllocError, Global};

/// Why a trace ends before its last step.
#[derive(Clone, Copy, Debug, PartialEq, Eq)]
pub enum TraceFault {
    /// A line could not be put.
    Output,
    /// Memory was refused, for counts or for a line.
    Memory,
}

impl From<AllocError> for TraceFault {
    ghost from_gives = { λ _ fault. fault ≡ Memory };

    fn from(_error: AllocError) -> TraceFault {
        TraceFault::Memory
    }
}

impl From<Failed> for TraceFault {
    ghost from_gives = { λ _ fault. fault ≡ Output };

    fn from(_error: Failed) -> TraceFault {
        TraceFault::Output
    }
}

/// Runs a machine on a hardware for `n` steps, less than 2^32, puts the lines of those that are shown, and counts all. Where a monitor
/// is named it is told of each how the monitor would handle it.
///
/// # Errors
/// `Output` where a put failed, and `Memory` where there is none for counts or a line. A front of the lines is then put.
pub fn trace<H: Hardware, S: Sink>(
    alloc: Global,
    m: &Machine,
    hw: &mut H,
    out: &mut S,
    n: u64,
    telling: Telling,
) -> Result<Tally, TraceFault>
    requires served { IsServed (H.serves (H.fixed hw.old)) m.now.desc }
    requires state { IsState m.now.desc (H.machinery hw.old).state }
    requires few { n < 2 ^ 32 }
    ensures tally { IfOk result (λ t. IsTally m.now.desc n (H.machinery hw.old).state t) }
    ensures shares { IfOk result (λ t. AreShares telling.monitor m.now.desc n (H.machinery hw.old).state t.shares) }
    ensures balanced { IfOk result IsBalanced }
    ensures ran { OnOk result (Ran m.now.desc n (H.machinery hw.old) (H.machinery hw.new)) }
    ensures puts { OnOk result (PutsTrace telling m.now.desc n (H.machinery hw.old).state (S.written out.old) (S.written out.new)) }
    ensures front { OnErr result (PutsSome telling m.now.desc n (H.machinery hw.old).state (S.written out.old) (S.written out.new)) }
    ensures later { S.faults out.old ≤ S.faults out.new }
    ensures cause { IsErrOf result Output → Rose (S.faults out.old) (S.faults out.new) }
    ensures fixed { H.fixed hw.new ≡ H.fixed hw.old }
{
    let mut tracer = Tracer::new(telling.monitor);
    let mut tally = Tally::new(alloc, m)?;
    let mut line = Vec::new(alloc);
    for done in 0..n {
        let stepped = tracer.step(m, hw);
        tally.count(&stepped);
        let stores = tracer.stores();
        put_shown(out, &mut line, m, done + 1, stores, &stepped, telling.shows)?;
    }
    Ok(tally)
}

/// Switches a hardware on with an image, all of whose cells are a word of the machine, and traces `n` steps, less than 2^32. The
/// state that is reached is that of a bare machine.
pub fn trace_bare<H: Hardware, S: Sink>(
    alloc: Global,
    m: &Machine,
    image: &[u64],
    hw: &mut H,
    out: &mut S,
    n: u64,
    telling: Telling,
) -> Result<Tally, TraceFault>
    requires serves { (d : Desc) → IsValid d → H.serves (H.fixed hw.old) d }
    requires room { length image.now ≤ H.room (H.fixed hw.old) }
    requires least { 2 ≤ length image.now }
    requires small { length image.now ≤ 1048575 }
    requires most { length image.now ≤ m.now.desc.size }
    requires words { All (λ word. word < 2 ^ m.now.desc.word) image.now }
    requires few { n < 2 ^ 32 }
    ensures tally { IfOk result (λ t. IsTally m.now.desc n (power_on image.now (length image.now)) t) }
    ensures shares { IfOk result (λ t. AreShares telling.monitor m.now.desc n (power_on image.now (length image.now)) t.shares) }
    ensures balanced { IfOk result IsBalanced }
    ensures state { OnOk result ((H.machinery hw.new).state ≡ bare m.now.desc image.now (length image.now) n) }
    ensures puts { OnOk result (PutsTrace telling m.now.desc n (power_on image.now (length image.now)) (S.written out.old) (S.written out.new)) }
    ensures front { OnErr result (PutsSome telling m.now.desc n (power_on image.now (length image.now)) (S.written out.old) (S.written out.new)) }
    ensures later { S.faults out.old ≤ S.faults out.new }
    ensures cause { IsErrOf result Output → Rose (S.faults out.old) (S.faults out.new) }
{
    hw.install(image.len() as u32)?;
    power_on(hw, image);
    trace(alloc, m, hw, out, n, telling)
}

/// Puts the line of a step, where it is shown. The buffer is for the line; what it holds means nothing.
fn put_shown<S: Sink>(
    out: &mut S,
    line: &mut Vec<u8>,
    m: &Machine,
    number: u64,
    stores: &[Write],
    stepped: &Stepped,
    shows: Shows,
) -> Result<(), TraceFault>
    requires { Fits m.now.desc stores.now stepped.now }
    ensures { PutsUpTo (S.written out.old) (S.written out.new) (S.faults out.old) (S.faults out.new)
        (shown_step shows m.now.desc number stores.now stepped.now) result }
{
    if !is_shown(shows, stepped.cause) {
        return Ok(());
    }
    line.clear();
    push_step(line, m, number, stores, stepped)?;
    out.put(line.as_slice())?;
    Ok(())
}

/// Whether a step has a line that trapped for such a cause, if for any.
fn is_shown(shows: Shows, cause: Option<Cause>) -> bool
    ensures { result ≡ is_shown shows cause }
{
    match (shows, cause) {
        (Shows::Steps, _) | (Shows::Traps, Some(_)) => true,
        (Shows::Traps, None) | (Shows::Counts, _) => false,
    }
}
