//! A run of a machine from its image on.

ghost use Rattle.std.specs.Prelude.{◌≡◌, ◌^◌, ◌<◌, ◌≤◌, length, All, IfOk, IsErrOf, OnOk};
ghost use Rattle.pg_ast.specs.declared.tree.Desc.{Desc};
ghost use Rattle.pg_edge.specs.Count.{Rose};
ghost use Rattle.pg_edge.specs.Sink.{Adds};
ghost use Rattle.pg_edge.specs.Told.{BothTold};
ghost use Rattle.pg_hw.specs.Running.{Ran};
ghost use Rattle.pg_hw.specs.Serving.{IsServed};
ghost use Rattle.pg_lang_meaning.specs.States.{IsState};
ghost use Rattle.pg_lang_meaning.specs.Steps.{bare, power_on};
ghost use Rattle.pg_lang_valid.specs.Valid.{IsValid};
ghost use Rattle.pg_out_steps.specs.Dump.{dump_text, last_sample, sample_at_end, steps_text};
ghost use Rattle.pg_out_steps.specs.Values.{sample_text};

use crate::head::push_head;
use crate::sample::Sample;
use crate::signal::{Signal, signals_of};
use crate::times::push_sample;
use crate::{Monitor, TraceFault, Tracer};
use pg_edge::Sink;
use pg_hw::{Hardware, power_on};
use pg_mach_ready::Machine;
use std::alloc::Global;

/// Switches a hardware on with an image, all of whose cells are a word of the machine, runs it for `n` steps, less than 2^32, and puts
/// its dump. The state that is reached is that of a bare machine. Where a monitor is named it is told of each step how the monitor
/// would handle it.
///
/// # Errors
/// `Output` where a put failed, and `Memory` where there is none for the head or for a time.
pub fn put_dump<H: Hardware, S: Sink>(
    alloc: Global,
    m: &Machine,
    image: &[u64],
    hw: &mut H,
    out: &mut S,
    n: u64,
    monitor: Option<Monitor>,
) -> Result<(), TraceFault>
    requires serves { (d : Desc) → IsValid d → H.serves (H.fixed hw.old) d }
    requires room { length image.now ≤ H.room (H.fixed hw.old) }
    requires least { 2 ≤ length image.now }
    requires small { length image.now ≤ 1048575 }
    requires most { length image.now ≤ m.now.desc.size }
    requires words { All (λ word. word < 2 ^ m.now.desc.word) image.now }
    requires few { n < 2 ^ 32 }
    ensures reached { OnOk result ((H.machinery hw.new).state ≡ bare m.now.desc image.now (length image.now) n) }
    ensures put { OnOk result (BothTold (S.written out.old) (S.written out.new)
        (Adds (dump_text monitor m.now.desc n (power_on image.now (length image.now))))) }
    ensures later { S.faults out.old ≤ S.faults out.new }
    ensures cause { IsErrOf result TraceFault.Output → Rose (S.faults out.old) (S.faults out.new) }
{
    let mut text = Vec::new(alloc);
    push_head(&mut text, m, monitor)?;
    hw.install(image.len() as u32)?;
    power_on(hw, image);
    out.put(text.as_slice())?;
    let last = put_steps(m, hw, out, &mut text, n, monitor)?;
    put_end(out, &mut text, n, hw, signals_of(monitor), last)
}

/// Runs a machine on a hardware for `n` steps, less than 2^32, and puts the time of each; the values at the last, if there is one. The
/// buffer is for a time; what it holds means nothing.
fn put_steps<H: Hardware, S: Sink>(
    m: &Machine,
    hw: &mut H,
    out: &mut S,
    text: &mut Vec<u8>,
    n: u64,
    monitor: Option<Monitor>,
) -> Result<Option<Sample>, TraceFault>
    requires served { IsServed (H.serves (H.fixed hw.old)) m.now.desc }
    requires state { IsState m.now.desc (H.machinery hw.old).state }
    requires few { n < 2 ^ 32 }
    ensures last { IfOk result (λ last. last ≡ last_sample monitor m.now.desc n (H.machinery hw.old).state) }
    ensures ran { OnOk result (Ran m.now.desc n (H.machinery hw.old) (H.machinery hw.new)) }
    ensures put { OnOk result (BothTold (S.written out.old) (S.written out.new)
        (Adds (steps_text monitor m.now.desc n (H.machinery hw.old).state))) }
    ensures later { S.faults out.old ≤ S.faults out.new }
    ensures cause { IsErrOf result TraceFault.Output → Rose (S.faults out.old) (S.faults out.new) }
    ensures fixed { H.fixed hw.new ≡ H.fixed hw.old }
{
    let signals = signals_of(monitor);
    let mut tracer = Tracer::new(monitor);
    let mut last = None;
    for done in 0..n {
        let stepped = tracer.step(m, hw);
        let sample = Sample::of_step(&stepped);
        put_sample(out, text, done, signals, last, &sample)?;
        last = Some(sample);
    }
    Ok(last)
}

/// Puts the time behind the last step.
fn put_end<H: Hardware, S: Sink>(
    out: &mut S,
    text: &mut Vec<u8>,
    n: u64,
    hw: &H,
    signals: &[Signal],
    last: Option<Sample>,
) -> Result<(), TraceFault>
    ensures put { OnOk result (BothTold (S.written out.old) (S.written out.new)
        (Adds (sample_text n signals.now last (sample_at_end (H.machinery hw.now).state.psw)))) }
    ensures later { S.faults out.old ≤ S.faults out.new }
    ensures cause { IsErrOf result TraceFault.Output → Rose (S.faults out.old) (S.faults out.new) }
{
    let sample = Sample::of_end(hw.psw());
    put_sample(out, text, n, signals, last, &sample)
}

/// Puts a time. What the buffer holds means nothing.
fn put_sample<S: Sink>(
    out: &mut S,
    text: &mut Vec<u8>,
    time: u64,
    signals: &[Signal],
    before: Option<Sample>,
    sample: &Sample,
) -> Result<(), TraceFault>
    ensures put { OnOk result (BothTold (S.written out.old) (S.written out.new) (Adds (sample_text time signals.now before sample.now))) }
    ensures later { S.faults out.old ≤ S.faults out.new }
    ensures cause { IsErrOf result TraceFault.Output → Rose (S.faults out.old) (S.faults out.new) }
{
    text.clear();
    push_sample(text, time, signals, before, sample)?;
    out.put(text.as_slice())?;
    Ok(())
}
