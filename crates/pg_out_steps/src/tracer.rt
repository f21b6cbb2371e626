//! Steps of a machine, one at a time, each with a record of what it did.
//!
//! Before a step the interpreter executes the instruction at P over the cells of the hardware, and changes none; then the
//! hardware makes the step. So the state is the hardware's own, and the record is what the definitions say of the step.

ghost use Rattle.std.specs.Prelude.{◌≡◌, ◌<◌, length, slice_get, IfSome};
ghost use Rattle.pg_lang_meaning.specs.States.{IsState, window};
ghost use Rattle.pg_lang_meaning.specs.Steps.{ending};
ghost use Rattle.pg_hw.specs.Serving.{IsServed};
ghost use Rattle.pg_hw.specs.Running.{Ran};
ghost use Rattle.pg_interp.specs.Outcomes.{IsOutcome, outcome_in, number_at, number_of_fetched};
ghost use Rattle.pg_out_steps.specs.Fitting.{Fits};
ghost use Rattle.pg_out_steps.specs.Handling.{handling_under};
ghost use Rattle.pg_out_steps.specs.Tells.{Tells, cause_as};

use crate::handling::{Monitor, next_handling};
use crate::stepped::Stepped;
use crate::window::Window;
use pg_hw::Hardware;
use pg_interp::{Cells, Ended, Frame, Write, step_in};
use pg_mach_ready::Machine;
use pg_word::{Cause, OLD_PSW_CELL, Psw};

/// Who makes steps and tells of them.
#[derive(Drop)]
pub struct Tracer {
    monitor: Option<Monitor>,
    frame: Frame,
}

impl Tracer {
    /// One that made no step yet, and tells how a monitor of this kind would handle them, where there is one.
    pub fn new(monitor: Option<Monitor>) -> Tracer
        ensures { result.monitor ≡ monitor }
    {
        Tracer {
            monitor,
            frame: Frame::new(),
        }
    }

    /// The stores of the last step, in order, at addresses of its window. They mean something where it was done.
    pub fn stores(&self) -> &[Write]
        ensures { result.now ≡ self.now.frame.writes }
    {
        self.frame.writes.as_slice()
    }

    /// Makes a step of a machine on a hardware, and tells what it did.
    pub fn step<H: Hardware>(&mut self, m: &Machine, hw: &mut H) -> Stepped
        requires served { IsServed (H.serves (H.fixed hw.old)) m.now.desc }
        requires state { IsState m.now.desc (H.machinery hw.old).state }
        ensures tells { Tells m.now.desc (H.machinery hw.old).state self.new.frame.writes result }
        ensures handling { result.handling ≡ handling_under self.old.monitor m.now.desc (H.machinery hw.old).state }
        ensures same_monitor { self.new.monitor ≡ self.old.monitor }
        ensures fits { Fits m.now.desc self.new.frame.writes result }
        ensures ran { Ran m.now.desc 1 (H.machinery hw.old) (H.machinery hw.new) }
        ensures fixed { H.fixed hw.new ≡ H.fixed hw.old }
    {
        let psw = hw.psw();
        let word = fetched(hw);
        let handling = next_handling(m, hw, self.monitor, &mut self.frame);
        let ended = executed(m, hw, psw, &mut self.frame);
        hw.step(m);
        Stepped {
            psw,
            word,
            instr: decoded(m, word),
            cause: cause_of(ended),
            next: hw.psw(),
            kept: hw.peek(OLD_PSW_CELL),
            handling,
        }
    }
}

/// The word at P, which the next step fetches.
fn fetched<H: Hardware>(hw: &H) -> Option<u64>
    ensures { let s = (H.machinery hw.now).state in result ≡ slice_get (window s) s.psw.p }
{
    Window { hw }.cell(hw.psw().p)
}

/// How the next step ends, in a frame.
fn executed<H: Hardware>(m: &Machine, hw: &H, psw: Psw, frame: &mut Frame) -> Ended
    requires state { IsState m.now.desc (H.machinery hw.now).state }
    requires psw { psw ≡ (H.machinery hw.now).state.psw }
    ensures { let s = (H.machinery hw.now).state in
        IsOutcome m.now.desc.word (window s) (ending m.now.desc (window s) s.psw) (outcome_in frame.new result) }
{
    step_in(m, &Window { hw }, psw, frame)
}

/// The number of the instruction that a word means.
fn decoded(m: &Machine, word: Option<u64>) -> Option<usize>
    ensures number { result ≡ number_of_fetched m.now.desc word }
    ensures within { IfSome result (λ k. k < length m.now.desc.instrs) }
{
    match word {
        None => None,
        Some(word) => m.decode(word),
    }
}

/// Why a step traps that ends so.
fn cause_of(ended: Ended) -> Option<Cause>
    ensures { result ≡ cause_as ended }
{
    match ended {
        Ended::MemTrap => Some(Cause::Memory),
        Ended::Trap => Some(Cause::Trap),
        Ended::NoPattern => Some(Cause::NoPattern),
        Ended::Done => None,
    }
}
