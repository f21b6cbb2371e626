//! The values of all signals at a time.

ghost use Rattle.std.specs.Prelude.{◌≡◌, None, true};
ghost use Rattle.pg_out_steps.specs.Dump.{sample_at_end};
ghost use Rattle.pg_out_steps.specs.Values.{cause_bits, direct_bit, has_stayed, mode_bit, same_value, value_of};

use crate::signal::Signal;
use crate::{Handling, Stepped};
use pg_word::{Cause, Mode, Psw};

/// The values of all signals.
#[derive(Clone, Copy)]
pub struct Sample {
    psw: Psw,
    instr: Option<usize>,
    cause: Option<Cause>,
    handling: Option<Handling>,
}

impl Sample {
    /// Those before a step, and what it does.
    pub fn of_step(stepped: &Stepped) -> Sample
        ensures psw { result.psw ≡ stepped.now.psw }
        ensures instr { result.instr ≡ stepped.now.instr }
        ensures cause { result.cause ≡ stepped.now.cause }
        ensures handling { result.handling ≡ stepped.now.handling }
    {
        Sample {
            psw: stepped.psw,
            instr: stepped.instr,
            cause: stepped.cause,
            handling: stepped.handling,
        }
    }

    /// Those at the end of a run.
    pub fn of_end(psw: Psw) -> Sample
        ensures { result ≡ sample_at_end psw }
    {
        Sample {
            psw,
            instr: None,
            cause: None,
            handling: None,
        }
    }

    /// The value of a signal; none where it is unknown.
    pub fn value(&self, signal: Signal) -> Option<u64>
        ensures { result ≡ value_of signal self.now }
    {
        match signal {
            Signal::Mode => Some(mode_bit(self.psw.mode)),
            Signal::P => Some(u64::from(self.psw.p)),
            Signal::L => Some(u64::from(self.psw.l)),
            Signal::B => Some(u64::from(self.psw.b)),
            Signal::Instr => number(self.instr),
            Signal::Cause => Some(cause_bits(self.cause)),
            Signal::Direct => direct_bit(self.handling),
        }
    }
}

/// The number of an instruction.
fn number(instr: Option<usize>) -> Option<u64>
    ensures { result ≡ instr }
{
    match instr {
        None => None,
        Some(number) => Some(number as u64),
    }
}

/// The bit of a mode.
fn mode_bit(mode: Mode) -> u64
    ensures { result ≡ mode_bit mode }
{
    match mode {
        Mode::S => 0,
        Mode::U => 1,
    }
}

/// The number of a cause.
fn cause_bits(cause: Option<Cause>) -> u64
    ensures { result ≡ cause_bits cause }
{
    match cause {
        None => 0,
        Some(Cause::Memory) => 1,
        Some(Cause::Trap) => 2,
        Some(Cause::NoPattern) => 3,
    }
}

/// The bit of how a monitor handles a step.
fn direct_bit(handling: Option<Handling>) -> Option<u64>
    ensures { result ≡ direct_bit handling }
{
    match handling {
        None => None,
        Some(Handling::Direct) => Some(1),
        Some(Handling::Emulated) => Some(0),
    }
}

/// Whether a signal has the value that it had before.
pub fn has_stayed(before: Option<Sample>, sample: &Sample, signal: Signal) -> bool
    ensures { result ≡ has_stayed before sample.now signal }
{
    match before {
        None => false,
        Some(before) => is_same(before.value(signal), sample.value(signal)),
    }
}

/// Whether two values are the same.
fn is_same(one: Option<u64>, other: Option<u64>) -> bool
    ensures { result ≡ same_value one other }
{
    match (one, other) {
        (None, None) => true,
        (Some(one), Some(other)) => one == other,
        (None, Some(_)) | (Some(_), None) => false,
    }
}
