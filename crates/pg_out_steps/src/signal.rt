//! What is dumped of a run.

ghost use Rattle.std.specs.Prelude.{◌≡◌, [], ◌∷◌};
ghost use Rattle.pg_out_steps.specs.Values.{bits_of, letter_of, name_of, signals_of};

use crate::Monitor;

/// A signal.
#[derive(Clone, Copy, Debug, PartialEq, Eq)]
pub enum Signal {
    /// The mode: 0 in supervisor mode, 1 in user mode.
    Mode,
    /// The address P.
    P,
    /// The first cell of the window.
    L,
    /// How many cells the window has.
    B,
    /// The number of the instruction, in the order of the description, from 0 on; unknown where there is none.
    Instr,
    /// Why the step traps: 0 where it does not, 1 memory, 2 trap, 3 no pattern.
    Cause,
    /// Whether the hardware of a monitor does the step.
    Direct,
}

/// The signals of a run: `Direct` is one where a monitor is named.
pub fn signals_of(monitor: Option<Monitor>) -> &'static [Signal]
    ensures { result.now ≡ signals_of monitor }
{
    match monitor {
        None => &[
            Signal::Mode,
            Signal::P,
            Signal::L,
            Signal::B,
            Signal::Instr,
            Signal::Cause,
        ],
        Some(_) => &[
            Signal::Mode,
            Signal::P,
            Signal::L,
            Signal::B,
            Signal::Instr,
            Signal::Cause,
            Signal::Direct,
        ],
    }
}

impl Signal {
    /// Its name, for people.
    pub fn name(self) -> &'static [u8]
        ensures { result.now ≡ name_of self }
    {
        match self {
            Signal::Mode => b"mode",
            Signal::P => b"P",
            Signal::L => b"l",
            Signal::B => b"b",
            Signal::Instr => b"instr",
            Signal::Cause => b"cause",
            Signal::Direct => b"direct",
        }
    }

    /// The letter that stands for it in the dump.
    pub fn letter(self) -> u8
        ensures { result ≡ letter_of self }
    {
        match self {
            Signal::Mode => b'm',
            Signal::P => b'p',
            Signal::L => b'l',
            Signal::B => b'b',
            Signal::Instr => b'i',
            Signal::Cause => b'c',
            Signal::Direct => b'd',
        }
    }

    /// How many bits it has.
    pub fn bits(self) -> u32
        ensures { result ≡ bits_of self }
    {
        match self {
            Signal::Mode | Signal::Direct => 1,
            Signal::Cause => 2,
            Signal::P | Signal::L | Signal::B | Signal::Instr => 20,
        }
    }
}
