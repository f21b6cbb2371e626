//! How a monitor would handle a step of a machine that is its guest.
//!
//! The hardware runs a guest in user mode, under a program status word that is composed of the guest's own. A step that does not trap
//! there is the hardware's, and the monitor does every other one. So the interpreter executes the instruction at P under the
//! composed word too, over the same cells, and tells how that ends.

ghost use Rattle.std.specs.Prelude.{◌≡◌, length};
ghost use Rattle.pg_mon_control.specs.Direct.{is_direct};
ghost use Rattle.pg_lang_meaning.specs.States.{IsState};
ghost use Rattle.pg_routine.specs.Composing.{composed};
ghost use Rattle.pg_out_steps.specs.Handling.{asks, goes_direct, handled, handled_as, handling_under};

use crate::window::Window;
use pg_hw::Hardware;
use pg_interp::{Ended, Frame, step_in};
use pg_mach_ready::Machine;
use pg_routine::compose;
use pg_word::{Mode, Psw};

/// What kind of monitor runs a machine.
#[derive(Clone, Copy, Debug, PartialEq, Eq)]
pub enum Monitor {
    /// One that asks the hardware to do each step.
    Plain,
    /// A hybrid one: it interprets each step from supervisor mode, and asks the hardware to do the others.
    Hybrid,
}

/// How a monitor handles a step.
#[derive(Clone, Copy, Debug, PartialEq, Eq)]
pub enum Handling {
    /// The hardware does it, and does not trap.
    Direct,
    /// The monitor does it.
    Emulated,
}

/// How a monitor of this kind would handle the next step of a machine on a hardware, in a grant of as many cells as the hardware has;
/// none where there is no monitor. What the frame holds then means nothing.
pub(crate) fn next_handling<H: Hardware>(
    m: &Machine,
    hw: &H,
    monitor: Option<Monitor>,
    frame: &mut Frame,
) -> Option<Handling>
    requires state { IsState m.now.desc (H.machinery hw.now).state }
    ensures { result ≡ handling_under monitor m.now.desc (H.machinery hw.now).state }
{
    match monitor {
        None => None,
        Some(monitor) => Some(handling_by(m, hw, monitor, frame)),
    }
}

/// How a monitor of this kind would handle the next step.
fn handling_by<H: Hardware>(m: &Machine, hw: &H, monitor: Monitor, frame: &mut Frame) -> Handling
    requires state { IsState m.now.desc (H.machinery hw.now).state }
    ensures { result ≡ handled (goes_direct monitor m.now.desc 0 (H.machinery hw.now).state) }
{
    if asks(monitor, hw.psw().mode) {
        asked(m, hw, frame)
    } else {
        Handling::Emulated
    }
}

/// Whether a monitor asks the hardware to do a step from a mode.
fn asks(monitor: Monitor, mode: Mode) -> bool
    ensures { result ≡ asks monitor mode }
{
    match (monitor, mode) {
        (Monitor::Plain, _) | (Monitor::Hybrid, Mode::U) => true,
        (Monitor::Hybrid, Mode::S) => false,
    }
}

/// How the next step is handled where the hardware is asked to do it.
fn asked<H: Hardware>(m: &Machine, hw: &H, frame: &mut Frame) -> Handling
    requires state { IsState m.now.desc (H.machinery hw.now).state }
    ensures { result ≡ handled (is_direct m.now.desc 0 (H.machinery hw.now).state) }
{
    let psw = guest_psw(hw);
    let ended = step_in(m, &Window { hw }, psw, frame);
    handling_as(ended)
}

/// The program status word under which the hardware would run the machine as a guest, in a grant of all its cells.
fn guest_psw<H: Hardware>(hw: &H) -> Psw
    ensures { let s = (H.machinery hw.now).state in result ≡ composed s.psw 0 (length s.cells) }
{
    compose(hw.psw(), 0, hw.size())
}

/// How a step is handled that ends so where the hardware does it for the guest.
fn handling_as(ended: Ended) -> Handling
    ensures { result ≡ handled_as ended }
{
    match ended {
        Ended::Done => Handling::Direct,
        Ended::MemTrap | Ended::Trap | Ended::NoPattern => Handling::Emulated,
    }
}
