//! Turns of the guest at work.
//!
//! In supervisor mode its instruction is interpreted, from its own program status word and in the monitor's frame: the
//! hardware is peeked and poked alone. In user mode the hardware executes its instructions under the composed program
//! status word, until one traps: these are the direct turns, and a run of them is one burst. A direct step leaves mode,
//! relocation and bound, so that the guest stays in user mode, and P alone follows. The machine's trap enters the control
//! program, which is in supervisor mode, so the mode tells whether a step trapped. The trap has stored the program status
//! word of its entry in cell 0, where the guest's P stands; the instruction that trapped is then interpreted from there.

ghost use Rattle.std.specs.Prelude.{◌≡◌, ◌<◌, ◌≤◌};
ghost use Rattle.pg_word.specs.declared.psw.Mode.TheVariants.{U};
ghost use Rattle.pg_type.specs.Accepting.{IsHybridAccepted};
ghost use Rattle.pg_hw.specs.Serving.{IsServed};
ghost use Rattle.pg_mon_control.specs.Current.{Holds, Runs};
ghost use Rattle.pg_hybrid.specs.Current.{Interpreted, Stepped};

use pg_hw::Hardware;
use pg_interp::Frame;
use pg_mach_ready::Machine;
use pg_mon_control::Guest;
use pg_routine::emulate_told;
use pg_word::{Mode, OLD_PSW_CELL, unpack};

/// Turns that were done by the hardware.
#[derive(Clone, Copy)]
pub(crate) struct Burst {
    /// How many they were.
    pub(crate) done: u64,
    /// Whether none of them trapped, so that the hardware runs the guest still.
    pub(crate) goes_on: bool,
}

/// Interprets one turn of a guest.
pub(crate) fn interpret<H: Hardware>(m: &Machine, hw: &mut H, guest: &mut Guest, frame: &mut Frame)
    requires served { IsServed (H.serves (H.fixed hw.old)) m.now.desc }
    requires holds { Holds m.now.desc (H.machinery hw.old).state guest.old }
    ensures interpreted { Interpreted m.now.desc (H.machinery hw.old) (H.machinery hw.new) guest.old guest.new }
    ensures fixed { H.fixed hw.new ≡ H.fixed hw.old }
{
    let mut psw = guest.psw;
    emulate_told(m, hw, guest.base, guest.size, &mut psw, frame);
    guest.psw = psw;
}

/// Some turns of the guest that the hardware runs and that is in user mode, `most` at most and one at least: a burst, and
/// where its last step trapped, that step interpreted.
pub(crate) fn burst_on<H: Hardware>(
    m: &Machine,
    hw: &mut H,
    guest: &mut Guest,
    most: u64,
    frame: &mut Frame,
) -> Burst
    requires accepted { ∥ IsHybridAccepted m.now.desc ∥₁ }
    requires served { IsServed (H.serves (H.fixed hw.old)) m.now.desc }
    requires runs { Runs m.now.desc (H.machinery hw.old).state guest.old }
    requires user { guest.old.psw.mode ≡ U }
    requires some { 0 < most }
    ensures least { 1 ≤ result.done }
    ensures most { result.done ≤ most }
    ensures stepped { Stepped m.now.desc result.done result.goes_on (H.machinery hw.old) (H.machinery hw.new) guest.old guest.new }
    ensures fixed { H.fixed hw.new ≡ H.fixed hw.old }
{
    let done = hw.burst(m, most);
    let psw = hw.psw();
    match psw.mode {
        Mode::U => {
            guest.psw.p = psw.p;
            Burst {
                done,
                goes_on: true,
            }
        }
        Mode::S => {
            guest.psw.p = unpack(m.shape(), hw.peek(OLD_PSW_CELL)).p;
            interpret(m, hw, guest, frame);
            Burst {
                done,
                goes_on: false,
            }
        }
    }
}
