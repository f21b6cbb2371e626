//! Turns of the guest that the hardware runs.
//!
//! The hardware executes a guest's instructions itself, in user mode and under the composed program status word, until one
//! traps: these are the direct turns, and a run of them is one burst. The machine's trap enters the control program, which
//! is in supervisor mode, so the mode tells whether a step trapped. The trap has stored the program status word of its
//! entry in cell 0, where the guest's P stands: mode, relocation and bound of the guest are as they were, since no direct
//! step of an accepted machine changes them. The instruction that trapped is then interpreted from the guest's own program
//! status word, and the guest is entered again. It is interpreted in the monitor's frame, which is lent to each turn.

ghost use Rattle.std.specs.Prelude.{◌≡◌, ◌+◌, ◌<◌, ◌≤◌, ◌^◌, true, false};
ghost use Rattle.pg_type.specs.Accepting.{IsAccepted};
ghost use Rattle.pg_lang_meaning.specs.Steps.{step};
ghost use Rattle.pg_hw.specs.Bursts.{traps};
ghost use Rattle.pg_hw.specs.Stillness.{IsStill};
ghost use Rattle.pg_hw.specs.Serving.{IsServed, IsServedPsw};
ghost use Rattle.pg_hw.specs.Machinery.{loaded_with};
ghost use Rattle.pg_routine.specs.Composing.{composed};
ghost use Rattle.pg_mon_control.specs.Guests.{virtual};
ghost use Rattle.pg_monitor.specs.Bursts.{TellsBurst};
ghost use Rattle.pg_mon_control.specs.Direct.{is_direct};
ghost use Rattle.pg_mon_control.specs.Current.{Holds, Runs};
ghost use Rattle.pg_monitor.specs.Current.{Interpreted, Went};

use pg_hw::Hardware;
use pg_interp::Frame;
use pg_mach_ready::Machine;
use pg_mon_control::{Guest, enter};
use pg_routine::{Emulated, emulate_seen};
use pg_word::{Mode, OLD_PSW_CELL, unpack};

/// What is told of turns that one burst of the hardware made.
#[derive(Clone, Copy, Debug, PartialEq, Eq)]
pub struct BurstTold {
    /// How many turns they were.
    pub turns: u64,
    /// Whether the guest's own step trapped at the last of them, in whatever way.
    pub trapped: bool,
}

/// Interprets the step of a guest that trapped, and enters the guest again; what the guest's own step did.
pub(crate) fn interpret<H: Hardware>(
    m: &Machine,
    hw: &mut H,
    guest: &mut Guest,
    frame: &mut Frame,
) -> Emulated
    requires served { IsServed (H.serves (H.fixed hw.old)) m.now.desc }
    requires holds { Holds m.now.desc (H.machinery hw.old).state guest.old }
    ensures interpreted { Interpreted m.now.desc (H.machinery hw.old) (H.machinery hw.new) guest.old guest.new }
    ensures told { result.trapped ≡ traps m.now.desc (virtual (H.machinery hw.old).state.cells guest.old) }
    ensures still { result.still ≡ true → IsStill m.now.desc (virtual (H.machinery hw.old).state.cells guest.old) }
    ensures moves { result.still ≡ false → IsStill m.now.desc (virtual (H.machinery hw.old).state.cells guest.old) → ⊥ }
    ensures fixed { H.fixed hw.new ≡ H.fixed hw.old }
{
    let mut psw = guest.psw;
    let told = emulate_seen(m, hw, guest.base, guest.size, &mut psw, frame);
    guest.psw = psw;
    enter(hw, *guest);
    told
}

/// One turn; whether the guest's own step trapped.
pub(crate) fn turn_once<H: Hardware>(
    m: &Machine,
    hw: &mut H,
    guest: &mut Guest,
    frame: &mut Frame,
) -> bool
    requires accepted { ∥ IsAccepted m.now.desc ∥₁ }
    requires served { IsServed (H.serves (H.fixed hw.old)) m.now.desc }
    requires runs { Runs m.now.desc (H.machinery hw.old).state guest.old }
    ensures went { Went m.now.desc 1 (H.machinery hw.old) (H.machinery hw.new) guest.old guest.new }
    ensures told { result ≡ traps m.now.desc (virtual (H.machinery hw.old).state.cells guest.old) }
    ensures fixed { H.fixed hw.new ≡ H.fixed hw.old }
    ensures direct { is_direct m.now.desc guest.old.base (virtual (H.machinery hw.old).state.cells guest.old) ≡ true → (H.machinery hw.new).state ≡ step m.now.desc (H.machinery hw.old).state }
{
    hw.step(m);
    let psw = hw.psw();
    match psw.mode {
        Mode::U => {
            guest.psw.p = psw.p;
            false
        }
        Mode::S => interpret(m, hw, guest, frame).trapped,
    }
}

/// Some turns, `most` at most and one at least: a burst, and where its last step trapped, that step interpreted.
pub(crate) fn turn_on<H: Hardware>(
    m: &Machine,
    hw: &mut H,
    guest: &mut Guest,
    most: u64,
    frame: &mut Frame,
) -> BurstTold
    requires accepted { ∥ IsAccepted m.now.desc ∥₁ }
    requires served { IsServed (H.serves (H.fixed hw.old)) m.now.desc }
    requires runs { Runs m.now.desc (H.machinery hw.old).state guest.old }
    requires some { 0 < most }
    ensures told { TellsBurst m.now.desc guest.old.base most (virtual (H.machinery hw.old).state.cells guest.old) result }
    ensures went { Went m.now.desc result.turns (H.machinery hw.old) (H.machinery hw.new) guest.old guest.new }
    ensures fixed { H.fixed hw.new ≡ H.fixed hw.old }
{
    let turns = hw.burst(m, most);
    let real = hw.psw();
    match real.mode {
        Mode::U => {
            guest.psw.p = real.p;
            BurstTold {
                turns,
                trapped: false,
            }
        }
        Mode::S => {
            guest.psw.p = unpack(m.shape(), hw.peek(OLD_PSW_CELL)).p;
            let told = interpret(m, hw, guest, frame);
            BurstTold {
                turns,
                trapped: told.trapped,
            }
        }
    }
}

/// `n` turns.
pub(crate) fn turn_often<H: Hardware>(
    m: &Machine,
    hw: &mut H,
    guest: &mut Guest,
    n: u64,
    frame: &mut Frame,
)
    requires accepted { ∥ IsAccepted m.now.desc ∥₁ }
    requires served { IsServed (H.serves (H.fixed hw.old)) m.now.desc }
    requires runs { Runs m.now.desc (H.machinery hw.old).state guest.old }
    ensures went { Went m.now.desc n (H.machinery hw.old) (H.machinery hw.new) guest.old guest.new }
    ensures fixed { H.fixed hw.new ≡ H.fixed hw.old }
{
    let mut left = n;
    while left > 0 {
        left -= turn_on(m, hw, guest, left, frame).turns;
    }
}
