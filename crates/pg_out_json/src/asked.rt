//! What the hardware of a monitor does with the next step of a guest.
//!
//! The guest's machine is the whole hardware that is looked at here. Under a monitor it lies behind the cells that the monitor
//! keeps, and the hardware runs it in user mode, under a program status word that is composed of the guest's own. Over the same
//! window the step ends in the same way wherever that lies, so the interpreter is asked at cell 0, as `pg_out_steps` asks it.

ghost use Rattle.std.specs.Prelude.{◌≡◌, length};
ghost use Rattle.pg_lang_meaning.specs.States.{IsState};
ghost use Rattle.pg_routine.specs.Composing.{composed};

use pg_hw::Hardware;
use pg_interp::{Cells, Ended, Frame, step_in};
use pg_mach_ready::Machine;
use pg_routine::compose;
use pg_word::{Cause, Psw, window_len};

/// The cells that a hardware's program status word makes usable.
struct Window<'h, H: Hardware> {
    hw: &'h H,
}

impl<'h, H: Hardware> Drop for Window<'h, H> {
    fn drop(self) {
        let Window { hw: _ } = self;
    }
}

impl<'h, H: Hardware> Cells for Window<'h, H> {
    ghost use Rattle.pg_lang_meaning.specs.States.{window};

    ghost window = { λ w. window (H.machinery w.hw.now).state };

    fn cell(&self, a: u32) -> Option<u64> {
        let psw = self.hw.psw();
        if a < window_len(psw, self.hw.size()) {
            Some(self.hw.peek(psw.l + a))
        } else {
            None
        }
    }
}

/// Why the hardware would trap at the next step, asked to do it for a guest; none where it would not. What the frame holds then
/// means nothing.
pub(crate) fn asked_cause<H: Hardware>(m: &Machine, hw: &H, frame: &mut Frame) -> Option<Cause>
    requires state { IsState m.now.desc (H.machinery hw.now).state }
{
    let psw = guest_psw(hw);
    let ended = step_in(m, &Window { hw }, psw, frame);
    cause_of(ended)
}

/// The program status word under which the hardware would run the machine as a guest, in a grant of all its cells from cell 0 on.
fn guest_psw<H: Hardware>(hw: &H) -> Psw
    ensures { let s = (H.machinery hw.now).state in result ≡ composed s.psw 0 (length s.cells) }
{
    compose(hw.psw(), 0, hw.size())
}

/// Why a step traps that ends so.
fn cause_of(ended: Ended) -> Option<Cause> {
    match ended {
        Ended::MemTrap => Some(Cause::Memory),
        Ended::Trap => Some(Cause::Trap),
        Ended::NoPattern => Some(Cause::NoPattern),
        Ended::Done => None,
    }
}
