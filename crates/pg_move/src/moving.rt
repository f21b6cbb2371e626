//! Guests that are captured, and adopted.

ghost use Rattle.std.specs.Prelude.{◌≡◌, ◌+◌, ◌<◌, ◌≤◌, length, None, Some, IsSome, OnOk, OnErr, IfOk, IfErr, slice_get};
ghost use Rattle.pg_lang_meaning.specs.States.{IsState, shape_of};
ghost use Rattle.pg_hw.specs.Serving.{IsServed};
ghost use Rattle.pg_type.specs.Listed.{state_of};
ghost use Rattle.pg_mon_control.specs.Guests.{virtual, virtuals};
ghost use Rattle.pg_mon_control.specs.Standing.{Stands};
ghost use Rattle.pg_monitor.specs.Monitors.{desc_of, base_for, Admits, SameMonitor};
ghost use Rattle.pg_move.specs.Texts.{IsSaved, most_steps};
ghost use Rattle.pg_move.specs.Seen.{guest_of};

use crate::saved::Saved;
use pg_cert_drawn::drawn;
use pg_hw::Hardware;
use pg_mon_control::{Guest, GuestFault};
use pg_monitor::Monitor;
use pg_word::Sparse;
use std::alloc::{AllocError, Global};

/// The state at which a guest stands: its cells that are not zero are listed.
fn state_at<H: Hardware>(alloc: Global, hw: &H, guest: Guest) -> Result<Sparse, AllocError>
    requires within { guest.base + guest.size ≤ length (H.machinery hw.now).state.cells }
    ensures { IfOk result (λ state. state_of state ≡ virtual (H.machinery hw.now).state.cells guest) }
{
    // A hardware's size is a `u32`, and so each address below is one.
    let held = hw.size();
    prove!(guest.base <= held && guest.size <= held - guest.base);
    let mut state = drawn(alloc, guest.size, guest.psw);
    for at in 0..guest.size {
        let word = hw.peek(guest.base + at);
        if word != 0 {
            state.push(at, word)?;
        }
    }
    Ok(state)
}

/// What is saved of the guest of a number: the state at which it stands, and how many steps it has made, `MOST_STEPS` at most,
/// which its monitor does not count.
///
/// Nothing changes: the guest goes on where it is. It is one peek for each of its cells, and takes memory for those that are
/// not zero. The error is want of it.
pub fn capture<H: Hardware>(
    alloc: Global,
    monitor: &Monitor<'_>,
    hw: &H,
    k: usize,
    steps: u32,
) -> Result<Saved, AllocError>
    requires stands { Stands (desc_of monitor.now) (H.machinery hw.now).state monitor.now.guests monitor.now.current }
    requires known { k < length monitor.now.guests }
    requires steps { steps ≤ most_steps }
    ensures steps { IfOk result (λ saved. saved.steps ≡ steps) }
    ensures state { IfOk result (λ saved. slice_get (virtuals (H.machinery hw.now).state.cells monitor.now.guests) k ≡ Some (state_of saved.state)) }
    ensures saved { IfOk result (λ saved. IsSaved (shape_of (desc_of monitor.now)) (guest_of saved)) }
{
    let state = state_at(alloc, hw, monitor.guest(k))?;
    Ok(Saved { steps, state })
}

/// Makes a new guest of what was saved of one, which goes on from its state. The number of the guest: how many there were.
///
/// The monitor may be another than the one under which the guest was captured, of a machine that agrees and is large enough for
/// it: its state is then one of that machine (`laws::captured_states_are_states_of_machines_that_agree`).
///
/// `NoRoom` comes exactly where so many cells are free at no base, and `Memory` where there is room but an allocation fails; the
/// monitor and the hardware are then as they were. The time grows with the grants and the state's size.
pub fn adopt<H: Hardware>(
    monitor: &mut Monitor<'_>,
    hw: &mut H,
    saved: &Saved,
) -> Result<usize, GuestFault>
    requires state { IsState (desc_of monitor.old) (state_of saved.now.state) }
    requires served { IsServed (H.serves (H.fixed hw.old)) (desc_of monitor.old) }
    requires stands { Stands (desc_of monitor.old) (H.machinery hw.old).state monitor.old.guests monitor.old.current }
    ensures number { IfOk result (λ k. k ≡ length monitor.old.guests) }
    ensures admitted { OnOk result (Admits (state_of saved.now.state) monitor.old monitor.new (H.machinery hw.old) (H.machinery hw.new)) }
    ensures stands { Stands (desc_of monitor.old) (H.machinery hw.new).state monitor.new.guests monitor.new.current }
    ensures no_room { IfErr result (λ e. e ≡ GuestFault.NoRoom → base_for monitor.old saved.now.state.size ≡ None) }
    ensures memory { IfErr result (λ e. e ≡ GuestFault.Memory → IsSome (base_for monitor.old saved.now.state.size)) }
    ensures refused { OnErr result (SameMonitor monitor.old monitor.new) }
    ensures untouched { OnErr result (H.machinery hw.new ≡ H.machinery hw.old) }
    ensures machine { monitor.new.accepted.machine.now ≡ monitor.old.accepted.machine.now }
    ensures fixed { H.fixed hw.new ≡ H.fixed hw.old }
{
    monitor.load_state(hw, &saved.state)
}
