//! How a control program enters a guest.

ghost use Rattle.std.specs.Prelude.{◌≡◌, ◌+◌, ◌<◌, ◌^◌, length, Some, slice_get};
ghost use Rattle.pg_hw.specs.Machinery.{loaded_with};
ghost use Rattle.pg_hw.specs.Serving.{IsServed, IsServedPsw};
ghost use Rattle.pg_hw.specs.Tallies.{raised_by};
ghost use Rattle.pg_routine.specs.Composing.{composed};
ghost use Rattle.pg_mon_control.specs.Current.{Runs, change_to, is_current as is_current_guest};
ghost use Rattle.pg_mon_control.specs.Standing.{Stands};

use crate::guest::Guest;
use pg_hw::Hardware;
use pg_mach_ready::Machine;
use pg_routine::compose;

/// Enters a guest: loads the program status word that is composed of its virtual one. It is one load.
pub fn enter<H: Hardware>(hw: &mut H, guest: Guest)
    requires addressable { guest.base + guest.size < 2 ^ 32 }
    requires fits { IsServedPsw (H.serves (H.fixed hw.old)) (composed guest.psw guest.base guest.size) }
    ensures entered { H.machinery hw.new ≡ loaded_with (composed guest.psw guest.base guest.size) (H.machinery hw.old) }
    ensures fixed { H.fixed hw.new ≡ H.fixed hw.old }
{
    hw.set_psw(compose(guest.psw, guest.base, guest.size));
}

/// Whether the current guest is the one of this number.
pub fn is_current(current: Option<usize>, k: usize) -> bool
    ensures { result ≡ is_current_guest k current }
{
    match current {
        Some(j) => j == k,
        None => false,
    }
}

/// Makes a guest the current one, and enters it where it was not; the guest.
pub fn select<H: Hardware>(
    m: &Machine,
    hw: &mut H,
    guests: &[Guest],
    current: &mut Option<usize>,
    k: usize,
) -> Guest
    requires served { IsServed (H.serves (H.fixed hw.old)) m.now.desc }
    requires stands { Stands m.now.desc (H.machinery hw.old).state guests.now current.old }
    requires known { k < length guests.now }
    ensures guest { slice_get guests.now k ≡ Some result }
    ensures current { current.new ≡ Some k }
    ensures runs { Runs m.now.desc (H.machinery hw.new).state result }
    ensures cells { (H.machinery hw.new).state.cells ≡ (H.machinery hw.old).state.cells }
    ensures same { current.old ≡ Some k → H.machinery hw.new ≡ H.machinery hw.old }
    ensures tally { (H.machinery hw.new).tally ≡ record (H.machinery hw.old).tally { loads = raised_by (change_to k current.old) (H.machinery hw.old).tally.loads } }
    ensures bottom { (H.machinery hw.new).bottom ≡ (H.machinery hw.old).bottom }
    ensures fixed { H.fixed hw.new ≡ H.fixed hw.old }
{
    let guest = guests[k];
    if is_current(*current, k) {
        return guest;
    }
    enter(hw, guest);
    *current = Some(k);
    guest
}
