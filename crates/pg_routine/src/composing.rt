//! The program status word under which a guest runs.

ghost use Rattle.std.specs.Prelude.{◌≡◌, ◌+◌, ◌^◌, ◌<◌};
ghost use Rattle.pg_routine.specs.Composing.{composed};

use pg_word::{Mode, Psw};

/// The program status word under which the hardware runs a guest that has `psw`, in a grant of `size` cells from `base`
/// on: in user mode at the same P, over the guest's window where it lies in the grant.
///
/// A window that reaches past the grant ends with the grant, and one that begins past it is empty and lies at `base`.
pub fn compose(psw: Psw, base: u32, size: u32) -> Psw
    requires { base + size < 2 ^ 32 }
    ensures { result ≡ composed psw base size }
{
    let (l, b) = if psw.l < size {
        (psw.l + base, psw.b.min(size - psw.l))
    } else {
        (base, 0)
    };
    Psw {
        mode: Mode::U,
        p: psw.p,
        l,
        b,
    }
}
