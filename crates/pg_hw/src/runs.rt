//! What is run on any hardware.
//!
//! `power_on` gives a hardware the state of a machine that is switched on with an image, `bare` runs a machine on it for so
//! many steps, in bursts. Both are written for the trait, and take nothing of a hardware but its calls.

ghost use Rattle.std.specs.Prelude.{◌≡◌, length, All};
ghost use Rattle.pg_word.specs.Psw.{power_on_psw};
ghost use Rattle.pg_lang_meaning.specs.States.{IsState};
ghost use Rattle.pg_lang_meaning.specs.Steps.{power_on};
ghost use Rattle.pg_hw.specs.Tallies.{after_load};
ghost use Rattle.pg_hw.specs.Serving.{IsServed, IsServedWord, IsServedPsw};
ghost use Rattle.pg_hw.specs.Running.{after_pokes, Ran, Poked};

use crate::hardware::Hardware;
use pg_mach_ready::Machine;
use pg_word::Psw;

/// Switches a hardware on with an image of its size: every cell is poked, and the program status word is loaded.
pub fn power_on<H: Hardware>(hw: &mut H, image: &[u64])
    requires size { length image.now ≡ length (H.machinery hw.old).state.cells }
    requires words { All (IsServedWord (H.serves (H.fixed hw.old))) image.now }
    requires psw { IsServedPsw (H.serves (H.fixed hw.old)) (power_on_psw (length image.now)) }
    ensures switched_on { let size = length image.now in
        H.machinery hw.new ≡ record (H.machinery hw.old) { state = power_on image.now size; tally = after_load (after_pokes (H.machinery hw.old).tally size) } }
    ensures fixed { H.fixed hw.new ≡ H.fixed hw.old }
{
    poke_all(hw, image);
    let size = hw.size();
    hw.set_psw(Psw::power_on(size));
}

/// Pokes every cell.
fn poke_all<H: Hardware>(hw: &mut H, image: &[u64])
    requires size { length image.now ≡ length (H.machinery hw.old).state.cells }
    requires words { All (IsServedWord (H.serves (H.fixed hw.old))) image.now }
    ensures poked { Poked image.now (length image.now) (H.machinery hw.old) (H.machinery hw.new) }
    ensures fixed { H.fixed hw.new ≡ H.fixed hw.old }
{
    let size = hw.size();
    for at in 0..size {
        hw.poke(at, image[at as usize]);
    }
}

/// Runs a machine for `n` steps, in bursts: what traps goes on from the program status word that it loaded.
pub fn bare<H: Hardware>(hw: &mut H, m: &Machine, n: u64)
    requires served { IsServed (H.serves (H.fixed hw.old)) m.now.desc }
    requires state { IsState m.now.desc (H.machinery hw.old).state }
    ensures ran { Ran m.now.desc n (H.machinery hw.old) (H.machinery hw.new) }
    ensures fixed { H.fixed hw.new ≡ H.fixed hw.old }
{
    let mut left = n;
    while left > 0 {
        left -= hw.burst(m, left);
    }
}
