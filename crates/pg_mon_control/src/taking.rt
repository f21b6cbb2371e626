//! How a control program takes a storage.

ghost use Rattle.std.specs.Prelude.{◌≡◌, [], length, None};
ghost use Rattle.pg_word.specs.Psw.{new_psw_cell, packed, power_on_psw};
ghost use Rattle.pg_lang_meaning.specs.States.{IsState};
ghost use Rattle.pg_hw.specs.Machinery.{poked_at};
ghost use Rattle.pg_hw.specs.Serving.{IsServed};
ghost use Rattle.pg_mon_control.specs.Standing.{Stands};

use pg_hw::Hardware;
use pg_mach_ready::Machine;
use pg_word::{NEW_PSW_CELL, Psw, pack};

/// Takes the storage of a hardware: cell 1 becomes the program status word at which a trap enters the control program. It is
/// one poke.
pub fn take_storage<H: Hardware>(m: &Machine, hw: &mut H)
    requires served { IsServed (H.serves (H.fixed hw.old)) m.now.desc }
    requires size { length (H.machinery hw.old).state.cells ≡ m.now.desc.size }
    requires state { IsState m.now.desc (H.machinery hw.old).state }
    ensures stands { Stands m.now.desc (H.machinery hw.new).state [] None }
    ensures taken { H.machinery hw.new ≡ poked_at new_psw_cell (packed m.now.desc.address (power_on_psw m.now.desc.size)) (H.machinery hw.old) }
    ensures fixed { H.fixed hw.new ≡ H.fixed hw.old }
{
    let shape = m.shape();
    let word = pack(shape, Psw::power_on(shape.q));
    hw.poke(NEW_PSW_CELL, word);
}
