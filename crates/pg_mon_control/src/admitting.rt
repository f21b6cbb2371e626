//! How a control program takes an image as a guest.

ghost use Rattle.std.specs.Prelude.{◌≡◌, ℕ, ◌<◌, ◌≤◌, ◌^◌, length, All, Option, None, IsSome, OnOk, OnErr, IfOk, IfErr};
ghost use Rattle.pg_lang_meaning.specs.Steps.{power_on};
ghost use Rattle.pg_hw.specs.Serving.{IsServed};
ghost use Rattle.pg_alloc.specs.Fit.{free_base};
ghost use Rattle.pg_mon_control.specs.Admitting.{keeping, StateTaken};
ghost use Rattle.pg_mon_control.specs.Guests.{AreOwned};
ghost use Rattle.pg_mon_control.specs.Standing.{Stands};

use crate::fault::GuestFault;
use crate::guest::Guest;
use crate::loading::put_words;
use crate::placing::place;
use pg_alloc::Grants;
use pg_hw::Hardware;
use pg_mach_ready::Machine;
use pg_word::Psw;
use sqlite_items::Items;

/// Takes an image as a new guest, whose grant is as large, and which is switched on with it. The number of the guest: how
/// many there were. Whichever guest is current stays so.
///
/// The grant is placed at the least base that is free. `NoRoom` comes exactly where none is, and `Memory` where there is
/// room but an allocation fails; all is then as it was. The time grows with the grants and the image.
pub fn admit_image<H: Hardware>(
    m: &Machine,
    hw: &mut H,
    granted: &mut Grants,
    guests: &mut Items<Guest>,
    image: &[u64],
) -> Result<usize, GuestFault>
    requires least { 2 ≤ length image.now }
    requires words { All (λ w. w < 2 ^ m.now.desc.word) image.now }
    requires served { IsServed (H.serves (H.fixed hw.old)) m.now.desc }
    requires owned { AreOwned m.now.desc.size granted.old guests.old }
    requires stands { Stands m.now.desc (H.machinery hw.old).state guests.old None }
    ensures number { IfOk result (λ k. k ≡ length guests.old) }
    ensures admitted { (current : Option ℕ) → OnOk result
        (StateTaken (power_on image.now (length image.now)) (keeping m.now granted.old guests.old current) (keeping m.now granted.new guests.new current) (H.machinery hw.old) (H.machinery hw.new)) }
    ensures stands { (current : Option ℕ) → Stands m.now.desc (H.machinery hw.old).state guests.old current → Stands m.now.desc (H.machinery hw.new).state guests.new current }
    ensures owned { AreOwned m.now.desc.size granted.new guests.new }
    ensures no_room { IfErr result (λ e. e ≡ GuestFault.NoRoom → free_base m.now.desc.size granted.old.grants (length image.now) ≡ None) }
    ensures memory { IfErr result (λ e. e ≡ GuestFault.Memory → IsSome (free_base m.now.desc.size granted.old.grants (length image.now))) }
    ensures refused { OnErr result (granted.new ≡ granted.old) }
    ensures no_guest { OnErr result (guests.new ≡ guests.old) }
    ensures untouched { OnErr result (H.machinery hw.new ≡ H.machinery hw.old) }
    ensures fixed { H.fixed hw.new ≡ H.fixed hw.old }
{
    if image.len() > m.shape().q as usize {
        return Err(GuestFault::NoRoom);
    }
    let size = image.len() as u32;
    let number = guests.len();
    let base = match place(granted, guests, size, Psw::power_on(size)) {
        Ok(base) => base,
        Err(fault) => return Err(fault),
    };
    put_words(hw, base, image);
    Ok(number)
}
