//! Grants, with a guest or without one.

ghost use Rattle.std.specs.Prelude.{◌≡◌, ◌≤◌, [], ◌∷◌, ◌++◌, None, Some, IsSome, OnErr, IfOk, IfErr};
ghost use Rattle.pg_alloc.specs.Fit.{free_base};
ghost use Rattle.pg_alloc.specs.Grants.{AreGrants, and_grant};
ghost use Rattle.pg_mon_control.specs.Guests.{AreOwned, guest_in};

use crate::fault::GuestFault;
use crate::guest::Guest;
use pg_alloc::{GrantFault, Grants};
use pg_word::Psw;
use sqlite_items::Items;

/// A grant of `size` cells without a guest, at the least base from 2 on at which so many are free; its base.
///
/// `NoRoom` comes exactly where so many are free at none, and `Memory` where there is room but an allocation fails. A refusal
/// changes nothing. The time grows with the grants.
pub fn hold(granted: &mut Grants, size: u32) -> Result<u32, GuestFault>
    requires least { 1 ≤ size }
    ensures first { IfOk result (λ base. free_base granted.old.q granted.old.grants size ≡ Some base) }
    ensures granted { IfOk result (λ base. granted.new ≡ record granted.old { grants = and_grant (base, size) granted.old.grants }) }
    ensures lie { AreGrants granted.new.q granted.new.grants }
    ensures no_room { IfErr result (λ e. e ≡ GuestFault.NoRoom → free_base granted.old.q granted.old.grants size ≡ None) }
    ensures memory { IfErr result (λ e. e ≡ GuestFault.Memory → IsSome (free_base granted.old.q granted.old.grants size)) }
    ensures refused { OnErr result (granted.new ≡ granted.old) }
{
    match granted.grant(size) {
        Ok(base) => Ok(base),
        Err(GrantFault::NoRoom) => Err(GuestFault::NoRoom),
        Err(GrantFault::Memory) => Err(GuestFault::Memory),
    }
}

/// A grant with one more guest, of this program status word, whose cells are the hardware's; its base.
///
/// `NoRoom` and `Memory` come as for `hold`.
pub fn place(
    granted: &mut Grants,
    guests: &mut Items<Guest>,
    size: u32,
    psw: Psw,
) -> Result<u32, GuestFault>
    requires least { 1 ≤ size }
    requires owned { AreOwned granted.old.q granted.old guests.old }
    ensures first { IfOk result (λ base. free_base granted.old.q granted.old.grants size ≡ Some base) }
    ensures granted { IfOk result (λ base. granted.new ≡ record granted.old { grants = and_grant (base, size) granted.old.grants }) }
    ensures guests { IfOk result (λ base. guests.new ≡ guests.old ++ guest_in base size psw ∷ []) }
    ensures owned { AreOwned granted.old.q granted.new guests.new }
    ensures no_room { IfErr result (λ e. e ≡ GuestFault.NoRoom → free_base granted.old.q granted.old.grants size ≡ None) }
    ensures memory { IfErr result (λ e. e ≡ GuestFault.Memory → IsSome (free_base granted.old.q granted.old.grants size)) }
    ensures refused { OnErr result (granted.new ≡ granted.old) }
    ensures no_guest { OnErr result (guests.new ≡ guests.old) }
{
    let base = match hold(granted, size) {
        Ok(base) => base,
        Err(fault) => return Err(fault),
    };
    match guests.push(Guest { base, size, psw }) {
        Ok(()) => Ok(base),
        Err(_) => {
            let _ = granted.release(base);
            Err(GuestFault::Memory)
        }
    }
}
