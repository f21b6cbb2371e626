//! The grants of a storage.

ghost use Rattle.std.specs.Prelude.{◌≡◌, ◌==◌, ◌<◌, ◌≤◌, [], None, Some, true, false, IsSome, IfOk, IfErr, OnOk, OnErr, length, IfSome};
ghost use Rattle.std.specs.List.{position};
ghost use Rattle.pg_alloc.specs.Fit.{free_base};
ghost use Rattle.pg_alloc.specs.Grants.{AreGrants, and_grant, but_grant, is_granted};

use crate::fault::{GrantFault, NotGranted};
use crate::gap::first_gap;
use std::alloc::Global;
use std::marker::Model;

/// The grants in a storage, of which no two have a cell in common. Each is its base and its size, in the order of the bases.
#[derive(Debug, Drop)]
pub struct Grants {
    q: u32,
    items: Vec<(u32, u32)>,
}

impl Model for Grants {
    ghost use Rattle.pg_alloc.specs.Grants.{Granted, AreGrants};

    ghost Value = { Granted };

    ghost view = { λ g. record { q = g.q; grants = g.items.items } };

    ghost invariant = { λ g. AreGrants g.q g.items.items };
}

impl Grants {
    /// No grant yet, in a storage of `q` cells. It takes no memory.
    pub fn new(alloc: Global, q: u32) -> Grants
        ensures q { result.q ≡ q }
        ensures grants { result.grants ≡ [] }
    {
        Grants {
            q,
            items: Vec::new(alloc),
        }
    }

    /// A grant of `size` cells, at the least base from 2 on at which so many are free; its base.
    ///
    /// `NoRoom` comes exactly where so many are free at none, and `Memory` where there is room but an allocation fails. A
    /// refusal changes nothing. The time grows with the grants, not with the storage.
    pub fn grant(&mut self, size: u32) -> Result<u32, GrantFault>
        requires least { 1 ≤ size }
        ensures first { IfOk result (λ base. free_base self.old.q self.old.grants size ≡ Some base) }
        ensures granted { IfOk result (λ base. self.new ≡ record self.old { grants = and_grant (base, size) self.old.grants }) }
        ensures no_room { IfErr result (λ e. e ≡ GrantFault.NoRoom → free_base self.old.q self.old.grants size ≡ None) }
        ensures memory { IfErr result (λ e. e ≡ GrantFault.Memory → IsSome (free_base self.old.q self.old.grants size)) }
        ensures refused { OnErr result (self.new ≡ self.old) }
        ensures lie { AreGrants self.new.q self.new.grants }
    {
        let Some(gap) = first_gap(self.q, self.items.as_slice(), size) else {
            return Err(GrantFault::NoRoom);
        };
        match self.items.insert(gap.place, (gap.base, size)) {
            Ok(()) => Ok(gap.base),
            Err(_) => Err(GrantFault::Memory),
        }
    }

    /// Frees the cells of the grant of a base, which lives no more; the others stay. It takes no memory.
    ///
    /// `NotGranted` comes exactly where no live grant has that base, and changes nothing.
    pub fn release(&mut self, base: u32) -> Result<(), NotGranted>
        ensures live { OnOk result (is_granted base self.old.grants ≡ true) }
        ensures released { OnOk result (self.new ≡ record self.old { grants = but_grant base self.old.grants }) }
        ensures not_granted { OnErr result (is_granted base self.old.grants ≡ false) }
        ensures refused { OnErr result (self.new ≡ self.old) }
        ensures lie { AreGrants self.new.q self.new.grants }
    {
        match place_of(self.items.as_slice(), base) {
            Some(place) => {
                self.items.remove(place);
                Ok(())
            }
            None => Err(NotGranted),
        }
    }

    /// The live grants, each its base and its size, in the order of the bases.
    pub fn as_slice(&self) -> &[(u32, u32)]
        ensures grants { result.now ≡ self.now.grants }
        ensures lie { AreGrants self.now.q self.now.grants }
    {
        self.items.as_slice()
    }
}

/// The place of the grant of a base.
fn place_of(grants: &[(u32, u32)], base: u32) -> Option<usize>
    ensures place { result ≡ position (λ grant. grant.0 == base) grants.now }
    ensures within { IfSome result (λ place. place < length grants.now) }
{
    grants.iter().position(|grant| grant.0 == base)
}
