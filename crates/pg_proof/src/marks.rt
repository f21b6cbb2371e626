//! Flags that are all taken down at once.
//!
//! Whoever checks a step marks some literals, asks for marks, and begins anew with the next step. A place is marked where
//! its stamp is the current one, so that to take all marks down is to go to the next stamp, whatever the number of places.
//! Contracts see the flags as a list of Booleans.

ghost use Rattle.std.specs.Prelude.{◌≡◌, ◌<◌, ◌++◌, ◌∷◌, [], false, true, length, replicate, slice_set, slice_index_or, IfOk, OnOk, OnErr};

use std::alloc::{AllocError, Global};
use std::marker::Model;

/// So many flags, each up or down.
#[derive(Drop)]
pub struct Marks {
    stamps: Vec<u64>,
    stamp: u64,
}

impl Model for Marks {
    ghost use Rattle.std.specs.Prelude.{Bool, List};
    ghost use Rattle.pg_proof.specs.Flags.{flags_of, IsStamped};

    ghost Value = { List Bool };

    ghost view = { λ m. flags_of m.stamp m.stamps.items };

    ghost invariant = { λ m. IsStamped m.stamp m.stamps.items };
}

impl Marks {
    /// So many flags, all down.
    pub fn new(alloc: Global, places: usize) -> Result<Marks, AllocError>
        ensures { IfOk result (λ marks. marks ≡ replicate places false) }
    {
        let stamps = zeros(alloc, places)?;
        Ok(Marks { stamps, stamp: 1 })
    }

    /// How many flags there are.
    pub fn len(&self) -> usize
        ensures { result ≡ length self.now }
    {
        self.stamps.len()
    }

    /// Takes all flags down. It costs the same for any number of flags, but once in 2^64 - 1 calls.
    pub fn clear(&mut self)
        ensures down { self.new ≡ replicate (length self.old) false }
        ensures places { length self.new ≡ length self.old }
    {
        if self.stamp == u64::MAX {
            zero(&mut self.stamps);
            self.stamp = 1;
            return;
        }
        self.stamp += 1;
    }

    /// Whether the flag at a place is up.
    pub fn has(&self, place: usize) -> bool
        requires { place < length self.now }
        ensures { result ≡ slice_index_or self.now place false }
    {
        self.stamps[place] == self.stamp
    }

    /// Puts the flag at a place up.
    pub fn set(&mut self, place: usize)
        requires { place < length self.old }
        ensures { self.new ≡ slice_set self.old place true }
    {
        self.stamps[place] = self.stamp;
    }

    /// A flag more, which is down. The error is out of memory, and the flags stay.
    pub fn grow(&mut self) -> Result<(), AllocError>
        ensures ok { OnOk result (self.new ≡ self.old ++ false ∷ []) }
        ensures err { OnErr result (self.new ≡ self.old) }
    {
        self.stamps.push(0)?;
        Ok(())
    }
}

/// Whether the flag at a place is up; there may be none.
pub fn is_up(flags: &Marks, place: usize) -> bool
    ensures { result ≡ slice_index_or flags.now place false }
{
    if place < flags.len() {
        return flags.has(place);
    }
    false
}

/// So many zeros.
fn zeros(alloc: Global, places: usize) -> Result<Vec<u64>, AllocError>
    ensures { IfOk result (λ stamps. stamps.items ≡ replicate places 0) }
{
    vec![in alloc; 0u64; places]
}

/// Makes all numbers zero.
fn zero(stamps: &mut Vec<u64>)
    ensures { stamps.new.items ≡ replicate (length stamps.old.items) 0 }
{
    stamps.as_mut_slice().fill(0);
}
