//! A hardware that is watched: of the addresses that are poked the least and the greatest are kept.
//!
//! A `Spy` is the hardware that it has. Its state, its counts, its room and the machines that it serves are those of that
//! hardware, and every call is that hardware's. So what is proved of any `Hardware` holds over it, and whoever runs on it
//! cannot tell. What it keeps beside is for whoever lent it: which cells were set from outside. Those that a step sets are
//! the machine's own, and are not kept.
//!
//! The clauses of the trait do not name addresses. That a poke is kept is a clause of `Spy`'s own `poke`, beside those of the
//! trait, and that no other call keeps one is a clause of each that changes the hardware.

ghost use Rattle.std.specs.Prelude.{◌≡◌, None};
ghost use Rattle.std.specs.Option.{option_map};
ghost use Rattle.pg_rig.specs.Spying.{extended};

use pg_hw::{Counts, Hardware};
use pg_mach_ready::Machine;
use pg_word::Psw;
use std::alloc::AllocError;

/// Where pokes went to: addresses in the storage.
#[derive(Clone, Copy)]
pub(crate) struct Extent {
    /// The least address.
    pub(crate) least: u32,
    /// The greatest.
    pub(crate) greatest: u32,
}

/// A hardware of which it is kept where it was poked.
#[derive(Drop)]
pub struct Spy<H: Hardware> {
    hw: H,
    /// Where it was poked since this was last cleared; none where it was not.
    poked: Option<Extent>,
}

impl<H: Hardware> Spy<H> {
    /// Watches a hardware, of which no poke is kept yet.
    pub fn new(hw: H) -> Spy<H>
        ensures hw { result.hw ≡ hw }
        ensures poked { result.poked ≡ None }
    {
        Spy { hw, poked: None }
    }

    /// Forgets the pokes that were kept. The hardware is as it was.
    pub fn clear(&mut self)
        ensures hw { self.new.hw ≡ self.old.hw }
        ensures poked { self.new.poked ≡ None }
    {
        self.poked = None;
    }

    /// The least address that was poked since this was last cleared; none where no cell was.
    pub fn low(&self) -> Option<u32>
        ensures { result ≡ option_map (λ x. x.least) self.now.poked }
    {
        match self.poked {
            Some(extent) => Some(extent.least),
            None => None,
        }
    }

    /// The greatest address that was poked since this was last cleared; none where no cell was.
    pub fn high(&self) -> Option<u32>
        ensures { result ≡ option_map (λ x. x.greatest) self.now.poked }
    {
        match self.poked {
            Some(extent) => Some(extent.greatest),
            None => None,
        }
    }
}

/// The extent of these pokes and of one more.
fn with_poke(poked: Option<Extent>, at: u32) -> Option<Extent>
    ensures { result ≡ extended at poked }
{
    match poked {
        Some(extent) => Some(Extent {
            least: extent.least.min(at),
            greatest: extent.greatest.max(at),
        }),
        None => Some(Extent {
            least: at,
            greatest: at,
        }),
    }
}

impl<H: Hardware> Hardware for Spy<H> {
    ghost use Rattle.std.specs.Prelude.{◌≡◌, ◌≤◌, ◌<◌, length, OnOk, OnErr};
    ghost use Rattle.pg_lang_meaning.specs.States.{IsState};
    ghost use Rattle.pg_lang_meaning.specs.Steps.{step as stepped, steps as stepped_often};
    ghost use Rattle.pg_hw.specs.Tallies.{after_steps};
    ghost use Rattle.pg_hw.specs.Machinery.{poked_at, loaded_with};
    ghost use Rattle.pg_hw.specs.Bursts.{untrapped_at, untrapped_among, burst_length, BottomRises};
    ghost use Rattle.pg_hw.specs.Serving.{IsServed, IsServedWord, IsServedPsw, blank};
    ghost use Rattle.pg_rig.specs.Spying.{extended};

    ghost machinery = { λ s. H.machinery s.hw };

    ghost Fixed = { H.Fixed };

    ghost fixed = { λ s. H.fixed s.hw };

    ghost serves = { H.serves };

    ghost room = { H.room };

    /// What is kept of pokes stays.
    fn install(&mut self, size: u32) -> Result<(), AllocError>
        requires least { 2 ≤ size }
        requires most { size ≤ H.room (H.fixed self.old.hw) }
        ensures installed { OnOk result (H.machinery self.new.hw ≡ record (H.machinery self.old.hw) { state = blank size }) }
        ensures refused { OnErr result (H.machinery self.new.hw ≡ H.machinery self.old.hw) }
        ensures fixed { H.fixed self.new.hw ≡ H.fixed self.old.hw }
        ensures kept { self.new.poked ≡ self.old.poked }
    {
        self.hw.install(size)
    }

    fn size(&self) -> u32 {
        self.hw.size()
    }

    fn room(&self) -> u32 {
        self.hw.room()
    }

    /// What is kept of pokes stays: a step's own stores are none.
    fn step(&mut self, m: &Machine)
        requires served { IsServed (H.serves (H.fixed self.old.hw)) m.now.desc }
        requires state { IsState m.now.desc (H.machinery self.old.hw).state }
        ensures state { (H.machinery self.new.hw).state ≡ stepped m.now.desc (H.machinery self.old.hw).state }
        ensures tally { (H.machinery self.new.hw).tally ≡ after_steps (H.machinery self.old.hw).tally 1 (untrapped_at m.now.desc (H.machinery self.old.hw).state) }
        ensures bottom { BottomRises m.now.desc 1 (H.machinery self.old.hw).state (H.machinery self.old.hw).bottom (H.machinery self.new.hw).bottom }
        ensures fixed { H.fixed self.new.hw ≡ H.fixed self.old.hw }
        ensures kept { self.new.poked ≡ self.old.poked }
    {
        self.hw.step(m);
    }

    /// What is kept of pokes stays: a step's own stores are none.
    fn burst(&mut self, m: &Machine, k: u64) -> u64
        requires served { IsServed (H.serves (H.fixed self.old.hw)) m.now.desc }
        requires state { IsState m.now.desc (H.machinery self.old.hw).state }
        ensures count { result ≡ burst_length m.now.desc k (H.machinery self.old.hw).state }
        ensures state { (H.machinery self.new.hw).state ≡ stepped_often m.now.desc result (H.machinery self.old.hw).state }
        ensures tally { (H.machinery self.new.hw).tally ≡ after_steps (H.machinery self.old.hw).tally result (untrapped_among m.now.desc result (H.machinery self.old.hw).state) }
        ensures bottom { BottomRises m.now.desc result (H.machinery self.old.hw).state (H.machinery self.old.hw).bottom (H.machinery self.new.hw).bottom }
        ensures fixed { H.fixed self.new.hw ≡ H.fixed self.old.hw }
        ensures kept { self.new.poked ≡ self.old.poked }
    {
        self.hw.burst(m, k)
    }

    fn peek(&self, at: u32) -> u64 {
        self.hw.peek(at)
    }

    /// The address is kept.
    fn poke(&mut self, at: u32, word: u64)
        requires within { at < length (H.machinery self.old.hw).state.cells }
        requires word { IsServedWord (H.serves (H.fixed self.old.hw)) word }
        ensures poked { H.machinery self.new.hw ≡ poked_at at word (H.machinery self.old.hw) }
        ensures fixed { H.fixed self.new.hw ≡ H.fixed self.old.hw }
        ensures kept { self.new.poked ≡ extended at self.old.poked }
    {
        self.hw.poke(at, word);
        self.poked = with_poke(self.poked, at);
    }

    fn psw(&self) -> Psw {
        self.hw.psw()
    }

    /// What is kept of pokes stays.
    fn set_psw(&mut self, psw: Psw)
        requires { IsServedPsw (H.serves (H.fixed self.old.hw)) psw }
        ensures loaded { H.machinery self.new.hw ≡ loaded_with psw (H.machinery self.old.hw) }
        ensures fixed { H.fixed self.new.hw ≡ H.fixed self.old.hw }
        ensures kept { self.new.poked ≡ self.old.poked }
    {
        self.hw.set_psw(psw);
    }

    fn counts(&self) -> Counts {
        self.hw.counts()
    }
}
