//! The guest of a monitor as a hardware of its own.
//!
//! A level has a hardware, a machine that this serves, and from the first install on a monitor of one guest. Its storage is the
//! guest's, which lies in the hardware's from cell 2 on, and its program status word is the guest's own, and never the composed
//! one that the hardware has. The counts are its own, counted from 0; those at the bottom are those at the bottom of its hardware.
//!
//! `install` first takes all memory for a monitor, then installs the hardware below, then starts the monitor on it. So lack of memory
//! leaves everything as it was, at every depth, and no other call takes any.

ghost use Rattle.std.specs.Prelude.{◌≡◌, ℕ, ◌+◌, ◌-◌, ◌<◌, ◌≤◌, length, None, Some};
ghost use Rattle.pg_word.specs.Psw.{power_on_psw};
ghost use Rattle.pg_lang_meaning.specs.States.{IsState};
ghost use Rattle.pg_hw.specs.Tallies.{no_counts};
ghost use Rattle.pg_hw.specs.Serving.{IsServed};
ghost use Rattle.pg_alloc.specs.Fit.{kept_cells};
ghost use Rattle.pg_nest.specs.Presenting.{IsMonitorOf, IsMonitorOf-prop, PresentsAny, PresentsAny-prop};
ghost use Rattle.pg_nest.specs.Levels.{presented, level_of, Carries};
ghost use Rattle.pg_nest.specs.Bursting.{Burst};
ghost use Rattle.pg_type.specs.Agreeing.{Agree};

use crate::bursting::burst;
use pg_hw::{Counts, Hardware, raised};
use pg_mach_ready::Machine;
use pg_monitor::{GuestFault, KEPT_CELLS, Monitor};
use pg_type::Accepted;
use pg_word::Psw;
use std::alloc::{AllocError, Global};

/// The guest of a monitor on a hardware, as a hardware.
#[derive(Drop)]
pub struct Level<'m, H: Hardware> {
    accepted: Accepted<'m>,
    hw: H,
    /// The monitor, with its one guest; none before the first install.
    monitor: Option<Monitor<'m>>,
    /// The program status word before the first install.
    idle: Psw,
    counts: Counts,
    alloc: Global,
    ghost served: { IsServed (H.serves (H.fixed hw)) accepted.machine.now.desc },
    ghost room: { accepted.machine.now.desc.size ≤ H.room (H.fixed hw) },
    ghost runs: { IsMonitorOf accepted.machine.now.desc monitor } by { IsMonitorOf-prop accepted.machine.now.desc monitor },
    ghost presents: { PresentsAny (H.machinery hw).state monitor } by { PresentsAny-prop (H.machinery hw).state monitor },
}

impl<'m, H: Hardware> Level<'m, H> {
    /// A level over a hardware, for an accepted machine that the hardware serves and has room for. It has no cells yet, and counts
    /// of 0. Takes no memory; the allocator is kept for `install`.
    pub fn new(alloc: Global, accepted: Accepted<'m>, hw: H) -> Level<'m, H>
        requires served { IsServed (H.serves (H.fixed hw)) accepted.machine.now.desc }
        requires room { accepted.machine.now.desc.size ≤ H.room (H.fixed hw) }
        ensures machine { result.accepted.machine.now ≡ accepted.entry.machine.now }
        ensures hw { result.hw ≡ hw }
        ensures monitor { result.monitor ≡ None }
        ensures counts { result.counts ≡ no_counts }
    {
        Level {
            accepted,
            hw,
            monitor: None,
            idle: Psw::power_on(0),
            counts: Counts::none(),
            alloc,
        }
    }

    /// The hardware below. Where the level was installed, its storage lies in it behind the cells that a monitor keeps.
    pub fn into_inner(self) -> H
        ensures hw { result ≡ self.entry.hw }
        ensures carries { let upper = presented (H.machinery self.entry.hw).state self.entry.monitor self.entry.idle in
            1 ≤ length upper.cells → Carries self.entry.accepted.machine.now.desc upper (H.machinery result).state }
    {
        let Level { hw, .. } = self;
        hw
    }

    /// A burst of the guest's own machine, counted once for all of its steps; how many they were.
    fn run(&mut self, m: &Machine, k: u64) -> u64
        requires served { ∥ Agree self.old.accepted.machine.now.desc m.now.desc ∥₁ }
        requires state { IsState m.now.desc (presented (H.machinery self.old.hw).state self.old.monitor self.old.idle) }
        ensures ran { Burst m.now.desc k result (level_of (H.machinery self.old.hw) self.old.monitor self.old.idle self.old.counts) (level_of (H.machinery self.new.hw) self.new.monitor self.new.idle self.new.counts) }
        ensures machine { self.new.accepted.machine.now ≡ self.old.accepted.machine.now }
        ensures fixed { H.fixed self.new.hw ≡ H.fixed self.old.hw }
    {
        match &mut self.monitor {
            Some(monitor) => {
                let all = burst(monitor, &mut self.hw, k);
                self.counts.steps = raised(self.counts.steps, all.done);
                self.counts.untrapped = raised(self.counts.untrapped, all.untrapped);
                all.done
            }
            None => unreachable!(),
        }
    }
}

impl<H: Hardware> Hardware for Level<'_, H> {
    ghost use Rattle.std.specs.Prelude.{◌-◌};
    ghost use Rattle.pg_ast.specs.declared.tree.Desc.{Desc};
    ghost use Rattle.pg_alloc.specs.Fit.{kept_cells};
    ghost use Rattle.pg_type.specs.Agreeing.{Agree};
    ghost use Rattle.pg_nest.specs.Levels.{level_of};

    ghost machinery = { λ l. level_of (H.machinery l.hw) l.monitor l.idle l.counts };

    ghost Fixed = { Desc × H.Fixed };

    ghost fixed = { λ l. (l.accepted.machine.now.desc, H.fixed l.hw) };

    ghost serves = { λ f. Agree f.0 };

    ghost room = { λ f. f.0.size - kept_cells };

    fn install(&mut self, size: u32) -> Result<(), AllocError> {
        let prepared = match Monitor::prepare(self.alloc, self.accepted, size) {
            Ok(prepared) => prepared,
            Err(GuestFault::Memory) => return Err(AllocError),
            Err(GuestFault::NoRoom) => unreachable!(),
        };
        match self.hw.install(self.accepted.machine().shape().q) {
            Ok(()) => {}
            Err(refused) => return Err(refused),
        }
        self.monitor = Some(prepared.start(&mut self.hw));
        Ok(())
    }

    fn size(&self) -> u32 {
        match &self.monitor {
            Some(monitor) => monitor.guest(0).size,
            None => 0,
        }
    }

    fn room(&self) -> u32 {
        self.accepted.machine().shape().q - KEPT_CELLS
    }

    fn step(&mut self, m: &Machine) {
        self.run(m, 1);
    }

    fn burst(&mut self, m: &Machine, k: u64) -> u64 {
        self.run(m, k)
    }

    fn peek(&self, at: u32) -> u64 {
        match &self.monitor {
            Some(monitor) => monitor.peek(&self.hw, 0, at),
            None => unreachable!(),
        }
    }

    fn poke(&mut self, at: u32, word: u64) {
        self.counts.pokes = raised(self.counts.pokes, 1);
        match &mut self.monitor {
            Some(monitor) => monitor.poke(&mut self.hw, 0, at, word),
            None => unreachable!(),
        }
    }

    fn psw(&self) -> Psw {
        match &self.monitor {
            Some(monitor) => monitor.guest(0).psw,
            None => self.idle,
        }
    }

    fn set_psw(&mut self, psw: Psw) {
        self.counts.loads = raised(self.counts.loads, 1);
        match &mut self.monitor {
            Some(monitor) => monitor.set_guest(&mut self.hw, 0, psw),
            None => self.idle = psw,
        }
    }

    fn counts(&self) -> Counts {
        self.counts
    }
}
