//! A hardware in memory, whatever machines it runs.
//!
//! A `Memory` is a storage that is a vector, a program status word, and counts, which are those at the bottom. What steps
//! make of storage and program status word is not its own: it has that from `Works`, which keeps the room that it takes
//! for a step. So `Memory` is proved to be a `Hardware` once, for every way to do steps, and each way is proved to do
//! *Step*.
//!
//! A burst is steps one after another, until one traps, and a step is a burst of one. `Works` does a burst in one call, which
//! hands back how many steps it did and how many of them count as untrapped. So between the steps of a burst nothing is read
//! from the hardware or written to it but cells: the program status word is put back once, and the counts rise once. Nothing
//! grows with the number of steps.

ghost use Rattle.std.specs.Prelude.{◌≡◌, ◌^◌, ◌<◌, [], vec_len};
ghost use Rattle.pg_word.specs.Psw.{power_on_psw};
ghost use Rattle.pg_lang_meaning.specs.States.{IsState};
ghost use Rattle.pg_lang_meaning.specs.Steps.{steps};
ghost use Rattle.pg_hw.specs.Tallies.{no_counts};
ghost use Rattle.pg_hw.specs.Machinery.{at_psw};
ghost use Rattle.pg_hw.specs.Bursts.{burst_length};
ghost use Rattle.pg_hw.specs.Serving.{IsServed};
ghost use Rattle.pg_hw.specs.Running.{after_run};
ghost use Rattle.pg_hw.specs.Stillness.{TellsStill};

use super::counts::Counts;
use super::hardware::Hardware;
use super::parts::raised;
use super::settling::{Settled, Settling};
use pg_mach_ready::Machine;
use pg_word::Psw;
use std::alloc::{AllocError, Global};

/// What a burst leaves beside its stores.
#[derive(Clone, Copy)]
pub struct BurstEnd {
    /// The program status word that follows.
    pub psw: Psw,
    /// The steps done, the one that trapped among them.
    pub done: u64,
    /// The steps that began in user mode and did not trap.
    pub untrapped: u64,
    /// Behind how many of the steps the state first stayed as it was, without a trap; none where it did not before the last one.
    /// The steps behind that one need not be done: each leaves the state as it is.
    pub still: Option<u64>,
}

/// A way to do steps, with the room that it takes for them.
pub trait Works {
    ghost use Rattle.std.specs.Prelude.{◌≡◌};
    ghost use Rattle.pg_ast.specs.declared.tree.Desc.{Desc};
    ghost use Rattle.pg_lang_meaning.specs.States.{IsState};
    ghost use Rattle.pg_lang_meaning.specs.Steps.{steps as stepped_often};
    ghost use Rattle.pg_hw.specs.Bursts.{burst_length, untrapped_among};
    ghost use Rattle.pg_hw.specs.Machinery.{at_psw};
    ghost use Rattle.pg_hw.specs.Serving.{IsServed};
    ghost use Rattle.pg_hw.specs.Stillness.{TellsStill};

    /// The machines whose steps it does.
    ghost does: { Desc → Type 0 };

    /// Ready for a first step.
    fn ready() -> Self;

    /// Steps of a machine whose storage is `cells`, until `k` were done or one trapped, which is then the last: from 1 to
    /// `k`, or 0 where `k` is 0.
    fn run(&mut self, cells: &mut [u64], psw: Psw, m: &Machine, k: u64) -> BurstEnd
        requires known { IsServed does m.now.desc }
        requires state { IsState m.now.desc (at_psw cells.old psw) }
        ensures done { result.done ≡ burst_length m.now.desc k (at_psw cells.old psw) }
        ensures state { at_psw cells.new result.psw ≡ stepped_often m.now.desc result.done (at_psw cells.old psw) }
        ensures untrapped { result.untrapped ≡ untrapped_among m.now.desc result.done (at_psw cells.old psw) }
        ensures still { TellsStill m.now.desc result.done (at_psw cells.old psw) result.still };
}

/// A hardware in memory, which has room for `2^32 - 1` cells.
#[derive(Drop)]
pub struct Memory<W: Works> {
    alloc: Global,
    cells: Vec<u64>,
    psw: Psw,
    counts: Counts,
    works: W,
    ghost addressable: { vec_len cells < 2 ^ 32 },
}

impl<W: Works> Memory<W> {
    /// A hardware without cells, on which nothing was done.
    pub fn new(alloc: Global) -> Memory<W>
        ensures cells { result.cells.items ≡ [] }
        ensures psw { result.psw ≡ power_on_psw 0 }
        ensures counts { result.counts ≡ no_counts }
    {
        Memory {
            alloc,
            cells: Vec::new(alloc),
            psw: Psw::power_on(0),
            counts: Counts::none(),
            works: W::ready(),
        }
    }

    /// Steps until `k` were done or one trapped, counted once for all of them; what they were.
    fn run(&mut self, m: &Machine, k: u64) -> Settled
        requires known { IsServed W.does m.now.desc }
        requires state { IsState m.now.desc (at_psw self.old.cells.items self.old.psw) }
        ensures done { result.done ≡ burst_length m.now.desc k (at_psw self.old.cells.items self.old.psw) }
        ensures still { TellsStill m.now.desc result.done (at_psw self.old.cells.items self.old.psw) result.still }
        ensures state { at_psw self.new.cells.items self.new.psw ≡ steps m.now.desc result.done (at_psw self.old.cells.items self.old.psw) }
        ensures counts { self.new.counts ≡ after_run m.now.desc self.old.counts result.done (at_psw self.old.cells.items self.old.psw) }
    {
        let end = self.works.run(&mut self.cells, self.psw, m, k);
        self.psw = end.psw;
        self.counts.steps = raised(self.counts.steps, end.done);
        self.counts.untrapped = raised(self.counts.untrapped, end.untrapped);
        Settled {
            done: end.done,
            still: end.still,
        }
    }
}

impl<W: Works> Hardware for Memory<W> {
    ghost use Rattle.pg_hw.specs.Machinery.{on_its_own};

    ghost machinery = { λ h. on_its_own h.cells.items h.psw h.counts };

    ghost Fixed = { Unit {0} };

    ghost fixed = { λ _. tt };

    ghost serves = { λ _. W.does };

    ghost room = { λ _. 4294967295 };

    fn install(&mut self, size: u32) -> Result<(), AllocError> {
        let cells = vec![in self.alloc; 0u64; size as usize]?;
        self.cells = cells;
        self.psw = Psw::power_on(size);
        Ok(())
    }

    fn size(&self) -> u32 {
        self.cells.len() as u32
    }

    fn room(&self) -> u32 {
        u32::MAX
    }

    fn step(&mut self, m: &Machine) {
        self.run(m, 1);
    }

    fn burst(&mut self, m: &Machine, k: u64) -> u64 {
        self.run(m, k).done
    }

    fn peek(&self, at: u32) -> u64 {
        self.cells[at as usize]
    }

    fn poke(&mut self, at: u32, word: u64) {
        self.cells[at as usize] = word;
        self.counts.pokes = raised(self.counts.pokes, 1);
    }

    fn psw(&self) -> Psw {
        self.psw
    }

    fn set_psw(&mut self, psw: Psw) {
        self.psw = psw;
        self.counts.loads = raised(self.counts.loads, 1);
    }

    fn counts(&self) -> Counts {
        self.counts
    }
}

impl<W: Works> Settling for Memory<W> {
    fn burst_settling(&mut self, m: &Machine, k: u64) -> Settled {
        self.run(m, k)
    }
}
