//! The trait of hardware: what a machine that runs owes to those who run it.
//!
//! Its state is that of the 1974 paper (section 2), a storage and a program status word, and `step` is *Step*. Bare
//! runs, the routines that emulate a guest, the monitor and the texts of states are written for any `Hardware`, and
//! know no more of it than these clauses.
//!
//! Each call says of the whole machinery what becomes of it, so that a fact on a part of it lasts over all calls that do
//! not name that part. A count rises at the calls whose documentation says so, and at no other: what was done to a hardware
//! can be read off it afterwards. A count stands still at `2^64 - 1`. Only `install` takes memory, so no other call can be
//! refused.

use super::counts::Counts;
use pg_mach_ready::Machine;
use pg_word::Psw;
use std::alloc::AllocError;

/// A machine that runs: a storage of cells and a program status word that move by *Step*.
///
/// A call leaves everything as it was but what it names: the state, the counts and the counts at the bottom. No call changes
/// what is *fixed*, and the room and the machines served follow from it. What only looks raises no count.
pub trait Hardware {
    ghost use Rattle.std.specs.Prelude.{◌≡◌, ℕ, ◌≤◌, ◌<◌, length, slice_get, OnOk, OnErr};
    ghost use Rattle.pg_ast.specs.declared.tree.Desc.{Desc};
    ghost use Rattle.pg_lang_meaning.specs.States.{IsState};
    ghost use Rattle.pg_lang_meaning.specs.Steps.{step as stepped, steps as stepped_often};
    ghost use Rattle.pg_hw.specs.Tallies.{after_steps};
    ghost use Rattle.pg_hw.specs.Machinery.{Machinery, poked_at, loaded_with};
    ghost use Rattle.pg_hw.specs.Bursts.{untrapped_at, untrapped_among, burst_length, BottomRises};
    ghost use Rattle.pg_hw.specs.Serving.{IsServed, IsServedWord, IsServedPsw, blank};

    /// Its state, its four counts, and the two counts at the bottom.
    ghost machinery: { Self → Machinery };

    /// The type of what no call changes, which the implementation chooses.
    ghost Fixed: { Type 0 };

    /// What no call changes. Of a hardware that another one holds, it tells which one is held.
    ghost fixed: { Self → Fixed };

    /// The machines that it may run.
    ghost serves: { Fixed → Desc → Type 0 };

    /// The greatest size that it can be given, in cells.
    ghost room: { Fixed → ℕ };

    /// Gives it `size` cells of zero and the program status word (s, 2, (0, size)); `size` is from 2 to its room. No count
    /// rises.
    ///
    /// # Errors
    /// Only for lack of memory, and then all is as before.
    fn install(&mut self, size: u32) -> Result<(), AllocError>
        requires least { 2 ≤ size }
        requires most { size ≤ room (fixed self.old) }
        ensures installed { OnOk result (machinery self.new ≡ record (machinery self.old) { state = blank size }) }
        ensures refused { OnErr result (machinery self.new ≡ machinery self.old) }
        ensures fixed { fixed self.new ≡ fixed self.old };

    /// The number of cells.
    fn size(&self) -> u32
        ensures { result ≡ length (machinery self.now).state.cells };

    /// The greatest size that it can be given, in cells.
    fn room(&self) -> u32
        ensures { result ≡ room (fixed self.now) };

    /// One step of a machine that it serves, of which its state must be one. The count of steps rises by one, and that
    /// of untrapped ones where the step began in user mode and did not trap. At the bottom a step that began in user
    /// mode counts in the same way; one that began in supervisor mode counts as a step, and maybe as an untrapped one.
    fn step(&mut self, m: &Machine)
        requires served { IsServed (serves (fixed self.old)) m.now.desc }
        requires state { IsState m.now.desc (machinery self.old).state }
        ensures state { (machinery self.new).state ≡ stepped m.now.desc (machinery self.old).state }
        ensures tally { (machinery self.new).tally ≡ after_steps (machinery self.old).tally 1 (untrapped_at m.now.desc (machinery self.old).state) }
        ensures bottom { BottomRises m.now.desc 1 (machinery self.old).state (machinery self.old).bottom (machinery self.new).bottom }
        ensures fixed { fixed self.new ≡ fixed self.old };

    /// Steps until `k` were done or one trapped, which is then the last; how many were done, from 1 to `k`, or 0 where
    /// `k` is 0. The counts rise as by so many calls of `step`, here and at the bottom.
    fn burst(&mut self, m: &Machine, k: u64) -> u64
        requires served { IsServed (serves (fixed self.old)) m.now.desc }
        requires state { IsState m.now.desc (machinery self.old).state }
        ensures count { result ≡ burst_length m.now.desc k (machinery self.old).state }
        ensures state { (machinery self.new).state ≡ stepped_often m.now.desc result (machinery self.old).state }
        ensures tally { (machinery self.new).tally ≡ after_steps (machinery self.old).tally result (untrapped_among m.now.desc result (machinery self.old).state) }
        ensures bottom { BottomRises m.now.desc result (machinery self.old).state (machinery self.old).bottom (machinery self.new).bottom }
        ensures fixed { fixed self.new ≡ fixed self.old };

    /// The word of a cell, by its address in the storage, which is below the size: R plays no part.
    fn peek(&self, at: u32) -> u64
        requires { at < length (machinery self.now).state.cells }
        ensures { slice_get (machinery self.now).state.cells at ≡ Some result };

    /// Sets a cell, by its address in the storage, which is below the size, to a word that has no more bits than the
    /// words of some machine that it serves. The count of pokes rises by one.
    fn poke(&mut self, at: u32, word: u64)
        requires within { at < length (machinery self.old).state.cells }
        requires word { IsServedWord (serves (fixed self.old)) word }
        ensures poked { machinery self.new ≡ poked_at at word (machinery self.old) }
        ensures fixed { fixed self.new ≡ fixed self.old };

    /// The program status word.
    fn psw(&self) -> Psw
        ensures { result ≡ (machinery self.now).state.psw };

    /// Loads a program status word, whose P, l and b have no more bits than the addresses of some machine that it
    /// serves. They may lie past the storage. The count of loads rises by one.
    fn set_psw(&mut self, psw: Psw)
        requires { IsServedPsw (serves (fixed self.old)) psw }
        ensures loaded { machinery self.new ≡ loaded_with psw (machinery self.old) }
        ensures fixed { fixed self.new ≡ fixed self.old };

    /// The four counts, each from 0 to `2^64 - 1`.
    fn counts(&self) -> Counts
        ensures { result ≡ (machinery self.now).tally };
}
