//! What follows from the definitions alone, for those who read them: none of it does anything when it runs.

ghost use Rattle.std.specs.Prelude.{◌≡◌, ℕ, ◌+◌, ◌-◌, ◌*◌, ◌<◌, ◌≤◌, true, false, List, length};
ghost use Rattle.pg_ast.specs.declared.tree.Desc.{Desc};
ghost use Rattle.pg_word.specs.declared.psw.Mode.TheVariants.{S, U};
ghost use Rattle.pg_lang_meaning.specs.States.{State};
ghost use Rattle.pg_lang_meaning.specs.Steps.{steps};
ghost use Rattle.pg_hw.specs.Bursts.{burst_length, one_if, untrapped_among};
ghost use Rattle.pg_monitor.specs.declared.turning.BurstTold.{BurstTold};
ghost use Rattle.pg_monitor.specs.Bursts.{TellsBurst};
ghost use Rattle.pg_mon_control.specs.declared.guest.Guest.{Guest};
ghost use Rattle.pg_mon_control.specs.Plans.{turns_for, turns_of};
ghost use Rattle.pg_monitor.specs.Plans.{direct_of};
ghost use Rattle.pg_mon_control.specs.Schedules.{schedule, each_direct};
ghost use Rattle.pg_monitor.specs.WorkedSchedules.{ShorterLast, ChangesAtEachSlice, OneSliceAlone, EmptyLast, NoChangesInEmptyLast};

/// A schedule gives each guest its turns, whatever the slice is, and of these as many are direct as its own steps say,
/// whatever the other guests do.
pub fn schedule_gives_each_its_turns()
    ensures each_turns { (count slice n j : ℕ) → 1 ≤ slice → j < count → turns_for j (schedule count slice n) ≡ n }
    ensures all_turns { (count slice n : ℕ) → 1 ≤ slice → turns_of (schedule count slice n) ≡ count * n }
    ensures each_direct { (d : Desc) (guests : List Guest) (states : List State) (slice n : ℕ) → 1 ≤ slice → length states ≡ length guests → direct_of d guests (schedule (length guests) slice n) states ≡ each_direct d guests n states }
{}

/// What is told of a burst for a guest is a front of a burst of the guest's own machine: all of it where the guest's own step
/// trapped at the last turn, and else the burst goes on from there. In user mode all of these steps but such a last one are
/// counted as untrapped, and in supervisor mode none is.
pub fn a_told_burst_is_a_front_of_the_guests_own()
    ensures goes_on { (d : Desc) (base most : ℕ) (s : State) (told : BurstTold) → TellsBurst d base most s told → told.trapped ≡ false → burst_length d most s ≡ told.turns + burst_length d (most - told.turns) (steps d told.turns s) }
    ensures ends { (d : Desc) (base most : ℕ) (s : State) (told : BurstTold) → TellsBurst d base most s told → told.trapped ≡ true → burst_length d most s ≡ told.turns }
    ensures user { (d : Desc) (base most : ℕ) (s : State) (told : BurstTold) → TellsBurst d base most s told → s.psw.mode ≡ U → untrapped_among d told.turns s + one_if told.trapped ≡ told.turns }
    ensures supervisor { (d : Desc) (base most : ℕ) (s : State) (told : BurstTold) → TellsBurst d base most s told → s.psw.mode ≡ S → untrapped_among d told.turns s ≡ 0 }
{}

/// Schedules of two guests and of one.
pub fn worked_schedules()
    ensures shorter_last { ShorterLast }
    ensures changes_at_each_slice { ChangesAtEachSlice }
    ensures one_slice_alone { OneSliceAlone }
    ensures empty_last { EmptyLast }
    ensures no_changes_in_empty_last { NoChangesInEmptyLast }
{}
