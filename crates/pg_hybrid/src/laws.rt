//! What follows from the definitions alone, for those who read them: none of it does anything when it runs.

ghost use Rattle.std.specs.Prelude.{◌≡◌, ℕ, ◌≤◌, List, length};
ghost use Rattle.pg_ast.specs.declared.tree.Desc.{Desc};
ghost use Rattle.pg_lang_meaning.specs.States.{State};
ghost use Rattle.pg_mon_control.specs.declared.guest.Guest.{Guest};
ghost use Rattle.pg_mon_control.specs.Direct.{direct_among};
ghost use Rattle.pg_mon_control.specs.Schedules.{schedule, each_count};
ghost use Rattle.pg_hybrid.specs.UserTurns.{user_among, hybrid_among};
ghost use Rattle.pg_hybrid.specs.Plans.{user_count, user_of, hybrid_of};
ghost use Rattle.pg_hybrid.specs.WorkedTurns.{SixSteps, FourFromUserMode, TwoOfThemDirect, RtuIsDirectBesides, NoLoadBesideAnother, NotItself, DirectTurnLoadsOnce, TrapLeavesNone, TwoLoadsInSix, EachTurnLoads, EachSliceLoads, OtherOrder};

/// Of a schedule as many turns begin in user mode, and as many of these are direct, as each guest's own steps say, whatever
/// the slice is and whatever the other guests do.
pub fn schedule_counts_each_guest()
    ensures users { (d : Desc) (guests : List Guest) (states : List State) (slice n : ℕ) → user_of d guests (schedule (length guests) slice n) states ≡ each_count (user_count d) guests n states }
    ensures hybrid { (d : Desc) (guests : List Guest) (states : List State) (slice n : ℕ) → hybrid_of d guests (schedule (length guests) slice n) states ≡ each_count (hybrid_among d) guests n states }
{}

/// No more turns are direct than begin in user mode, and no more than are direct in whatever mode they begin.
pub fn direct_turns_begin_in_user_mode()
    ensures users { (d : Desc) (base n : ℕ) (s : State) → hybrid_among d base n s ≤ user_among d n s }
    ensures turns { (d : Desc) (n : ℕ) (s : State) → user_among d n s ≤ n }
    ensures direct { (d : Desc) (base n : ℕ) (s : State) → hybrid_among d base n s ≤ direct_among d base n s }
{}

/// Turns of guests on a machine with a jump to user mode, worked out by hand.
pub fn worked_turns()
    ensures six_steps { SixSteps }
    ensures four_from_user_mode { FourFromUserMode }
    ensures two_of_them_direct { TwoOfThemDirect }
    ensures rtu_is_direct_besides { RtuIsDirectBesides }
    ensures no_load_beside_another { NoLoadBesideAnother }
    ensures not_itself { NotItself }
    ensures direct_turn_loads_once { DirectTurnLoadsOnce }
    ensures trap_leaves_none { TrapLeavesNone }
    ensures two_loads_in_six { TwoLoadsInSix }
    ensures each_turn_loads { EachTurnLoads }
    ensures each_slice_loads { EachSliceLoads }
    ensures other_order { OtherOrder }
{}
