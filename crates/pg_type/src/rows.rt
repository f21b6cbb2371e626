//! Worked runs and worked kinds, as laws: the definitions of this crate, computed on machines of a few instructions.
//!
//! A definition can be wrong and every proof on it right. So here are runs and pairs whose outcome was worked out by
//! hand: `specs/WorkedRuns.antt` and `specs/WorkedKinds.antt` state them, over the machines of `specs/Examples.antt`,
//! and the proof computes them. `specs/WorkedUserMode.antt` and `specs/WorkedAgreeing.antt` have instances of the laws in user
//! mode and of those of machines that agree, each with what is near and not so. None of the functions does anything when it
//! runs.

ghost use Rattle.pg_type.specs.WorkedRuns.{NoPattern, NoWindow, PastStorage, LastUsable, FirstPastBound, FirstPastSize, RunsPastWindow, DoublesInALoop, WindowOfOneCell, NoPatternCause, MemoryTrapCause, TrapCause, TrapsForEver, WidensAndShifts};
ghost use Rattle.pg_type.specs.WorkedKinds.{RtuShowsControl, RtuInUserModeDoesNot, RtuBreaksPrivilege, LrBreaksNoPrivilege, StoreModeShowsMode, StoreModeOutsideDoesNot, SupervisorLoadShowsMode, UserJumpShowsMode, UserJumpBreaksPrivilege, StoreRelShowsLocation, StoreRelUserShowsLocation, StoreRelOutsideDoesNot, StoreBoundShowsBound, StoreBoundUserShowsBound, StoreBoundOutsideDoesNot, OpenLrShowsControl, OpenLrOfTheSameDoesNot, StoreRelIsNoUserPair, StoreBoundIsNoUserPair, StoreBoundOfTwoSizesShowsBound, StoreRelOfTwoSizesDoesNot, StoreRelOfTwoBoundsDoesNot, LrDoneInSupervisorModeDoesNot, SvcBreaksPrivilege, M1ServesHybridAlone};
ghost use Rattle.pg_type.specs.WorkedUserMode.{RtuDoneAlike, RtuTrapsAlike, RtuStepsAlike, RtuKeepsControl, RtuInSupervisorModeIsNotAlike};
ghost use Rattle.pg_type.specs.WorkedAgreeing.{NarrowLoop, CausesDoNotAgree, SixteenCellsFitBoth, TwentyCellsFitOneAlone, NarrowM1ServesHybrid};

/// Runs of bare machines, each with the state that it ends in.
pub fn worked_runs()
    ensures no_pattern { NoPattern }
    ensures no_window { NoWindow }
    ensures past_storage { PastStorage }
    ensures last_usable { LastUsable }
    ensures first_past_bound { FirstPastBound }
    ensures first_past_size { FirstPastSize }
    ensures runs_past_window { RunsPastWindow }
    ensures doubles_in_a_loop { DoublesInALoop }
    ensures window_of_one_cell { WindowOfOneCell }
    ensures no_pattern_cause { NoPatternCause }
    ensures memory_trap_cause { MemoryTrapCause }
    ensures trap_cause { TrapCause }
    ensures traps_for_ever { TrapsForEver }
    ensures widens_and_shifts { WidensAndShifts }
{}

/// For each kind a pair of states that shows it, and near pairs that do not.
pub fn worked_kinds()
    ensures rtu_shows_control { RtuShowsControl }
    ensures rtu_in_user_mode_does_not { RtuInUserModeDoesNot }
    ensures rtu_breaks_privilege { RtuBreaksPrivilege }
    ensures lr_breaks_no_privilege { LrBreaksNoPrivilege }
    ensures store_mode_shows_mode { StoreModeShowsMode }
    ensures store_mode_outside_does_not { StoreModeOutsideDoesNot }
    ensures supervisor_load_shows_mode { SupervisorLoadShowsMode }
    ensures user_jump_shows_mode { UserJumpShowsMode }
    ensures user_jump_breaks_privilege { UserJumpBreaksPrivilege }
    ensures store_rel_shows_location { StoreRelShowsLocation }
    ensures store_rel_user_shows_location { StoreRelUserShowsLocation }
    ensures store_rel_outside_does_not { StoreRelOutsideDoesNot }
    ensures store_bound_shows_bound { StoreBoundShowsBound }
    ensures store_bound_user_shows_bound { StoreBoundUserShowsBound }
    ensures store_bound_outside_does_not { StoreBoundOutsideDoesNot }
    ensures open_lr_shows_control { OpenLrShowsControl }
    ensures open_lr_of_the_same_does_not { OpenLrOfTheSameDoesNot }
    ensures store_rel_is_no_user_pair { StoreRelIsNoUserPair }
    ensures store_bound_is_no_user_pair { StoreBoundIsNoUserPair }
    ensures store_bound_of_two_sizes_shows_bound { StoreBoundOfTwoSizesShowsBound }
    ensures store_rel_of_two_sizes_does_not { StoreRelOfTwoSizesDoesNot }
    ensures store_rel_of_two_bounds_does_not { StoreRelOfTwoBoundsDoesNot }
    ensures lr_done_in_supervisor_mode_does_not { LrDoneInSupervisorModeDoesNot }
    ensures svc_breaks_privilege { SvcBreaksPrivilege }
{}

/// M1, a machine that a hybrid monitor may run and the other may not: its one instruction enters user mode, and in user
/// mode does what any jump does.
pub fn hybrid_alone()
    ensures { M1ServesHybridAlone }
{}

/// On M1 what rtu does in user mode is done alike at another place and under another bound, and is not where the second state
/// is in supervisor mode.
pub fn worked_user_mode()
    ensures done_alike { RtuDoneAlike }
    ensures traps_alike { RtuTrapsAlike }
    ensures steps_alike { RtuStepsAlike }
    ensures keeps_control { RtuKeepsControl }
    ensures in_supervisor_mode_is_not_alike { RtuInSupervisorModeIsNotAlike }
{}

/// Machines that agree: they run alike, and the narrower one has fewer states; and two that differ in more than the greatest
/// size.
pub fn worked_agreement()
    ensures narrow_loop { NarrowLoop }
    ensures causes_do_not_agree { CausesDoNotAgree }
    ensures sixteen_cells_fit_both { SixteenCellsFitBoth }
    ensures twenty_cells_fit_one_alone { TwentyCellsFitOneAlone }
    ensures narrow_m1_serves_hybrid { NarrowM1ServesHybrid }
{}
