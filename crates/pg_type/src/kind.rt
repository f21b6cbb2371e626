//! The questions that are asked of an instruction.

/// A question that is asked of an instruction: privileged and the sensitive kinds of the 1974 paper (section 3), and
/// those of its hybrid monitors, which look at user states alone. Each is shown by two states (`Shows`,
/// `specs/Kinds.antt`), at both of which the instruction stands at P.
#[derive(Clone, Copy, Debug, PartialEq, Eq)]
pub enum Kind {
    /// That it is not privileged. Shown by a supervisor state and the same in user mode, where the user one is done, or
    /// neither memory traps and the supervisor one traps.
    Privileged,
    /// Control sensitive. Shown by one state, given twice, where it is done and changes the mode or R.
    Control,
    /// Sensitive to the mode. Shown by a supervisor state and the same in user mode, where the user one is done and the
    /// observations differ.
    ModeDep,
    /// Sensitive to the place of the window. Shown by two states of one size, of equal mode, P, bound and window and
    /// different l, where at least one is done and the observations differ.
    Location,
    /// Sensitive to the bound, a kind of our own. Shown by two states of any sizes, of equal mode, P, l and window and
    /// different bounds, where at least one is done and the observations differ.
    Bound,
    /// `Control`, shown by a user state.
    UControl,
    /// `Location`, shown by two user states.
    ULocation,
    /// `Bound`, shown by two user states.
    UBound,
}
