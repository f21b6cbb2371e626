//! The two states of a finding, as the lines of a certificate give them.
//!
//! A state is drawn by a line of its size, one of its program status word, and rows of its cells that are not zero, upwards.
//! It is whole from its second line on: rows may follow, and need not.

ghost use Rattle.std.specs.Prelude.{◌≡◌};
ghost use Rattle.pg_verify.specs.Taking.{is_whole};
ghost use Rattle.pg_verify.specs.Seen.{pair_of};

use pg_word::Sparse;

/// How far the two states of a finding have come.
#[derive(Debug, Drop)]
pub enum Drawing {
    /// No line yet.
    NoState,
    /// The size of the first.
    FirstSize(u32),
    /// The first, whole.
    FirstState(Sparse),
    /// The first, and the size of the second.
    SecondSize(Sparse, u32),
    /// Both, whole.
    BothStates(Sparse, Sparse),
}

/// Whether both states are whole.
pub fn is_whole(drawing: &Drawing) -> bool
    ensures { result ≡ is_whole (pair_of drawing.now) }
{
    match drawing {
        Drawing::BothStates(_, _) => true,
        Drawing::NoState => false,
        Drawing::FirstSize(_) => false,
        Drawing::FirstState(_) => false,
        Drawing::SecondSize(_, _) => false,
    }
}
