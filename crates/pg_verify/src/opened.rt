//! The finding that is open.

ghost use Rattle.std.specs.Prelude.{◌≡◌};
ghost use Rattle.pg_verify.specs.Taking.{is_fresh, may_close};
ghost use Rattle.pg_verify.specs.Seen.{open_of, is_ended};

use crate::drawing::{Drawing, is_whole};
use pg_proof::Checker;

/// What is open of a text. A finding has the number of its header's line.
#[derive(Drop)]
pub enum Opened {
    /// Nothing was read: the first line is due.
    Fresh,
    /// No finding, behind the first line.
    Between,
    /// A log that is to refute.
    Refuting(u32, Checker),
    /// Two states that are to show a kind.
    Showing(u32, Drawing),
    /// A log that spends a budget, and how many steps it has.
    Spending(u32, u32, u32, Checker),
    /// Nothing, behind the last line.
    Ended,
}

/// Whether nothing was read.
pub fn is_fresh(opened: &Opened) -> bool
    ensures { result ≡ is_fresh (open_of opened.now) }
{
    match opened {
        Opened::Fresh => true,
        Opened::Between => false,
        Opened::Refuting(_, _) => false,
        Opened::Showing(_, _) => false,
        Opened::Spending(_, _, _, _) => false,
        Opened::Ended => false,
    }
}

/// Whether a header, or the last line, may stand where this is open.
pub fn may_close(opened: &Opened) -> bool
    ensures { result ≡ may_close (open_of opened.now) }
{
    match opened {
        Opened::Fresh => false,
        Opened::Between => true,
        Opened::Refuting(_, _) => true,
        Opened::Showing(_, drawing) => is_whole(drawing),
        Opened::Spending(_, _, _, _) => true,
        Opened::Ended => false,
    }
}

/// Whether the last line was read.
pub fn is_ended(opened: &Opened) -> bool
    ensures { result ≡ is_ended (open_of opened.now) }
{
    match opened {
        Opened::Ended => true,
        Opened::Fresh => false,
        Opened::Between => false,
        Opened::Refuting(_, _) => false,
        Opened::Showing(_, _) => false,
        Opened::Spending(_, _, _, _) => false,
    }
}
