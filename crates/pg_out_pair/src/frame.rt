//! The numbers of two states: all of them but their words.

use crate::words::CELLS;
use pg_type::Kind;
use pg_word::{Mode, Psw, Shape};

/// The numbers of a state.
#[derive(Clone, Copy, Debug)]
pub(crate) struct Extent {
    /// How many cells the storage has.
    pub size: u32,
    /// The program status word.
    pub psw: Psw,
}

/// The numbers of two states.
#[derive(Clone, Copy, Debug)]
pub(crate) struct Frame {
    /// Those of the first.
    pub first: Extent,
    /// Those of the second.
    pub second: Extent,
}

/// Where a window lies, and P in it.
#[derive(Clone, Copy, Debug)]
pub(crate) struct Place {
    /// The first cell of the window.
    pub begin: u32,
    /// P.
    pub p: u32,
}

/// The places that are tried, one after another: first as a machine begins, where an address is the number of a cell.
pub(crate) static PLACES: [Place; 3] = [
    Place { begin: 0, p: 2 },
    Place { begin: 4, p: 2 },
    Place { begin: 2, p: 1 },
];

/// How far apart two windows lie, or two bounds.
const APART: u32 = 2;

/// The numbers of two states that differ as those of a kind do, in a mode where the kind leaves it open, and with at most so many
/// cells in their windows.
pub(crate) fn frame_of(shape: &Shape, kind: Kind, mode: Mode, place: Place, cells: u32) -> Frame {
    let most = shape.q.min(CELLS as u32);
    let first = place.begin;
    let second = match kind {
        Kind::Location | Kind::ULocation => first.saturating_add(APART),
        _ => first,
    };
    let length = most
        .saturating_sub(second)
        .min(cells)
        .min(longest(shape, kind));
    let size = second.saturating_add(length);
    let bound = match kind {
        Kind::Bound | Kind::UBound => length.saturating_add(APART),
        _ => length,
    };
    Frame {
        first: extent_of(size, first_mode(kind, mode), place.p, second, length),
        second: extent_of(size, second_mode(kind, mode), place.p, first, bound),
    }
}

/// The longest window whose bounds, of which one may be greater, are addresses.
fn longest(shape: &Shape, kind: Kind) -> u32 {
    let greatest = 1u32.checked_shl(shape.a).unwrap_or(0).saturating_sub(1);
    match kind {
        Kind::Bound | Kind::UBound => greatest.saturating_sub(APART),
        _ => greatest,
    }
}

/// The numbers of a state.
fn extent_of(size: u32, mode: Mode, p: u32, l: u32, b: u32) -> Extent {
    Extent {
        size,
        psw: Psw { mode, p, l, b },
    }
}

/// The mode of the first state.
fn first_mode(kind: Kind, mode: Mode) -> Mode {
    match kind {
        Kind::Privileged | Kind::ModeDep => Mode::S,
        Kind::UControl | Kind::ULocation | Kind::UBound => Mode::U,
        Kind::Control | Kind::Location | Kind::Bound => mode,
    }
}

/// The mode of the second.
fn second_mode(kind: Kind, mode: Mode) -> Mode {
    match kind {
        Kind::Privileged | Kind::ModeDep => Mode::U,
        _ => first_mode(kind, mode),
    }
}
