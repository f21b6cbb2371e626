//! The first gap between grants that is large enough.

ghost use Rattle.std.specs.Prelude.{◌≡◌, ◌+◌, ◌≤◌, nat_le, None, IfSome, IfNone};
ghost use Rattle.pg_alloc.specs.Fit.{free_base};
ghost use Rattle.pg_alloc.specs.Grants.{AreGrants, IsGap};

/// The cells that a monitor keeps for traps: cell 0, where one is stored, and cell 1, which is loaded then. The first grant
/// begins behind them.
pub const KEPT_CELLS: u32 = 2;

/// Where a new grant goes: its base, and its place among the others.
#[derive(Clone, Copy)]
pub(crate) struct Gap {
    pub place: usize,
    pub base: u32,
}

/// Whether `size` cells from a base on end before a cell, or at it.
fn ends_before(base: u32, size: u32, cell: u32) -> bool
    ensures { result ≡ nat_le (base + size) cell }
{
    u64::from(base) + u64::from(size) <= u64::from(cell)
}

/// The first gap of `size` cells between grants in a storage of `q`.
pub(crate) fn first_gap(q: u32, grants: &[(u32, u32)], size: u32) -> Option<Gap>
    requires lie { AreGrants q grants.now }
    requires least { 1 ≤ size }
    ensures gap { IfSome result (λ gap. IsGap q grants.now size gap.place gap.base) }
    ensures none { IfNone result (free_base q grants.now size ≡ None) }
{
    let mut base = KEPT_CELLS;
    for place in 0..grants.len() {
        let (next, cells) = grants[place];
        if ends_before(base, size, next) {
            return Some(Gap { place, base });
        }
        base = next + cells;
    }
    if ends_before(base, size, q) {
        Some(Gap {
            place: grants.len(),
            base,
        })
    } else {
        None
    }
}
