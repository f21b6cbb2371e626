//! Cells under stores that are yet to be made.

ghost use Rattle.std.specs.Prelude.{◌≡◌, ℕ};
ghost use Rattle.pg_interp.specs.Writes.{overlaid};

use crate::cells::Cells;
use crate::effect::Write;

/// A window as it will be after stores, of which none has been made.
pub struct Overlay<'c, C> {
    pub cells: &'c C,
    pub writes: &'c [Write],
}

impl<'c, C> Drop for Overlay<'c, C> {
    fn drop(self) {
        let Overlay {
            cells: _,
            writes: _,
        } = self;
    }
}

impl<'c, C: Cells> Cells for Overlay<'c, C> {
    ghost use Rattle.pg_interp.specs.Writes.{written};

    ghost window = { λ s. written s.writes.now (C.window s.cells.now) };

    fn cell(&self, a: u32) -> Option<u64> {
        match self.cells.cell(a) {
            None => None,
            Some(cell) => Some(overlaid(self.writes, a, cell)),
        }
    }
}

/// What an address holds after stores, where it held `cell`.
#[tactic(auto, unfolding(crate::specs::Writes::overlaid))]
pub fn overlaid(writes: &[Write], a: u32, cell: u64) -> u64
    ensures { result ≡ overlaid writes.now a cell }
{
    let mut held = cell;
    for write in writes {
        if write.at == a {
            held = write.cell;
        }
    }
    held
}
