//! What hardwares do alike, whatever machines they run: the trap, and a count that rises.

ghost use Rattle.std.specs.Prelude.{◌≡◌, ◌≤◌, length, slice_set, slice_index};
ghost use Rattle.pg_word.specs.Shape.{IsShape};
ghost use Rattle.pg_word.specs.Psw.{IsPsw, cause_number, new_psw_cell, old_psw_cell, packed_trap, unpacked};
ghost use Rattle.pg_hw.specs.Tallies.{raised_by};

use pg_word::{Cause, NEW_PSW_CELL, OLD_PSW_CELL, Psw, Shape, pack_trap, unpack};

/// The trap: stores the word of the program status word in cell 0, with its cause, and gives the program status word that
/// cell 1 held, which is to be loaded.
pub fn trap(cells: &mut [u64], shape: &Shape, psw: Psw, cause: Cause) -> Psw
    requires shape { IsShape shape.now }
    requires fields { IsPsw shape.now.a psw }
    requires some { 2 ≤ length cells.old }
    ensures cells { cells.new ≡ slice_set cells.old old_psw_cell (packed_trap shape.now psw (cause_number cause)) }
    ensures psw { result ≡ unpacked shape.now.a (slice_index cells.old new_psw_cell) }
{
    let loaded = unpack(shape, cells[NEW_PSW_CELL as usize]);
    cells[OLD_PSW_CELL as usize] = pack_trap(shape, psw, cause.number());
    loaded
}

/// A count that rises by so many, and stands still at its last value.
pub fn raised(count: u64, by: u64) -> u64
    ensures { result ≡ raised_by by count }
{
    count.saturating_add(by)
}
