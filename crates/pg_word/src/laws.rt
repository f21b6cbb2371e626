//! What follows from the definitions alone, for those who read them: none of it does anything when it runs.

ghost use Rattle.std.specs.Prelude.{◌≡◌, ℕ, ◌+◌, ◌*◌, ◌/◌, ◌^◌, ◌<◌, ◌≤◌, true, false};
ghost use Rattle.pg_word.specs.Shape.{IsShape};
ghost use Rattle.pg_word.specs.Psw.{IsPsw, packed, packed_trap, power_on_psw, unpacked, window_len_of};
ghost use Rattle.pg_word.specs.Bits.{product_of, left_shifted, sign_extended};
ghost use Rattle.pg_word.specs.Sparse.{storage_of};

use super::psw::{Mode, Psw};
use super::shape::Shape;
use super::sparse::Sparse;

/// Unpacking a packed program status word gives it back.
pub fn unpack_undoes_pack(a: u32, x: Psw)
    requires { IsPsw a x }
    ensures { unpacked a (packed a x) ≡ x }
{}

/// Unpacking what a trap stores gives the program status word back, whatever its cause.
pub fn unpack_undoes_pack_trap(s: Shape, x: Psw, cause: u8)
    requires { IsPsw s.a x }
    ensures { unpacked s.a (packed_trap s x cause) ≡ x }
{}

/// Where causes are on, the cause stands above the mode in what a trap stores.
pub fn cause_stands_above_mode(s: Shape, x: Psw, cause: u8)
    requires on { s.causes ≡ true }
    requires fields { IsPsw s.a x }
    ensures { packed_trap s x cause / 2 ^ (3 * s.a + 1) ≡ cause }
{}

/// Where causes are off, a trap stores the packed program status word, whatever its cause.
pub fn no_cause_is_stored(s: Shape, x: Psw, cause: u8)
    requires { s.causes ≡ false }
    ensures { packed_trap s x cause ≡ packed s.a x }
{}

/// A packed program status word has `3 a + 1` bits.
pub fn packed_fits(a: u32, x: Psw)
    requires { IsPsw a x }
    ensures { packed a x < 2 ^ (3 * a + 1) }
{}

/// What a trap stores fits a word.
pub fn packed_trap_fits(s: Shape, x: Psw, cause: u8)
    requires shape { IsShape s }
    requires fields { IsPsw s.a x }
    requires cause_most { cause ≤ 3 }
    ensures { packed_trap s x cause < 2 ^ s.w }
{}

/// A window has no more cells than the storage.
pub fn window_is_within_size(x: Psw, size: u32)
    ensures { window_len_of x size ≤ size }
{}

/// The window of a relocation at or past the end of the storage is empty.
pub fn window_past_end_is_empty(x: Psw, size: u32)
    requires { size ≤ x.l }
    ensures { window_len_of x size ≡ 0 }
{}

/// An address within the window, relocated, is the number of a cell of the storage.
pub fn window_address_is_within_size(x: Psw, size: u32)
    ensures { (k : ℕ) → k < window_len_of x size → x.l + k < size }
{}

/// Words that can be worked out by hand, at addresses of 8 bits.
pub fn worked_words()
    ensures user { packed 8 (record { mode = Mode.U; p = 5; l = 16; b = 32 }) ≡ 0x01051020 }
    ensures trap { packed_trap (record { w = 32; a = 8; q = 64; causes = true }) (power_on_psw 8) 3 ≡ 0x06020008 }
{}

/// Numbers of 8 bits that can be worked out by hand.
pub fn worked_numbers()
    ensures product { product_of 8 200 3 ≡ 88 }
    ensures left_by_width { left_shifted 8 1 8 ≡ 0 }
    ensures widened { sign_extended 12 4 8 ≡ 252 }
{}

/// A state is listed in one way alone: two of one size and one program status word that stand for the same storage are the
/// same.
pub fn same_storage_same_state(x: &Sparse, y: &Sparse)
    requires size { x.now.size ≡ y.now.size }
    requires psw { x.now.psw ≡ y.now.psw }
    requires storage { storage_of x.now.size x.now.cells ≡ storage_of y.now.size y.now.cells }
    ensures cells { x.now.cells ≡ y.now.cells }
    ensures state { x.now ≡ y.now }
{
    x.cells.as_slice();
    y.cells.as_slice();
}
