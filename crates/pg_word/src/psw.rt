//! The program status word, its word in storage, and the window that it opens.
//!
//! From bit 0 the word holds b, l and P, of `a` bits each, and the mode, a bit: 0 supervisor, 1 user. Where a shape has
//! causes on, what a trap stores has its cause in the two bits above; loading ignores all that stands above the mode.
//! Mode, P and (l, b) are those of the 1974 paper (section 2); how they lie in a word is ours.
//!
//! A hardware packs what a trap stores and unpacks what it loads, and so does a routine that emulates the step of a guest;
//! both measure windows here. Unpacking gives back what was packed, with a cause or without (`laws`). Every word unpacks, to
//! fields that are in their ranges, so what a program left in cell 1 needs no test.

ghost use Rattle.std.specs.Prelude.{◌≡◌, ◌+◌, ◌*◌, ◌%◌, ◌^◌, ◌<◌, ◌≤◌};
ghost use Rattle.pg_word.specs.Shape.{IsShape};
ghost use Rattle.pg_word.specs.Psw.{IsPsw, bit_of, packed, packed_trap, power_on_psw, unpacked, window_len_of};

use super::bits::above;
use super::shape::Shape;

/// The cell in which a trap stores the program status word at entry.
pub const OLD_PSW_CELL: u32 = 0;

/// The cell whose word a trap loads as the program status word.
pub const NEW_PSW_CELL: u32 = 1;

/// The mode of the machine: supervisor or user.
#[derive(Clone, Copy, Debug, PartialEq, Eq)]
pub enum Mode {
    /// Supervisor: 0 in the word.
    S,
    /// User: 1 in the word.
    U,
}

/// A program status word: mode, instruction counter P, and the relocation-bounds register (l, b). Calls that are lent a
/// shape ask that P, l and b are below `2^a` (`IsPsw`), and what is unpacked has them so.
#[derive(Clone, Copy, Debug, PartialEq, Eq)]
pub struct Psw {
    /// The mode in which the next instruction is executed.
    pub mode: Mode,
    /// The address of the next instruction, relative to `l`; below `2^a`.
    pub p: u32,
    /// The relocation: the cell of address 0; below `2^a`, and maybe past the storage.
    pub l: u32,
    /// The bound, in cells: addresses from it on are not usable; below `2^a`, and maybe above the size of the storage.
    pub b: u32,
}

impl Psw {
    /// The program status word with which a machine of `size` cells is switched on: supervisor mode, P at 2, which is the
    /// first cell behind those of traps, and a window of all cells.
    pub fn power_on(size: u32) -> Psw
        ensures { result ≡ power_on_psw size }
    {
        Psw {
            mode: Mode::S,
            p: 2,
            l: 0,
            b: size,
        }
    }
}

/// The word of a program status word. The bits above the mode are 0.
pub fn pack(shape: &Shape, psw: Psw) -> u64
    requires shape { IsShape shape.now }
    requires fields { IsPsw shape.now.a psw }
    ensures word { result ≡ packed shape.now.a psw }
    ensures high { result < 2 ^ (3 * shape.now.a + 1) }
{
    let p = above(mode_bit(psw.mode), shape.a, u64::from(psw.p));
    let l = above(p, shape.a, u64::from(psw.l));
    above(l, shape.a, u64::from(psw.b))
}

/// What a trap stores: the word of the program status word at entry, and where causes are on the number of the cause above
/// the mode.
pub fn pack_trap(shape: &Shape, psw: Psw, cause: u8) -> u64
    requires shape { IsShape shape.now }
    requires fields { IsPsw shape.now.a psw }
    requires cause_least { 1 ≤ cause }
    requires cause_most { cause ≤ 3 }
    ensures word { result ≡ packed_trap shape.now psw cause }
    ensures fits { result < 2 ^ shape.now.w }
{
    let word = pack(shape, psw);
    if shape.causes {
        above(u64::from(cause), 3 * shape.a + 1, word)
    } else {
        word
    }
}

/// The program status word that a word holds; the bits above the mode are ignored.
pub fn unpack(shape: &Shape, word: u64) -> Psw
    requires shape { IsShape shape.now }
    ensures psw { result ≡ unpacked shape.now.a word }
    ensures fields { IsPsw shape.now.a result }
{
    let above_b = word >> shape.a;
    let above_l = above_b >> shape.a;
    let above_p = above_l >> shape.a;
    let mode = if above_p & 1 == 0 { Mode::S } else { Mode::U };
    Psw {
        mode,
        p: low_bits(above_l, shape.a),
        l: low_bits(above_b, shape.a),
        b: low_bits(word, shape.a),
    }
}

/// How many cells the window of a program status word has in a storage of `size` cells.
pub fn window_len(psw: Psw, size: u32) -> u32
    ensures { result ≡ window_len_of psw size }
{
    psw.b.min(size.saturating_sub(psw.l))
}

/// The mode as a bit.
fn mode_bit(mode: Mode) -> u64
    ensures { result ≡ bit_of mode }
{
    match mode {
        Mode::S => 0,
        Mode::U => 1,
    }
}

/// The lowest `a` bits, at most 20.
fn low_bits(word: u64, a: u32) -> u32
    requires { a ≤ 20 }
    ensures { result ≡ word % 2 ^ a }
{
    (word & ((1 << a) - 1)) as u32
}
