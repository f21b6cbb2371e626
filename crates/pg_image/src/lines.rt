//! The lines of a state text.
//!
//! A state is shown as lines of ASCII: its size, its program status word, and its cells, `LINE_CELLS` on a line. Each
//! function here writes one line, into a vector that lies in the value itself, so that it takes no memory and refuses
//! nothing. Which lines of cells are shown, and in what order the lines stand, is for the caller, `pg_report`; `state_text`
//! of the definitions says it. The longest line is one of eight cells of 64 bits: 12 bytes and 17 for each, 148 of
//! `LINE_BYTES`. Lines of other texts are pushed into the same buffer (`pg_report`).

ghost use Rattle.std.specs.Prelude.{◌≡◌, ◌+◌, ◌*◌, ◌/◌, ◌%◌, ◌^◌, ◌<◌, ◌≤◌, ◌++◌, ◌∷◌, length, All};
ghost use Rattle.std.specs.Fmt.{decimal};
ghost use Rattle.arrayvec.specs.ArrayVec.{array_vec_len};
ghost use Rattle.pg_word.specs.Shape.{IsShape};
ghost use Rattle.pg_text.specs.Printing.{hex_text};
ghost use Rattle.pg_image.specs.Lines.{most_line_bytes, line_cells, size_text, psw_text, mode_text, words_text, cells_text};

use arrayvec::ArrayVec;
use pg_text::{dec, hex_word};
use pg_word::{Mode, Psw, Shape};

/// The most bytes of a line, with its LF.
pub const LINE_BYTES: usize = 160;

/// How many cells a line shows.
pub const LINE_CELLS: usize = 8;

/// A line of text, with its LF.
pub type Line = ArrayVec<u8, LINE_BYTES>;

/// Pushes bytes at the end of a line that has room for them.
pub fn push(line: &mut Line, bytes: &[u8])
    requires { array_vec_len line.old + length bytes.now ≤ most_line_bytes }
    ensures items { line.new.items ≡ line.old.items ++ bytes.now }
    ensures len { array_vec_len line.new ≡ array_vec_len line.old + length bytes.now }
{
    for byte in bytes {
        line.push(*byte);
    }
}

/// Puts a number at the end of a line, as decimal digits.
fn put_dec(line: &mut Line, value: u32)
    requires { array_vec_len line.old + 10 ≤ most_line_bytes }
    ensures items { line.new.items ≡ line.old.items ++ decimal value }
    ensures len { array_vec_len line.new ≤ array_vec_len line.old + 10 }
{
    push(line, dec(u64::from(value)).as_slice());
}

/// Puts a space and a number at the end of a line.
fn put_field(line: &mut Line, value: u32)
    requires { array_vec_len line.old + 11 ≤ most_line_bytes }
    ensures items { line.new.items ≡ line.old.items ++ 32 ∷ decimal value }
    ensures len { array_vec_len line.new ≤ array_vec_len line.old + 11 }
{
    line.push(b' ');
    put_dec(line, value);
}

/// Puts a space and a word of `w` bits at the end of a line.
fn put_word(line: &mut Line, w: u32, word: u64)
    requires bytes { w % 8 ≡ 0 }
    requires least { 16 ≤ w }
    requires most { w ≤ 64 }
    requires fits { word < 2 ^ w }
    requires room { array_vec_len line.old + 17 ≤ most_line_bytes }
    ensures items { line.new.items ≡ line.old.items ++ 32 ∷ hex_text (w / 4) word }
    ensures len { array_vec_len line.new ≤ array_vec_len line.old + 17 }
{
    line.push(b' ');
    push(line, hex_word(w, word).as_slice());
}

/// The letter of a mode.
fn mode_letter(mode: Mode) -> &'static [u8; 1]
    ensures { result.now ≡ mode_text mode }
{
    match mode {
        Mode::S => b"s",
        Mode::U => b"u",
    }
}

/// The line that says the size of a storage: `size N`.
#[tactic(auto, unfolding(crate::specs::Lines::size_text))]
pub fn size_line(size: u32) -> Line
    ensures text { result.items ≡ size_text size }
    ensures len { array_vec_len result ≤ 16 }
{
    let mut line = Line::new();
    push(&mut line, b"size ");
    put_dec(&mut line, size);
    line.push(b'\n');
    line
}

/// The line that says a program status word: `psw M P L B`, with `s` or `u` for M.
#[tactic(auto, unfolding(crate::specs::Lines::psw_text))]
pub fn psw_line(psw: Psw) -> Line
    ensures text { result.items ≡ psw_text psw }
    ensures len { array_vec_len result ≤ 39 }
{
    let mut line = Line::new();
    push(&mut line, b"psw ");
    push(&mut line, mode_letter(psw.mode));
    put_field(&mut line, psw.p);
    put_field(&mut line, psw.l);
    put_field(&mut line, psw.b);
    line.push(b'\n');
    line
}

/// Puts words of `w` bits at the end of a line, a space before each.
#[tactic(auto, unfolding(crate::specs::Lines::words_text))]
fn put_words(line: &mut Line, w: u32, words: &[u64])
    requires bytes { w % 8 ≡ 0 }
    requires least { 16 ≤ w }
    requires most { w ≤ 64 }
    requires fit { All (λ word. word < 2 ^ w) words.now }
    requires room { array_vec_len line.old + 17 * length words.now ≤ most_line_bytes }
    ensures items { line.new.items ≡ line.old.items ++ words_text w words.now }
    ensures len { array_vec_len line.new ≤ array_vec_len line.old + 17 * length words.now }
{
    for word in words {
        put_word(line, w, *word);
    }
}

/// The line that shows up to `LINE_CELLS` cells, of which `first` is the number of the first: `K: ` and their words.
#[tactic(auto, unfolding(crate::specs::Lines::cells_text))]
pub fn cell_line(shape: &Shape, first: u32, words: &[u64]) -> Line
    requires shape { IsShape shape.now }
    requires some { 1 ≤ length words.now }
    requires most { length words.now ≤ line_cells }
    requires fit { All (λ word. word < 2 ^ shape.now.w) words.now }
    ensures text { result.items ≡ cells_text shape.now.w first words.now }
    ensures len { array_vec_len result ≤ 12 + 17 * length words.now }
{
    let mut line = Line::new();
    put_dec(&mut line, first);
    line.push(b':');
    put_words(&mut line, shape.w, words);
    line.push(b'\n');
    line
}
