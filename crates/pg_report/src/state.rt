//! The text of a state.
//!
//! A state is a run of a hardware's cells, and a program status word, which need not be the hardware's own: under a
//! monitor both are those of its guest. The text has a line for the size, one for the program status word, and one for
//! each `LINE_CELLS` cells that are not all zero. The cells are read a line at a time, so that a line is all that is held of them.

ghost use Rattle.std.specs.Prelude.{◌≡◌, ◌+◌, ◌*◌, ◌^◌, ◌<◌, ◌≤◌, [], length, ◌==◌, All, None, IfSome};
ghost use Rattle.std.specs.List.{list_all};
ghost use Rattle.arrayvec.specs.ArrayVec.{array_vec_len};
ghost use Rattle.pg_edge.specs.Sink.{Puts};
ghost use Rattle.pg_word.specs.Shape.{IsShape};
ghost use Rattle.pg_image.specs.Lines.{line_cells, state_text, lines_before, line_count, line_words, cells_shown};
ghost use Rattle.pg_report.specs.Spans.{span};

use arrayvec::ArrayVec;
use pg_edge::{Failed, Sink};
use pg_hw::Hardware;
use pg_image::{LINE_CELLS, Line, cell_line, psw_line, size_line};
use pg_word::{Psw, Shape};

/// How many cells a line shows, to reckon addresses with.
const CELLS: u32 = LINE_CELLS as u32;

/// Puts the text of a state: the `size` cells of the hardware from `base` on, and a program status word. The cost is
/// linear in the size.
///
/// # Errors
/// `Failed` where not all of the text went through. A front of it may have.
pub fn put_state<S: Sink, H: Hardware>(
    out: &mut S,
    shape: &Shape,
    hw: &H,
    base: u32,
    size: u32,
    psw: Psw,
) -> Result<(), Failed>
    requires shape { IsShape shape.now }
    requires within { base + size ≤ length (H.machinery hw.now).state.cells }
    requires fit { All (λ word. word < 2 ^ shape.now.w) (span base size (H.machinery hw.now).state.cells) }
    ensures { Puts (S.written out.old) (S.written out.new) (S.faults out.old) (S.faults out.new)
        (state_text shape.now.w (span base size (H.machinery hw.now).state.cells) psw) result }
{
    out.put(size_line(size).as_slice())?;
    out.put(psw_line(psw).as_slice())?;
    put_lines(out, shape, hw, base, size)
}

/// Puts the lines of cells.
fn put_lines<S: Sink, H: Hardware>(
    out: &mut S,
    shape: &Shape,
    hw: &H,
    base: u32,
    size: u32,
) -> Result<(), Failed>
    requires shape { IsShape shape.now }
    requires within { base + size ≤ length (H.machinery hw.now).state.cells }
    requires fit { All (λ word. word < 2 ^ shape.now.w) (span base size (H.machinery hw.now).state.cells) }
    ensures { Puts (S.written out.old) (S.written out.new) (S.faults out.old) (S.faults out.new)
        (lines_before shape.now.w (line_count size) (span base size (H.machinery hw.now).state.cells)) result }
{
    // A hardware's size is a `u32`, and so each address below is one.
    let held = hw.size();
    prove!(base <= held && size <= held - base);
    for k in 0..size.div_ceil(CELLS) {
        put_line(out, shape, hw, base, size, k)?;
    }
    Ok(())
}

/// Puts the line of cells of this number, unless all of them are zero.
fn put_line<S: Sink, H: Hardware>(
    out: &mut S,
    shape: &Shape,
    hw: &H,
    base: u32,
    size: u32,
    k: u32,
) -> Result<(), Failed>
    requires shape { IsShape shape.now }
    requires within { base + size ≤ length (H.machinery hw.now).state.cells }
    requires addressable { base + size < 2 ^ 32 }
    requires some { line_cells * k < size }
    requires fit { All (λ word. word < 2 ^ shape.now.w) (span base size (H.machinery hw.now).state.cells) }
    ensures { Puts (S.written out.old) (S.written out.new) (S.faults out.old) (S.faults out.new)
        (cells_shown shape.now.w (line_cells * k) (line_words k (span base size (H.machinery hw.now).state.cells))) result }
{
    match row_line(shape, hw, base, size, k) {
        None => Ok(()),
        Some(line) => out.put(line.as_slice()),
    }
}

/// The line of cells of this number, of the `size` cells of the hardware from `base` on: `None` where all of them are zero.
pub fn row_line<H: Hardware>(shape: &Shape, hw: &H, base: u32, size: u32, k: u32) -> Option<Line>
    requires shape { IsShape shape.now }
    requires within { base + size ≤ length (H.machinery hw.now).state.cells }
    requires addressable { base + size < 2 ^ 32 }
    requires some { line_cells * k < size }
    requires fit { All (λ word. word < 2 ^ shape.now.w) (span base size (H.machinery hw.now).state.cells) }
    ensures none { result ≡ None → cells_shown shape.now.w (line_cells * k)
        (line_words k (span base size (H.machinery hw.now).state.cells)) ≡ [] }
    ensures text { IfSome result (λ line. line.items ≡ cells_shown shape.now.w (line_cells * k)
        (line_words k (span base size (H.machinery hw.now).state.cells))) }
    ensures len { IfSome result (λ line. array_vec_len line ≤ 12 + 17 * line_cells) }
{
    let row = words_of(hw, base, size, k);
    let words = row.as_slice();
    if are_zero(words) {
        return None;
    }
    Some(cell_line(shape, CELLS * k, words))
}

/// The words of the line of this number: `LINE_CELLS`, or what is left of the cells.
fn words_of<H: Hardware>(hw: &H, base: u32, size: u32, k: u32) -> ArrayVec<u64, LINE_CELLS>
    requires within { base + size ≤ length (H.machinery hw.now).state.cells }
    requires addressable { base + size < 2 ^ 32 }
    requires some { line_cells * k < size }
    ensures items { result.items ≡ line_words k (span base size (H.machinery hw.now).state.cells) }
    ensures some { 1 ≤ array_vec_len result }
    ensures most { array_vec_len result ≤ line_cells }
{
    let first = CELLS * k;
    words_at(hw, base + first, (size - first).min(CELLS))
}

/// Up to `LINE_CELLS` words of the hardware's cells, from cell `base` on.
fn words_at<H: Hardware>(hw: &H, base: u32, count: u32) -> ArrayVec<u64, LINE_CELLS>
    requires most { count ≤ line_cells }
    requires addressable { base + count < 2 ^ 32 }
    requires within { base + count ≤ length (H.machinery hw.now).state.cells }
    ensures items { result.items ≡ span base count (H.machinery hw.now).state.cells }
    ensures len { array_vec_len result ≡ count }
{
    let mut words = ArrayVec::new();
    for i in 0..count {
        words.push(hw.peek(base + i));
    }
    words
}

/// Whether all of these words are zero.
fn are_zero(words: &[u64]) -> bool
    ensures { result ≡ list_all (λ word. word == 0) words.now }
{
    words.iter().all(|word| *word == 0)
}
