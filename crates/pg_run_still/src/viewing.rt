//! What views show of a guest.
//!
//! Cells are read a line at a time, and bytes are put cell by cell, so that nothing here takes memory.

ghost use Rattle.std.specs.Prelude.{◌≡◌, ◌+◌, ◌*◌, ◌<◌, ◌≤◌, ◌^◌, [], ◌∷◌, ◌++◌, All, length};
ghost use Rattle.arrayvec.specs.ArrayVec.{array_vec_len};
ghost use Rattle.pg_edge.specs.Sink.{Puts};
ghost use Rattle.pg_word.specs.Shape.{IsShape};
ghost use Rattle.pg_image.specs.Lines.{line_cells, line_count, line_words};
ghost use Rattle.pg_report.specs.Spans.{span};
ghost use Rattle.pg_mon_control.specs.Guests.{virtual};
ghost use Rattle.pg_run_still.specs.Views.{AreViewsOf, bytes_of, end_of, low_bytes, rows_from, view_text, views_text};

use crate::view::{ByteCount, Span, View};
use arrayvec::ArrayVec;
use pg_edge::{Failed, Sink};
use pg_hw::Hardware;
use pg_image::{LINE_CELLS, cell_line};
use pg_mon_control::Guest;
use pg_word::Shape;

/// How many cells a line shows, to reckon addresses with.
const CELLS: u32 = LINE_CELLS as u32;

/// The most bytes of a cell.
const WORD_BYTES: usize = 8;

impl View {
    /// The address behind the last cell that is shown.
    pub fn end(&self) -> u32
        ensures { result ≡ end_of self.now }
    {
        match self {
            View::Cells(cells) => cells.to,
            View::Bytes(cells, _) => cells.to,
        }
    }
}

/// Cells of a guest, as the hardware holds them.
#[derive(Clone, Copy)]
struct Part {
    /// The hardware's address of the first.
    base: u32,
    /// The guest's address of the first.
    first: u32,
    /// How many there are.
    size: u32,
}

/// Puts what views show of a guest, one behind the other. The time grows with the cells that are shown.
///
/// # Errors
/// `Failed` where not all of the text went through. A front of it may have.
pub(crate) fn put_views<S: Sink, H: Hardware>(
    out: &mut S,
    shape: &Shape,
    views: &[View],
    guest: Guest,
    hw: &H,
) -> Result<(), Failed>
    requires shape { IsShape shape.now }
    requires within { guest.base + guest.size ≤ length (H.machinery hw.now).state.cells }
    requires words { All (λ cell. cell < 2 ^ shape.now.w) (virtual (H.machinery hw.now).state.cells guest).cells }
    requires views { AreViewsOf guest.size views.now }
    ensures { Puts (S.written out.old) (S.written out.new) (S.faults out.old) (S.faults out.new)
        (views_text shape.now.w views.now (virtual (H.machinery hw.now).state.cells guest)) result }
{
    for view in views {
        put_view(out, shape, *view, guest, hw)?;
    }
    Ok(())
}

/// Puts what a view shows of a guest.
fn put_view<S: Sink, H: Hardware>(
    out: &mut S,
    shape: &Shape,
    view: View,
    guest: Guest,
    hw: &H,
) -> Result<(), Failed>
    requires shape { IsShape shape.now }
    requires within { guest.base + guest.size ≤ length (H.machinery hw.now).state.cells }
    requires words { All (λ cell. cell < 2 ^ shape.now.w) (virtual (H.machinery hw.now).state.cells guest).cells }
    requires ends { end_of view ≤ guest.size }
    ensures { Puts (S.written out.old) (S.written out.new) (S.faults out.old) (S.faults out.new)
        (view_text shape.now.w view (virtual (H.machinery hw.now).state.cells guest)) result }
{
    match view {
        View::Cells(cells) => put_rows(out, shape, part_of(guest, cells, hw), hw),
        View::Bytes(cells, count) => put_bytes(out, part_of(guest, cells, hw), count, hw),
    }
}

/// The cells of a span of a guest.
fn part_of<H: Hardware>(guest: Guest, cells: Span, hw: &H) -> Part
    requires within { guest.base + guest.size ≤ length (H.machinery hw.now).state.cells }
    requires ends { cells.to ≤ guest.size }
    ensures base { result.base ≡ guest.base + cells.from }
    ensures first { result.first ≡ cells.from }
    ensures size { result.first + result.size ≡ cells.to }
{
    // A hardware's size is a `u32`, and so each address below is one.
    let held = hw.size();
    prove!(guest.base <= held && guest.size <= held - guest.base);
    Part {
        base: guest.base + cells.from,
        first: cells.from,
        size: cells.to - cells.from,
    }
}

/// Puts lines of cells.
fn put_rows<S: Sink, H: Hardware>(
    out: &mut S,
    shape: &Shape,
    part: Part,
    hw: &H,
) -> Result<(), Failed>
    requires shape { IsShape shape.now }
    requires within { part.base + part.size ≤ length (H.machinery hw.now).state.cells }
    requires before { part.first ≤ part.base }
    requires fit { All (λ word. word < 2 ^ shape.now.w) (span part.base part.size (H.machinery hw.now).state.cells) }
    ensures { Puts (S.written out.old) (S.written out.new) (S.faults out.old) (S.faults out.new)
        (rows_from shape.now.w part.first (line_count part.size) (span part.base part.size (H.machinery hw.now).state.cells)) result }
{
    let held = hw.size();
    prove!(part.base <= held && part.size <= held - part.base);
    for k in 0..part.size.div_ceil(CELLS) {
        let row = row_of(part, k, hw);
        out.put(cell_line(shape, part.first + CELLS * k, row.as_slice()).as_slice())?;
    }
    Ok(())
}

/// The words of the line of this number: `LINE_CELLS`, or what is left of the cells.
fn row_of<H: Hardware>(part: Part, k: u32, hw: &H) -> ArrayVec<u64, LINE_CELLS>
    requires within { part.base + part.size ≤ length (H.machinery hw.now).state.cells }
    requires addressable { part.base + part.size < 2 ^ 32 }
    requires some { line_cells * k < part.size }
    ensures items { result.items ≡ line_words k (span part.base part.size (H.machinery hw.now).state.cells) }
    ensures some { 1 ≤ array_vec_len result }
    ensures most { array_vec_len result ≤ line_cells }
{
    let first = CELLS * k;
    words_at(part.base + first, (part.size - first).min(CELLS), hw)
}

/// Up to `LINE_CELLS` words of the hardware's cells, from cell `base` on.
fn words_at<H: Hardware>(base: u32, count: u32, hw: &H) -> ArrayVec<u64, LINE_CELLS>
    requires most { count ≤ line_cells }
    requires addressable { base + count < 2 ^ 32 }
    requires within { base + count ≤ length (H.machinery hw.now).state.cells }
    ensures items { result.items ≡ span base count (H.machinery hw.now).state.cells }
    ensures len { array_vec_len result ≡ count }
{
    let mut words = ArrayVec::new();
    for i in 0..count {
        words.push(hw.peek(base + i));
    }
    words
}

/// Puts so many low bytes of each cell, and a line feed behind them.
fn put_bytes<S: Sink, H: Hardware>(
    out: &mut S,
    part: Part,
    count: ByteCount,
    hw: &H,
) -> Result<(), Failed>
    requires within { part.base + part.size ≤ length (H.machinery hw.now).state.cells }
    ensures { Puts (S.written out.old) (S.written out.new) (S.faults out.old) (S.faults out.new)
        (bytes_of count.count (span part.base part.size (H.machinery hw.now).state.cells) ++ 10 ∷ []) result }
{
    put_each(out, part, count, hw)?;
    out.put(b"\n")
}

/// Puts so many low bytes of each cell.
fn put_each<S: Sink, H: Hardware>(
    out: &mut S,
    part: Part,
    count: ByteCount,
    hw: &H,
) -> Result<(), Failed>
    requires within { part.base + part.size ≤ length (H.machinery hw.now).state.cells }
    ensures { Puts (S.written out.old) (S.written out.new) (S.faults out.old) (S.faults out.new)
        (bytes_of count.count (span part.base part.size (H.machinery hw.now).state.cells)) result }
{
    let held = hw.size();
    prove!(part.base <= held && part.size <= held - part.base);
    for i in 0..part.size {
        let word = hw.peek(part.base + i);
        out.put(low_bytes(word, count).as_slice())?;
    }
    Ok(())
}

/// So many low bytes of a word, the low one first.
fn low_bytes(word: u64, count: ByteCount) -> ArrayVec<u8, WORD_BYTES>
    ensures { result.items ≡ low_bytes count.count word }
{
    let mut bytes = ArrayVec::new();
    let mut rest = word;
    for _ in 0..count.count {
        bytes.push((rest % 256) as u8);
        rest /= 256;
    }
    bytes
}
