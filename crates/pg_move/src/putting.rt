//! The text of a guest, put where there is room for it.
//!
//! A vector that has the room takes no memory for what is put: so a guest that has run is saved without a chance of failing.

ghost use Rattle.std.specs.Prelude.{◌≡◌, ◌+◌, ◌*◌, ◌^◌, ◌<◌, ◌≤◌, ◌++◌, length, All, IsSomeAnd, slice_get, vec_len, vec_capacity};
ghost use Rattle.pg_word.specs.Shape.{IsShape};
ghost use Rattle.pg_lang_meaning.specs.States.{shape_of};
ghost use Rattle.pg_image.specs.Lines.{line_cells, line_count, line_words, lines_before, cells_shown, state_text};
ghost use Rattle.pg_report.specs.Spans.{span};
ghost use Rattle.pg_mon_control.specs.Current.{Holds};
ghost use Rattle.pg_mon_control.specs.Guests.{virtual, virtuals};
ghost use Rattle.pg_mon_control.specs.Standing.{Stands};
ghost use Rattle.pg_monitor.specs.Monitors.{desc_of};
ghost use Rattle.pg_move.specs.Texts.{end_text, most_steps, row_room, room_of, saved_text};

use crate::lines::{first_line, steps_line};
use pg_hw::Hardware;
use pg_image::{LINE_CELLS, psw_line, size_line};
use pg_mach_ready::Machine;
use pg_mon_control::Guest;
use pg_monitor::Monitor;
use pg_report::row_line;
use pg_word::Shape;

/// How many cells a row has, to reckon addresses with.
const ROW_CELLS: u32 = LINE_CELLS as u32;

/// Puts bytes for which there is room.
fn put(bytes: &[u8], into: &mut Vec<u8>)
    requires room { vec_len into.old + length bytes.now ≤ vec_capacity into.old }
    ensures items { into.new.items ≡ into.old.items ++ bytes.now }
    ensures len { vec_len into.new ≡ vec_len into.old + length bytes.now }
    ensures capacity { vec_capacity into.old ≤ vec_capacity into.new }
{
    let _ = into.extend_from_slice(bytes);
}

/// Puts the row of cells of this number, of the `size` cells of the hardware from `base` on, unless all of them are zero.
fn put_row<H: Hardware>(shape: &Shape, hw: &H, base: u32, size: u32, k: u32, into: &mut Vec<u8>)
    requires shape { IsShape shape.now }
    requires within { base + size ≤ length (H.machinery hw.now).state.cells }
    requires addressable { base + size < 2 ^ 32 }
    requires some { line_cells * k < size }
    requires fit { All (λ word. word < 2 ^ shape.now.w) (span base size (H.machinery hw.now).state.cells) }
    requires room { vec_len into.old + row_room shape.now.w ≤ vec_capacity into.old }
    ensures items { into.new.items ≡ into.old.items ++ cells_shown shape.now.w (line_cells * k) (line_words k (span base size (H.machinery hw.now).state.cells)) }
    ensures len { vec_len into.new ≤ vec_len into.old + row_room shape.now.w }
    ensures capacity { vec_capacity into.old ≤ vec_capacity into.new }
{
    match row_line(shape, hw, base, size, k) {
        None => {}
        Some(line) => put(line.as_slice(), into),
    }
}

/// Puts the rows of cells.
fn put_rows<H: Hardware>(shape: &Shape, hw: &H, base: u32, size: u32, into: &mut Vec<u8>)
    requires shape { IsShape shape.now }
    requires within { base + size ≤ length (H.machinery hw.now).state.cells }
    requires fit { All (λ word. word < 2 ^ shape.now.w) (span base size (H.machinery hw.now).state.cells) }
    requires room { vec_len into.old + row_room shape.now.w * line_count size ≤ vec_capacity into.old }
    ensures items { into.new.items ≡ into.old.items ++ lines_before shape.now.w (line_count size) (span base size (H.machinery hw.now).state.cells) }
    ensures len { vec_len into.new ≤ vec_len into.old + row_room shape.now.w * line_count size }
    ensures capacity { vec_capacity into.old ≤ vec_capacity into.new }
{
    // A hardware's size is a `u32`, and so each address below is one.
    let held = hw.size();
    prove!(base <= held && size <= held - base);
    for k in 0..size.div_ceil(ROW_CELLS) {
        put_row(shape, hw, base, size, k, into);
    }
}

/// Puts the text of the state at which a guest stands.
fn put_state<H: Hardware>(m: &Machine, hw: &H, guest: Guest, into: &mut Vec<u8>)
    requires holds { Holds m.now.desc (H.machinery hw.now).state guest }
    requires room { vec_len into.old + (55 + row_room m.now.desc.word * line_count guest.size) ≤ vec_capacity into.old }
    ensures items { into.new.items ≡ into.old.items ++ state_text m.now.desc.word (virtual (H.machinery hw.now).state.cells guest).cells guest.psw }
    ensures len { vec_len into.new ≤ vec_len into.old + (55 + row_room m.now.desc.word * line_count guest.size) }
    ensures capacity { vec_capacity into.old ≤ vec_capacity into.new }
{
    put(size_line(guest.size).as_slice(), into);
    put(psw_line(guest.psw).as_slice(), into);
    put_rows(m.shape(), hw, guest.base, guest.size, into);
}

/// Puts the text of what `capture` saves of the guest of a number, behind what stands there. There is room for it, so no memory
/// is taken and nothing is refused.
///
/// Nothing else changes. It is one peek for each of the guest's cells.
pub fn put_saved<H: Hardware>(
    monitor: &Monitor<'_>,
    hw: &H,
    k: usize,
    steps: u32,
    into: &mut Vec<u8>,
)
    requires stands { Stands (desc_of monitor.now) (H.machinery hw.now).state monitor.now.guests monitor.now.current }
    requires known { k < length monitor.now.guests }
    requires steps { steps ≤ most_steps }
    requires room { IsSomeAnd (slice_get monitor.now.guests k) (λ g. vec_len into.old + room_of (shape_of (desc_of monitor.now)) g.size ≤ vec_capacity into.old) }
    ensures text { IsSomeAnd (slice_get (virtuals (H.machinery hw.now).state.cells monitor.now.guests) k)
        (λ s. into.new.items ≡ into.old.items ++ saved_text (shape_of (desc_of monitor.now)) steps s) }
{
    let guest = monitor.guest(k);
    put(first_line(), into);
    put(steps_line(steps).as_slice(), into);
    put_state(monitor.machine(), hw, guest, into);
    put(b"end\n", into);
}
