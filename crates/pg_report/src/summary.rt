//! The lines of a summary.
//!
//! A summary has the line of `put_instructions`, the verdict's line by `put_outcome` of `verdict`, the line of `put_steps` of
//! `run`, and for each guest in the order of their numbers the line of `put_summary`. `summary_text` in
//! `specs/Summaries.antt` is what the last two put together. Each line is made whole before it is put; the longest is that
//! of a guest, which has at most 87 bytes.

ghost use Rattle.std.specs.Prelude.{◌≡◌, ◌+◌, ◌^◌, ◌<◌, ◌≤◌, length};
ghost use Rattle.pg_edge.specs.Sink.{Puts};
ghost use Rattle.pg_word.specs.Bits.{IsWidth};
ghost use Rattle.pg_word.specs.Shape.{IsShape};
ghost use Rattle.pg_report.specs.Spans.{span};
ghost use Rattle.pg_report.specs.Summaries.{instructions_line, sum_of, summary_line, without_end};

use crate::push::push_number;
use pg_edge::{Failed, Sink};
use pg_hw::Hardware;
use pg_image::{Line, psw_line, push};
use pg_text::hex_word;
use pg_word::bits::add;
use pg_word::{Psw, Shape};

/// Puts the line that says how many instructions a machine has.
///
/// # Errors
/// `Failed` where not all of the line went through. A front of it may have.
pub fn put_instructions<S: Sink>(out: &mut S, count: u32) -> Result<(), Failed>
    ensures { Puts (S.written out.old) (S.written out.new) (S.faults out.old) (S.faults out.new)
        (instructions_line count) result }
{
    out.put(line_of_instructions(count).as_slice())
}

/// Puts the line of a guest, by its number from 0: its program status word, and the sum of its cells, which are the `size`
/// cells of the hardware from `base` on, as a word of the machine. The cost is linear in the size.
///
/// # Errors
/// `Failed` where not all of the line went through. A front of it may have.
pub fn put_summary<S: Sink, H: Hardware>(
    out: &mut S,
    shape: &Shape,
    hw: &H,
    number: usize,
    base: u32,
    size: u32,
    psw: Psw,
) -> Result<(), Failed>
    requires shape { IsShape shape.now }
    requires within { base + size ≤ length (H.machinery hw.now).state.cells }
    ensures { Puts (S.written out.old) (S.written out.new) (S.faults out.old) (S.faults out.new)
        (summary_line shape.now.w number (span base size (H.machinery hw.now).state.cells) psw) result }
{
    out.put(line_of_summary(shape, hw, number, base, size, psw).as_slice())
}

/// The line that says how many instructions there are.
#[tactic(auto, unfolding(crate::specs::Summaries::instructions_line))]
fn line_of_instructions(count: u32) -> Line
    ensures { result.items ≡ instructions_line count }
{
    let mut line = Line::new();
    push(&mut line, b"instructions ");
    push_number(&mut line, u64::from(count));
    line.push(b'\n');
    line
}

/// The line of a guest.
#[tactic(auto, unfolding(crate::specs::Summaries::summary_line))]
fn line_of_summary<H: Hardware>(
    shape: &Shape,
    hw: &H,
    number: usize,
    base: u32,
    size: u32,
    psw: Psw,
) -> Line
    requires shape { IsShape shape.now }
    requires within { base + size ≤ length (H.machinery hw.now).state.cells }
    ensures { result.items ≡ summary_line shape.now.w number (span base size (H.machinery hw.now).state.cells) psw }
{
    let sum = sum_of(shape.w, hw, base, size);
    let mut line = Line::new();
    push(&mut line, b"guest ");
    push_number(&mut line, number as u64);
    push(&mut line, b" ");
    push(&mut line, without_end(psw_line(psw).as_slice()));
    push(&mut line, b" sum ");
    push(&mut line, hex_word(shape.w, sum).as_slice());
    line.push(b'\n');
    line
}

/// A line without its LF.
fn without_end(line: &[u8]) -> &[u8]
    ensures line { result.now ≡ without_end line.now }
    ensures len { length result.now ≤ length line.now }
{
    &line[..line.len().saturating_sub(1)]
}

/// The sum of the `size` cells of the hardware from `base` on, modulo `2^w`.
fn sum_of<H: Hardware>(w: u32, hw: &H, base: u32, size: u32) -> u64
    requires width { IsWidth w }
    requires within { base + size ≤ length (H.machinery hw.now).state.cells }
    ensures sum { result ≡ sum_of w (span base size (H.machinery hw.now).state.cells) }
    ensures fits { result < 2 ^ w }
{
    // A hardware's size is a `u32`, and so each address below is one.
    let held = hw.size();
    prove!(base <= held && size <= held - base);
    let mut sum = 0;
    for i in 0..size {
        let word = hw.peek(base + i);
        sum = add(w, sum, word);
    }
    sum
}
