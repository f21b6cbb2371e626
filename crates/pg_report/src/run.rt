//! The lines around the states of guests.
//!
//! The text of a run has, for each guest in the order of their numbers, the line of `put_guest` and then its state, by
//! `put_state`; and behind all of them the line of `put_steps`. `pg_run_guests` makes these calls, and `run_text` in
//! `specs/Runs.antt` is what they put together. Each line is made whole before it is put.

ghost use Rattle.std.specs.Prelude.{◌≡◌};
ghost use Rattle.pg_edge.specs.Sink.{Puts};
ghost use Rattle.pg_report.specs.Runs.{guest_line, steps_line, total_line};

use crate::push::push_number;
use pg_edge::{Failed, Sink};
use pg_image::{Line, push};

/// Puts the line before the state of a guest, by its number from 0.
///
/// # Errors
/// `Failed` where not all of the line went through. A front of it may have.
pub fn put_guest<S: Sink>(out: &mut S, number: usize) -> Result<(), Failed>
    ensures { Puts (S.written out.old) (S.written out.new) (S.faults out.old) (S.faults out.new)
        (guest_line number) result }
{
    out.put(line_of_guest(number).as_slice())
}

/// Puts the last line of a run: the steps of all guests, and how many of them the hardware executed untrapped.
///
/// # Errors
/// `Failed` where not all of the line went through. A front of it may have.
pub fn put_steps<S: Sink>(out: &mut S, steps: u64, direct: u64) -> Result<(), Failed>
    ensures { Puts (S.written out.old) (S.written out.new) (S.faults out.old) (S.faults out.new)
        (steps_line steps direct) result }
{
    out.put(line_of_steps(steps, direct).as_slice())
}

/// Puts the line behind a run of a guest that went on: the steps that it has made in all.
///
/// # Errors
/// `Failed` where not all of the line went through. A front of it may have.
pub fn put_total<S: Sink>(out: &mut S, steps: u64) -> Result<(), Failed>
    ensures { Puts (S.written out.old) (S.written out.new) (S.faults out.old) (S.faults out.new)
        (total_line steps) result }
{
    out.put(line_of_total(steps).as_slice())
}

/// The line before the state of a guest.
#[tactic(auto, unfolding(crate::specs::Runs::guest_line))]
fn line_of_guest(number: usize) -> Line
    ensures { result.items ≡ guest_line number }
{
    let mut line = Line::new();
    push(&mut line, b"guest ");
    push_number(&mut line, number as u64);
    line.push(b'\n');
    line
}

/// The last line of a run.
#[tactic(auto, unfolding(crate::specs::Runs::steps_line))]
fn line_of_steps(steps: u64, direct: u64) -> Line
    ensures { result.items ≡ steps_line steps direct }
{
    let mut line = Line::new();
    push(&mut line, b"steps ");
    push_number(&mut line, steps);
    push(&mut line, b" direct ");
    push_number(&mut line, direct);
    line.push(b'\n');
    line
}

/// The line of all steps that a guest has made.
#[tactic(auto, unfolding(crate::specs::Runs::total_line))]
fn line_of_total(steps: u64) -> Line
    ensures { result.items ≡ total_line steps }
{
    let mut line = Line::new();
    push(&mut line, b"total ");
    push_number(&mut line, steps);
    line.push(b'\n');
    line
}
