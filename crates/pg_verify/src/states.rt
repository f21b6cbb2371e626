//! Lines of the two states of a finding: sizes, program status words, and rows of cells.
//!
//! What a row makes of one state is `pg_cert_drawn`'s to know; here is which of the two it belongs to.

ghost use Rattle.std.specs.Prelude.{◌≡◌, ◌+◌, ◌≤◌, IfOk};
ghost use Rattle.pg_verify.specs.Taking.{with_size, with_psw, with_cells, after_state_line};
ghost use Rattle.pg_verify.specs.Seen.{pair_of, open_of, numbered, IsTold, IsPair, with_part, pair_told};

use crate::drawing::Drawing;
use crate::fault::VerifyFault;
use crate::opened::Opened;
use pg_cert_drawn::{drawn, with_row};
use pg_word::Psw;
use std::alloc::{AllocError, Global};
use std::mem;

/// A pair with the size of a state more, if it may stand there.
fn with_size(drawing: Drawing, size: u32) -> Option<Drawing>
    ensures { IsPair (with_size size (pair_of drawing)) result }
{
    match drawing {
        Drawing::NoState => Some(Drawing::FirstSize(size)),
        Drawing::FirstState(first) => Some(Drawing::SecondSize(first, size)),
        Drawing::FirstSize(_) => None,
        Drawing::SecondSize(_, _) => None,
        Drawing::BothStates(_, _) => None,
    }
}

/// A pair with the program status word of a state more, if it may stand there.
fn with_psw(alloc: Global, drawing: Drawing, psw: Psw) -> Option<Drawing>
    ensures { IsPair (with_psw psw (pair_of drawing)) result }
{
    match drawing {
        Drawing::FirstSize(size) => Some(Drawing::FirstState(drawn(alloc, size, psw))),
        Drawing::SecondSize(first, size) => {
            Some(Drawing::BothStates(first, drawn(alloc, size, psw)))
        }
        Drawing::NoState => None,
        Drawing::FirstState(_) => None,
        Drawing::BothStates(_, _) => None,
    }
}

/// A pair with a row more, if it may stand there.
fn with_cells(drawing: Drawing, first: u32, words: &[u64]) -> Result<Option<Drawing>, AllocError>
    ensures { IfOk result (λ next. IsPair (with_cells first words.now (pair_of drawing)) next) }
{
    match drawing {
        Drawing::FirstState(state) => match with_row(state, first, words)? {
            None => Ok(None),
            Some(state) => Ok(Some(Drawing::FirstState(state))),
        },
        Drawing::BothStates(state, second) => match with_row(second, first, words)? {
            None => Ok(None),
            Some(second) => Ok(Some(Drawing::BothStates(state, second))),
        },
        Drawing::NoState => Ok(None),
        Drawing::FirstSize(_) => Ok(None),
        Drawing::SecondSize(_, _) => Ok(None),
    }
}

/// What a line says of a state.
#[derive(Drop)]
pub enum StatePart<'a> {
    /// Its size.
    Size(u32),
    /// Its program status word.
    Psw(Psw),
    /// The words of a row, from this cell on.
    Cells(u32, &'a [u64]),
}

/// A pair with what a line says more, if it may stand there.
fn with_part(
    alloc: Global,
    drawing: Drawing,
    part: StatePart<'_>,
) -> Result<Option<Drawing>, AllocError>
    ensures { IfOk result (λ next. IsPair (with_part part.entry (pair_of drawing)) next) }
{
    match part {
        StatePart::Size(size) => Ok(with_size(drawing, size)),
        StatePart::Psw(psw) => Ok(with_psw(alloc, drawing, psw)),
        StatePart::Cells(first, words) => with_cells(drawing, first, words),
    }
}

/// The same of the pair that is open.
fn draw(
    alloc: Global,
    drawing: &mut Drawing,
    line: u32,
    part: StatePart<'_>,
) -> Result<(), VerifyFault>
    ensures { IsTold (pair_told line (with_part part.entry (pair_of drawing.old))) (pair_of drawing.new) result }
{
    let before = mem::replace(drawing, Drawing::NoState);
    match with_part(alloc, before, part) {
        Err(_) => Err(VerifyFault::Memory),
        Ok(None) => Err(VerifyFault::Grammar(line)),
        Ok(Some(next)) => {
            *drawing = next;
            Ok(())
        }
    }
}

/// A line of a state.
#[tactic(auto, unfolding(crate::specs::Taking::after_state_line))]
pub fn take_part(
    alloc: Global,
    opened: &mut Opened,
    line: u32,
    part: StatePart<'_>,
) -> Result<(), VerifyFault>
    ensures told { IsTold (after_state_line line (with_part part.entry) (open_of opened.old)) (open_of opened.new) result }
    ensures few { numbered (open_of opened.new) ≤ numbered (open_of opened.old) + 1 }
{
    match opened {
        Opened::Showing(_, drawing) => draw(alloc, drawing, line, part),
        Opened::Fresh => Err(VerifyFault::Grammar(line)),
        Opened::Between => Err(VerifyFault::Grammar(line)),
        Opened::Refuting(_, _) => Err(VerifyFault::Grammar(line)),
        Opened::Spending(_, _, _, _) => Err(VerifyFault::Grammar(line)),
        Opened::Ended => Err(VerifyFault::Grammar(line)),
    }
}
