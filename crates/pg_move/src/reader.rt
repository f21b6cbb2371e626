//! How far a saved text has been read.
//!
//! Lines are taken in order. Each is read as a line of a certificate, of which a saved text has four: the size of the state,
//! its program status word, rows of its cells, and the last line. The first line and that of the steps are its own.

ghost use Rattle.std.specs.Prelude.{◌≡◌};
ghost use Rattle.pg_word.specs.Shape.{IsShape};
ghost use Rattle.pg_move.specs.Reading.{first_read, steps_read, after_own, with_size, with_psw, with_cells, with_end, after_form, after_saved_line, finished};
ghost use Rattle.pg_move.specs.Seen.{reader_of, IsNext, IsAnswer};

use crate::fault::SavedFault;
use crate::lines::{are_steps, first_line, is_version, number_of_steps};
use crate::saved::Saved;
use pg_cert::reading::is_same;
use pg_cert::{Line, LineFault, parse_line};
use pg_cert_drawn::{drawn, with_row};
use pg_word::{Psw, Shape, Sparse};
use std::alloc::Global;

/// What was read so far of a text.
#[derive(Drop)]
pub(crate) enum Reader {
    /// Nothing.
    Fresh,
    /// The first line.
    Begun,
    /// How many steps were made.
    Counted(u32),
    /// That, and the size of the state.
    Sized(u32, u32),
    /// A state, of which rows may follow.
    Drawing(u32, Sparse),
    /// All.
    Over(u32, Sparse),
}

/// The first line, or why these bytes are none.
fn read_first(alloc: Global, line: u32, bytes: &[u8]) -> Result<Reader, SavedFault>
    ensures { IsNext (first_read line bytes.now) result }
{
    if is_same(bytes, first_line()) {
        return Ok(Reader::Begun);
    }
    match is_version(alloc, bytes) {
        Err(_) => Err(SavedFault::Memory),
        Ok(true) => Err(SavedFault::Version(line)),
        Ok(false) => Err(SavedFault::Grammar(line)),
    }
}

/// The line of the steps, or why these bytes are none.
fn read_steps(line: u32, bytes: &[u8]) -> Result<Reader, SavedFault>
    ensures { IsNext (steps_read line bytes.now) result }
{
    match number_of_steps(bytes) {
        None => Err(SavedFault::Grammar(line)),
        Some(steps) => {
            if are_steps(bytes, steps) {
                Ok(Reader::Counted(steps))
            } else {
                Err(SavedFault::Grammar(line))
            }
        }
    }
}

impl Reader {
    /// A line that no certificate has.
    #[tactic(auto, unfolding(crate::specs::Reading::after_own))]
    fn with_own(self, alloc: Global, line: u32, bytes: &[u8]) -> Result<Reader, SavedFault>
        ensures { IsNext (after_own line (reader_of self) bytes.now) result }
    {
        match self {
            Reader::Fresh => read_first(alloc, line, bytes),
            Reader::Begun => read_steps(line, bytes),
            Reader::Counted(_) => Err(SavedFault::Grammar(line)),
            Reader::Sized(_, _) => Err(SavedFault::Grammar(line)),
            Reader::Drawing(_, _) => Err(SavedFault::Grammar(line)),
            Reader::Over(_, _) => Err(SavedFault::Grammar(line)),
        }
    }

    /// The size of the state.
    fn with_size(self, line: u32, size: u32) -> Result<Reader, SavedFault>
        ensures { IsNext (with_size line size (reader_of self)) result }
    {
        match self {
            Reader::Counted(steps) => Ok(Reader::Sized(steps, size)),
            Reader::Fresh => Err(SavedFault::Grammar(line)),
            Reader::Begun => Err(SavedFault::Grammar(line)),
            Reader::Sized(_, _) => Err(SavedFault::Grammar(line)),
            Reader::Drawing(_, _) => Err(SavedFault::Grammar(line)),
            Reader::Over(_, _) => Err(SavedFault::Grammar(line)),
        }
    }

    /// Its program status word.
    fn with_psw(self, alloc: Global, line: u32, psw: Psw) -> Result<Reader, SavedFault>
        ensures { IsNext (with_psw line psw (reader_of self)) result }
    {
        match self {
            Reader::Sized(steps, size) => Ok(Reader::Drawing(steps, drawn(alloc, size, psw))),
            Reader::Fresh => Err(SavedFault::Grammar(line)),
            Reader::Begun => Err(SavedFault::Grammar(line)),
            Reader::Counted(_) => Err(SavedFault::Grammar(line)),
            Reader::Drawing(_, _) => Err(SavedFault::Grammar(line)),
            Reader::Over(_, _) => Err(SavedFault::Grammar(line)),
        }
    }

    /// A row of its cells. `Memory` where memory ran out.
    fn with_cells(self, line: u32, first: u32, words: &[u64]) -> Result<Reader, SavedFault>
        ensures { IsNext (with_cells line first words.now (reader_of self)) result }
    {
        match self {
            Reader::Drawing(steps, state) => match with_row(state, first, words) {
                Err(_) => Err(SavedFault::Memory),
                Ok(None) => Err(SavedFault::Grammar(line)),
                Ok(Some(state)) => Ok(Reader::Drawing(steps, state)),
            },
            Reader::Fresh => Err(SavedFault::Grammar(line)),
            Reader::Begun => Err(SavedFault::Grammar(line)),
            Reader::Counted(_) => Err(SavedFault::Grammar(line)),
            Reader::Sized(_, _) => Err(SavedFault::Grammar(line)),
            Reader::Over(_, _) => Err(SavedFault::Grammar(line)),
        }
    }

    /// The last line.
    fn with_end(self, line: u32) -> Result<Reader, SavedFault>
        ensures { IsNext (with_end line (reader_of self)) result }
    {
        match self {
            Reader::Drawing(steps, state) => Ok(Reader::Over(steps, state)),
            Reader::Fresh => Err(SavedFault::Grammar(line)),
            Reader::Begun => Err(SavedFault::Grammar(line)),
            Reader::Counted(_) => Err(SavedFault::Grammar(line)),
            Reader::Sized(_, _) => Err(SavedFault::Grammar(line)),
            Reader::Over(_, _) => Err(SavedFault::Grammar(line)),
        }
    }

    /// A line, by what it says.
    #[tactic(auto, unfolding(crate::specs::Reading::after_form))]
    fn with_form(self, alloc: Global, line: u32, form: &Line) -> Result<Reader, SavedFault>
        ensures { IsNext (after_form line (reader_of self) form.now) result }
    {
        match form {
            Line::Size(size) => self.with_size(line, *size),
            Line::Psw(psw) => self.with_psw(alloc, line, *psw),
            Line::Cells(first, words) => self.with_cells(line, *first, words.as_slice()),
            Line::End => self.with_end(line),
            Line::First(_) => Err(SavedFault::Grammar(line)),
            Line::Header(_, _, _) => Err(SavedFault::Grammar(line)),
            Line::Step(_) => Err(SavedFault::Grammar(line)),
            Line::Remove(_) => Err(SavedFault::Grammar(line)),
        }
    }

    /// The line of this number, of these bytes, its LF among them: what it leaves of how far the text was read, or why it
    /// refuses the text, of which nothing more is read then. It costs the length of the line.
    #[tactic(auto, unfolding(crate::specs::Reading::after_saved_line, crate::specs::Reading::after_said))]
    pub(crate) fn with_line(
        self,
        alloc: Global,
        shape: &Shape,
        line: u32,
        bytes: &[u8],
    ) -> Result<Reader, SavedFault>
        requires { IsShape shape.now }
        ensures { IsNext (after_saved_line shape.now line (reader_of self) bytes.now) result }
    {
        match parse_line(alloc, shape, bytes) {
            Ok(form) => self.with_form(alloc, line, &form),
            Err(LineFault::Token) => Err(SavedFault::Token(line)),
            Err(LineFault::Grammar) => self.with_own(alloc, line, bytes),
            Err(LineFault::Version(_)) => self.with_own(alloc, line, bytes),
            Err(LineFault::Memory) => Err(SavedFault::Memory),
        }
    }

    /// No line comes any more: what the text says, or that the line of this number is missing.
    pub(crate) fn finish(self, line: u32) -> Result<Saved, SavedFault>
        ensures { IsAnswer (finished line (reader_of self)) result }
    {
        match self {
            Reader::Over(steps, state) => Ok(Saved { steps, state }),
            Reader::Fresh => Err(SavedFault::Grammar(line)),
            Reader::Begun => Err(SavedFault::Grammar(line)),
            Reader::Counted(_) => Err(SavedFault::Grammar(line)),
            Reader::Sized(_, _) => Err(SavedFault::Grammar(line)),
            Reader::Drawing(_, _) => Err(SavedFault::Grammar(line)),
        }
    }
}
