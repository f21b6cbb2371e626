//! Texts that are written.

ghost use Rattle.std.specs.Prelude.{◌≡◌, IfOk};
ghost use Rattle.pg_word.specs.Shape.{IsShape};
ghost use Rattle.pg_type.specs.Listed.{state_of};
ghost use Rattle.pg_move.specs.Texts.{IsSaved, saved_text, room_of};
ghost use Rattle.pg_move.specs.Seen.{guest_of};

use crate::lines::{first_line, steps_line};
use crate::saved::Saved;
use pg_cert::put::put_end;
use pg_cert::put_state;
use pg_image::LINE_CELLS;
use pg_word::Shape;
use std::alloc::{AllocError, Global};

/// The most bytes of the lines that are no rows of cells.
const OTHER_BYTES: usize = 86;

/// How many bytes are enough for the text of a state of so many cells, of a machine of a shape.
pub fn saved_room(shape: &Shape, size: u32) -> usize
    requires { IsShape shape.now }
    ensures { result ≡ room_of shape.now size }
{
    let row = 20 + 2 * shape.w as usize;
    OTHER_BYTES + row * (size as usize).div_ceil(LINE_CELLS)
}

/// The text of what is saved of a guest: its steps are `MOST_STEPS` at most, and its state is one of a machine of the shape.
///
/// It costs the length of the text.
pub fn write_saved(alloc: Global, shape: &Shape, saved: &Saved) -> Result<Vec<u8>, AllocError>
    requires shape { IsShape shape.now }
    requires saved { IsSaved shape.now (guest_of saved.now) }
    ensures { IfOk result (λ text. text.items ≡ saved_text shape.now saved.now.steps (state_of saved.now.state)) }
{
    let mut text = Vec::new(alloc);
    text.extend_from_slice(first_line())?;
    text.extend_from_slice(steps_line(saved.steps).as_slice())?;
    // For the proof alone: that the listed cells ascend.
    let _cells = saved.state.cells.as_slice();
    put_state(shape, &saved.state, &mut text)?;
    put_end(&mut text)?;
    Ok(text)
}
