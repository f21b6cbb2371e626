//! Images as text: a line for each cell that is not zero.
//!
//! Read as an image of as many cells, the text gives these cells again. It is the only memory that is taken.

ghost use Rattle.std.specs.Prelude.{◌≡◌, ◌≤◌, ◌<◌, ◌^◌, ◌++◌, length, All, OnOk, IfOk};
ghost use Rattle.pg_word.specs.Shape.{IsShape};
ghost use Rattle.pg_asm.specs.Texts.{cell_shown, asm_text};

use pg_image::{Image, cell_line};
use pg_mach_ready::Machine;
use pg_word::Shape;
use std::alloc::{AllocError, Global};

/// Puts the line of a cell, unless the cell is zero.
fn put_cell(text: &mut Vec<u8>, shape: &Shape, at: u32, cell: u64) -> Result<(), AllocError>
    requires shape { IsShape shape.now }
    requires fits { cell < 2 ^ shape.now.w }
    ensures { OnOk result (text.new.items ≡ text.old.items ++ cell_shown shape.now.w at cell) }
{
    if cell == 0 {
        return Ok(());
    }
    text.extend_from_slice(cell_line(shape, at, &[cell]).as_slice())
}

/// The text of an image: for each cell that is not zero, in order, the line `ADDR: WORD`.
///
/// The image has at most as many words as the greatest size of the machine, and each fits.
#[tactic(auto, unfolding(crate::specs::Texts::asm_text))]
pub fn listing(alloc: Global, machine: &Machine, image: &Image) -> Result<Vec<u8>, AllocError>
    requires most { length image.now ≤ machine.now.desc.size }
    requires fit { All (λ cell. cell < 2 ^ machine.now.desc.word) image.now }
    ensures { IfOk result (λ text. text.items ≡ asm_text machine.now.desc.word 0 image.now) }
{
    let shape = machine.shape();
    let mut text = Vec::new(alloc);
    for (at, cell) in image.as_slice().iter().enumerate() {
        put_cell(&mut text, shape, at as u32, *cell)?;
    }
    Ok(text)
}
