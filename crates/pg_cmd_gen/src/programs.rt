//! Images.

ghost use Rattle.std.specs.Prelude.{◌≡◌, ◌≤◌, ◌*◌, IfOk, OnOk};
ghost use Rattle.pg_cmd_gen.specs.Draws.{state_behind};
ghost use Rattle.pg_cmd_gen.specs.Generated.{most_instructions};
ghost use Rattle.pg_cmd_gen.specs.Images.{drawn_word, image_count, program_cells};
ghost use Rattle.pg_cmd_gen.specs.Drawing.{cells_from, images_from};

use crate::draws::Draws;
use pg_image::Image;
use pg_word::{Psw, Shape, pack};
use sqlite_items::Items;
use std::alloc::{AllocError, Global};

/// How many images there are.
const IMAGES: u32 = 4;

/// The cells of an image.
const CELLS: u32 = 30;

/// Those of them that hold a program: all but the first two.
const PROGRAM_CELLS: u32 = 28;

/// The addresses in a program are below this.
const ADDRESSES: u32 = 32;

/// The numbers of the machine.
const SHAPE: Shape = Shape {
    w: 32,
    a: 8,
    q: 128,
    causes: false,
};

/// A word of four draws: the number of an instruction's pattern, and three addresses.
fn word(draws: &mut Draws, count: u32) -> u64
    requires least { 1 ≤ count }
    requires most { count ≤ most_instructions }
    ensures word { result ≡ drawn_word draws.old.state count 0 }
    ensures draws { draws.new.state ≡ state_behind draws.old.state 4 }
{
    let pattern = 1 + draws.next() % count;
    let x = draws.next() % ADDRESSES;
    let y = draws.next() % ADDRESSES;
    let z = draws.next() % ADDRESSES;
    u64::from(pattern * 0x0100_0000 + x * 0x0001_0000 + y * 0x0100 + z)
}

/// An image: the two cells in front, and a program.
fn image(alloc: Global, draws: &mut Draws, count: u32) -> Result<Image, AllocError>
    requires least { 1 ≤ count }
    requires most { count ≤ most_instructions }
    ensures image { IfOk result (λ image. image ≡ cells_from draws.old.state count program_cells) }
    ensures draws { OnOk result (draws.new.state ≡ state_behind draws.old.state (4 * program_cells)) }
{
    let mut cells = Items::new(alloc);
    cells.push(0)?;
    cells.push(pack(&SHAPE, Psw::power_on(CELLS)))?;
    for _cell in 0..PROGRAM_CELLS {
        let word = word(draws, count);
        cells.push(word)?;
    }
    Ok(cells)
}

/// All images, one after another.
pub fn images(alloc: Global, draws: &mut Draws, count: u32) -> Result<Items<Image>, AllocError>
    requires least { 1 ≤ count }
    requires most { count ≤ most_instructions }
    ensures { IfOk result (λ images. images ≡ images_from draws.old.state count image_count) }
{
    let mut images = Items::new(alloc);
    for _image in 0..IMAGES {
        let image = image(alloc, draws, count)?;
        images.push(image)?;
    }
    Ok(images)
}
