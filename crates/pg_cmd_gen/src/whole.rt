//! A description and images of a number.

ghost use Rattle.std.specs.Prelude.{◌≡◌, ◌≤◌, All, length, IfOk};
ghost use Rattle.pg_lang_valid.specs.Valid.{IsValid};
ghost use Rattle.pg_cmd_gen.specs.Generated.{IsGenerated, most_instructions};
ghost use Rattle.pg_cmd_gen.specs.Images.{images_of, image_count, IsFilled};

use crate::draws::Draws;
use crate::instrs::desc;
use crate::programs::images;
use pg_ast::Desc;
use pg_image::Image;
use sqlite_items::Items;
use std::alloc::{AllocError, Global};

/// A description and the images of guests on its machine, all made of one number.
#[derive(Drop)]
pub struct Generated {
    /// The description, which is valid: words of 32 bits, addresses of 8, up to 128 cells.
    pub desc: Desc,
    /// Four images of 30 words.
    pub images: Items<Image>,
}

/// The description and the images of a number, with so many instructions, from 1 to 60. Time and memory are linear in the
/// count.
///
/// # Errors
/// Only for lack of memory.
pub fn generate(alloc: Global, number: u64, count: u32) -> Result<Generated, AllocError>
    requires least { 1 ≤ count }
    requires most { count ≤ most_instructions }
    ensures desc { IfOk result (λ g. IsGenerated number count g.desc) }
    ensures images { IfOk result (λ g. g.images ≡ images_of number count) }

    // The description is valid, and each image has the size and the words of its machine.
    ensures valid { IfOk result (λ g. IsValid g.desc) }
    ensures four { IfOk result (λ g. length g.images ≡ image_count) }
    ensures filled { IfOk result (λ g. All IsFilled g.images) }
{
    let mut draws = Draws::new(number);
    let desc = desc(alloc, &mut draws, count)?;
    let images = images(alloc, &mut draws, count)?;
    Ok(Generated { desc, images })
}
