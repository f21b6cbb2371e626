//! Images: the words that a storage begins with, read from text.
//!
//! `pg_tool` calls `read_image` with the bytes of a file. The text is read three times, each time line by line: for bytes
//! that may not stand where they do, for lines of another form (`scan`), and to put the words (`placing`). So the first
//! fault is told in that order, wherever it stands. The time grows with the bytes, and with the size once; memory is taken
//! for the image, and for a flag a cell, and only once the text is known to have the form of an image.

ghost use Rattle.std.specs.Prelude.{◌≡◌, ◌<◌, ◌≤◌, ◌^◌, length, vec_len, replicate, false, All, IfOk};
ghost use Rattle.pg_word.specs.Shape.{IsShape};
ghost use Rattle.pg_image.specs.Images.{IsImageDue, image_due};

use crate::fault::ImageFault;
use crate::placing::place_all;
use crate::scan::{foreign_place, other_line};
use pg_word::Shape;
use sqlite_items::Items;
use std::alloc::{AllocError, Global};

/// An image: the words of the cells of a storage, from cell 0 on.
pub type Image = Items<u64>;

/// The most bytes that an image's text may have: with one more it is `Long`.
pub const IMAGE_BYTES: usize = 33_554_432;

/// So many cells, all zero.
fn zeros(alloc: Global, size: usize) -> Result<Vec<u64>, AllocError>
    ensures items { IfOk result (λ cells. cells.items ≡ replicate size 0) }
    ensures len { IfOk result (λ cells. vec_len cells ≡ size) }
{
    vec![in alloc; 0u64; size]
}

/// The flags of so many cells, of which none is given.
fn none_given(alloc: Global, size: usize) -> Result<Vec<bool>, AllocError>
    ensures items { IfOk result (λ given. given.items ≡ replicate size false) }
    ensures len { IfOk result (λ given. vec_len given ≡ size) }
{
    vec![in alloc; false; size]
}

/// The image of a text, for words of a shape and a storage of so many cells.
///
/// `Ok` is exactly the text's image: as many words as the size, each of which fits. A refusal is the text's first fault in
/// the order `Long`, `Token`, `Grammar`, and then `Address` and `Overlap` by lines. `Memory` comes where an allocation
/// fails, and says nothing of the text.
#[tactic(auto, unfolding(crate::specs::Images::image_due))]
pub fn read_image(
    alloc: Global,
    bytes: &[u8],
    shape: &Shape,
    size: u32,
) -> Result<Image, ImageFault>
    requires shape { IsShape shape.now }
    requires least { 2 ≤ size }
    requires most { size ≤ shape.now.q }
    ensures due { IsImageDue result (image_due shape.now.w size bytes.now) }

    // As many words as the size, each of which fits.
    ensures len { IfOk result (λ cells. length cells ≡ size) }
    ensures fit { IfOk result (λ cells. All (λ cell. cell < 2 ^ shape.now.w) cells) }
{
    if bytes.len() > IMAGE_BYTES {
        return Err(ImageFault::Long);
    }
    if let Some(place) = foreign_place(bytes) {
        return Err(ImageFault::Token(place));
    }
    if let Some(line) = other_line(shape.w, bytes) {
        return Err(ImageFault::Grammar(line));
    }
    let mut cells = zeros(alloc, size as usize)?;
    let mut given = none_given(alloc, size as usize)?;
    match place_all(shape.w, bytes, &mut cells, &mut given) {
        Some(fault) => Err(fault),
        None => Ok(Items::from_vec(cells)),
    }
}
