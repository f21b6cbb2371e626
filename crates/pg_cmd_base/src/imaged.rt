//! Bytes to images.
//!
//! `load_image` calls `image_of` with the bytes of a file. A fault of the text becomes the line that tells of it, each the
//! one of its name. Lack of memory is no fault of the text, and has no line.

ghost use Rattle.std.specs.Prelude.{◌≡◌, ◌≤◌, ◌<◌, ◌^◌, length, All, IfOk, IfErr, IfSome, Ok, Err};
ghost use Rattle.pg_word.specs.Shape.{IsShape};
ghost use Rattle.pg_cmd_base.specs.Images.{BytesDue, told_of_image};

use pg_image::{Image, ImageFault, read_image};
use pg_report::ImageLine;
use pg_word::Shape;
use std::alloc::Global;

/// The image of the bytes for `size` cells, or why they are none; `None` where memory was refused.
pub(crate) fn image_of(
    alloc: Global,
    bytes: &[u8],
    shape: &Shape,
    size: u32,
) -> Result<Image, Option<ImageLine>>
    requires shape { IsShape shape.now }
    requires least { 2 ≤ size }
    requires most { size ≤ shape.now.q }
    ensures ok { IfOk result (λ image. BytesDue shape.now.w size bytes.now (Ok image)) }
    ensures refused { IfErr result (λ told. IfSome told (λ line. BytesDue shape.now.w size bytes.now (Err line))) }
    ensures size { IfOk result (λ image. length image ≡ size) }
    ensures words { IfOk result (λ image. All (λ word. word < 2 ^ shape.now.w) image) }
{
    match read_image(alloc, bytes, shape, size) {
        Ok(image) => Ok(image),
        Err(fault) => Err(told_of_image(fault)),
    }
}

/// What is told of bytes that are no image; nothing of memory that was refused.
fn told_of_image(fault: ImageFault) -> Option<ImageLine>
    ensures { result ≡ told_of_image fault }
{
    match fault {
        ImageFault::Long => Some(ImageLine::Long),
        ImageFault::Token(place) => Some(ImageLine::Token(place)),
        ImageFault::Grammar(line) => Some(ImageLine::Grammar(line)),
        ImageFault::Address(line) => Some(ImageLine::Address(line)),
        ImageFault::Overlap(line) => Some(ImageLine::Overlap(line)),
        ImageFault::Memory => None,
    }
}
