//! Files to machines and images.
//!
//! The whole of a file is loaded, within the limit of its kind, and `described` or `imaged` read the bytes, which are given
//! back here: machines and images own what they hold. That a file is too long is found by the shelf, and told like a fault of
//! its text; one that is not there, or could not be read, has a status of its own.

ghost use Rattle.std.specs.Prelude.{◌≡◌, ◌≤◌, ◌<◌, ◌^◌, length, All, IfOk};
ghost use Rattle.pg_word.specs.Shape.{IsShape};
ghost use Rattle.pg_cmd_base.specs.Descriptions.{DescDue};
ghost use Rattle.pg_cmd_base.specs.Images.{Fills, ImageDue, ImagesDue};
ghost use Rattle.pg_cmd_base.specs.Answering.{Comes, OnlyReads};

use crate::described::machine_of;
use crate::imaged::image_of;
use crate::loading::{load_file, stop_of};
use crate::refusal::{Refusal, Stop};
use pg_cli_table::FileName;
use pg_edge::Shelf;
use pg_image::{IMAGE_BYTES, Image};
use pg_mach_ready::Machine;
use pg_read::DESC_BYTES;
use pg_report::{DescriptionLine, ImageLine, RefusalLine};
use pg_word::Shape;
use sqlite_items::Items;
use std::alloc::Global;

/// The machine that a file describes, or why there is none.
pub fn load_machine<F: Shelf>(
    alloc: Global,
    name: &FileName,
    shelf: &mut F,
) -> Result<Machine, Stop>
    ensures comes { Comes (λ m. m.desc) (DescDue (F.files shelf.old) name.now) (F.reads shelf.old) (F.reads shelf.new) result }
    ensures reads { OnlyReads F.Shelf shelf.old shelf.new }
{
    let bytes = match load_file(alloc, name, DESC_BYTES as u64, shelf) {
        Ok(bytes) => bytes,
        Err(fault) => {
            return Err(stop_of(fault, RefusalLine::Description(DescriptionLine::Long)));
        }
    };
    match machine_of(alloc, &bytes) {
        Ok(machine) => Ok(machine),
        Err(None) => Err(Stop::Memory),
        Err(Some(line)) => Err(Stop::Refused(Refusal::Line(RefusalLine::Description(line)))),
    }
}

/// The image of a file, for `size` cells, or why there is none. `number`, from 0, is that of the image in a line that tells
/// why.
pub fn load_image<F: Shelf>(
    alloc: Global,
    number: usize,
    name: &FileName,
    shape: &Shape,
    size: u32,
    shelf: &mut F,
) -> Result<Image, Stop>
    requires shape { IsShape shape.now }
    requires least { 2 ≤ size }
    requires most { size ≤ shape.now.q }
    ensures comes { Comes (λ image. image) (ImageDue (F.files shelf.old) number name.now shape.now.w size) (F.reads shelf.old)
        (F.reads shelf.new) result }
    ensures size { IfOk result (λ image. length image ≡ size) }
    ensures words { IfOk result (λ image. All (λ word. word < 2 ^ shape.now.w) image) }
    ensures reads { OnlyReads F.Shelf shelf.old shelf.new }
{
    let bytes = match load_file(alloc, name, IMAGE_BYTES as u64, shelf) {
        Ok(bytes) => bytes,
        Err(fault) => {
            return Err(stop_of(fault, RefusalLine::Image(number, ImageLine::Long)));
        }
    };
    match image_of(alloc, &bytes, shape, size) {
        Ok(image) => Ok(image),
        Err(None) => Err(Stop::Memory),
        Err(Some(line)) => Err(Stop::Refused(Refusal::Line(RefusalLine::Image(number, line)))),
    }
}

/// The images of these files, in order, each for `size` cells, or why there are none.
pub fn load_images<F: Shelf>(
    alloc: Global,
    names: &[FileName],
    shape: &Shape,
    size: u32,
    shelf: &mut F,
) -> Result<Items<Image>, Stop>
    requires shape { IsShape shape.now }
    requires least { 2 ≤ size }
    requires most { size ≤ shape.now.q }
    ensures comes { Comes (λ images. images) (ImagesDue (F.files shelf.old) 0 names.now shape.now.w size) (F.reads shelf.old)
        (F.reads shelf.new) result }
    ensures count { IfOk result (λ images. length images ≡ length names.now) }
    ensures each { IfOk result (λ images. All (Fills shape.now.w size) images) }
    ensures reads { OnlyReads F.Shelf shelf.old shelf.new }
{
    let mut images = Items::new(alloc);
    for (number, name) in names.iter().enumerate() {
        let image = match load_image(alloc, number, name, shape, size, shelf) {
            Ok(image) => image,
            Err(stop) => return Err(stop),
        };
        match images.push(image) {
            Ok(()) => {}
            Err(_) => return Err(Stop::Memory),
        }
    }
    Ok(images)
}
