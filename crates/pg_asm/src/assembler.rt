//! The assembler: a source, read into an image.
//!
//! The text is read three times, each time line by line: for bytes that may not stand where they do (`scan`), for the forms of
//! lines and their labels (`gather`), and to put the words (`place`). So the first fault is told in that order, wherever it
//! stands. The time grows with the bytes, and with the size once; memory is taken for the labels and the cells.

ghost use Rattle.std.specs.Prelude.{◌≡◌, ◌≤◌, ◌<◌, ◌^◌, ◌+◌, length, vec_len, replicate, None, All, IfOk};
ghost use Rattle.pg_asm.specs.Sources.{none_given, filled, IsSourceDue, source_due};
ghost use Rattle.pg_asm.specs.Passes.{AreFit};

use crate::fault::AsmFault;
use crate::gather::labels_of;
use crate::place::place_all;
use crate::scan::foreign_place;
use pg_image::Image;
use pg_mach_ready::Machine;
use sqlite_items::Items;
use std::alloc::{AllocError, Global};

/// The most bytes that a source may have: with one more it is `Long`.
pub const SOURCE_BYTES: usize = 1_048_576;

/// So many cells, of which none is given.
fn none_given(alloc: Global, size: usize) -> Result<Vec<Option<u64>>, AllocError>
    ensures items { IfOk result (λ cells. cells.items ≡ none_given size) }
    ensures len { IfOk result (λ cells. vec_len cells ≡ size) }
{
    vec![in alloc; None; size]
}

/// The image of cells, of which those that are not given are zero.
fn filled(alloc: Global, cells: &[Option<u64>]) -> Result<Image, AllocError>
    ensures { IfOk result (λ image. image ≡ filled cells.now) }
{
    let mut words = Vec::with_capacity(alloc, cells.len())?;
    for cell in cells {
        words.push(cell.unwrap_or(0))?;
    }
    Ok(Items::from_vec(words))
}

/// The image of a source, for a machine and a storage of so many cells.
///
/// `Ok` is exactly the source's image: as many words as the size, each of which fits. A refusal is the source's first fault in
/// the order `Long`, `Token`, `Grammar`, and then of the first line at fault `Name`, `Field`, `Label`, `Range`, `Place`,
/// `Overlap`. `Memory` comes where an allocation fails, and says nothing of the source.
///
/// `size` is from 2 to the greatest size of the machine.
#[tactic(auto, unfolding(crate::specs::Sources::source_due))]
pub fn assemble(
    alloc: Global,
    machine: &Machine,
    bytes: &[u8],
    size: u32,
) -> Result<Image, AsmFault>
    requires least { 2 ≤ size }
    requires most { size ≤ machine.now.desc.size }
    ensures due { IsSourceDue result (source_due machine.now.desc size bytes.now) }

    // As many words as the size, each of which fits.
    ensures len { IfOk result (λ cells. length cells ≡ size) }
    ensures fit { IfOk result (λ cells. All (λ cell. cell < 2 ^ machine.now.desc.word) cells) }
{
    if bytes.len() > SOURCE_BYTES {
        return Err(AsmFault::Long);
    }
    if let Some(place) = foreign_place(bytes) {
        return Err(AsmFault::Token(place));
    }
    let labels = match labels_of(alloc, machine.shape().w, bytes) {
        Err(fault) => return Err(fault),
        Ok(labels) => labels,
    };
    let mut cells = none_given(alloc, size as usize)?;
    match place_all(machine, &labels, bytes, &mut cells) {
        Some(fault) => Err(fault),
        None => {
            let image = filled(alloc, &cells)?;
            Ok(image)
        }
    }
}
