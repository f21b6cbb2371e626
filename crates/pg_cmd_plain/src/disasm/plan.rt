//! An image and a source that gives it, before any of it is put.

ghost use Rattle.std.specs.Prelude.{◌≡◌, ◌≤◌, ◌<◌, ◌^◌, length, All};
ghost use Rattle.pg_asm.specs.Texts.{source_text};

use pg_image::Image;
use pg_mach_ready::Machine;

/// A source, and the image of a machine's cells that it gives.
#[derive(Drop)]
pub(crate) struct DisasmPlan {
    /// The machine, of which nothing is run.
    pub(crate) machine: Machine,
    /// The words of its cells.
    pub(crate) image: Image,
    /// What is put: the whole source.
    pub(crate) text: Vec<u8>,
    /// The machine has so many cells.
    pub(crate) ghost within: { length image ≤ machine.desc.size },
    /// The words are of the machine's width.
    pub(crate) ghost words: { All (λ word. word < 2 ^ machine.desc.word) image },
    /// It is the source that is due for the image.
    pub(crate) ghost said: { text.items ≡ source_text machine.desc 0 image },
}
