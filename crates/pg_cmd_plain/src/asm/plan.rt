//! An image that was assembled, and its text, before any of it is put.

ghost use Rattle.std.specs.Prelude.{◌≡◌, ◌≤◌, ◌<◌, ◌^◌, length, All};
ghost use Rattle.pg_asm.specs.Texts.{asm_text};

use pg_image::Image;
use pg_mach_ready::Machine;

/// The text of an image, and the image of a machine's cells.
#[derive(Drop)]
pub(crate) struct AsmPlan {
    /// The machine, of which nothing is run.
    pub(crate) machine: Machine,
    /// The words of its cells.
    pub(crate) image: Image,
    /// What is put: the whole text.
    pub(crate) text: Vec<u8>,
    /// The machine has so many cells.
    pub(crate) ghost within: { length image ≤ machine.desc.size },
    /// The words are of the machine's width.
    pub(crate) ghost words: { All (λ word. word < 2 ^ machine.desc.word) image },
    /// It is the text of the image.
    pub(crate) ghost listed: { text.items ≡ asm_text machine.desc.word 0 image },
}
