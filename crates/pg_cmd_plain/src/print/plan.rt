//! A description and its text, before any of it is put.

ghost use Rattle.std.specs.Prelude.{◌≡◌};
ghost use Rattle.pg_lang_print.specs.Layout.{printed};

use pg_mach_ready::Machine;

/// The text of a description, and the description as a machine.
#[derive(Drop)]
pub(crate) struct PrintPlan {
    /// The machine, of which nothing is run.
    pub(crate) machine: Machine,
    /// What is put: the whole text.
    pub(crate) text: Vec<u8>,
    /// It is the text of the machine's description.
    pub(crate) ghost printed: { text.items ≡ printed machine.desc },
}
