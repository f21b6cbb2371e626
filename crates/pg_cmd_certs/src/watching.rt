//! Who is told of a verdict whose certificate could not be saved.

use crate::machine::JudgedMachine;

/// Is told of a verdict whose certificate could not be saved, so that the work that led to it is not lost with it. It changes
/// nothing of what the command leaves.
pub trait VerdictWatcher {
    /// The save failed. The machine, and what is kept of its certificate, are lent.
    fn unsaved(&mut self, judged: &JudgedMachine);
}
