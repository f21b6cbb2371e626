//! Who is told why a command goes no further.

use crate::refusal::Stop;

/// Is told why a command goes no further, before any of it is put. It changes nothing of what the command leaves.
pub trait StopWatcher {
    /// The command goes no further, for this reason.
    fn stops(&mut self, stop: &Stop);
}
