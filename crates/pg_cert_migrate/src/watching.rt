//! Who is told how far a text has been verified.

/// Is told how many bytes of a text have been verified. It answers nothing, and nothing is lent to it that the certificate is made of,
/// so that this is the same whoever watches.
pub trait ReadWatcher {
    /// So many bytes of all were verified.
    fn reads(&mut self, done: usize, all: usize);
}

/// Says nothing of it.
#[derive(Clone, Copy, Debug)]
pub struct Unwatched;

impl ReadWatcher for Unwatched {
    fn reads(&mut self, _done: usize, _all: usize) {}
}
