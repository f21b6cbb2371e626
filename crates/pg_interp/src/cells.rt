//! The cells that an instruction sees.

/// A window of cells, read by address.
pub trait Cells {
    ghost use Rattle.std.specs.Prelude.{◌≡◌, ℕ, List, slice_get};

    /// The cells of the window, from address 0 on.
    ghost window: { Self → List ℕ };

    /// The cell at an address; `None` where the window ends before it.
    fn cell(&self, a: u32) -> Option<u64>
        ensures { result ≡ slice_get (window self.now) a };
}
