//! The window of a guest, where it lies in the storage of a hardware.

ghost use Rattle.std.specs.Prelude.{◌≡◌, ◌+◌, ◌<◌, ◌≤◌, ◌^◌, min, length};
ghost use Rattle.pg_word.specs.Psw.{window_len_of};

use pg_hw::Hardware;
use pg_interp::Cells;
use pg_word::{Psw, window_len};

/// A run of cells of a storage.
#[derive(Clone, Copy)]
pub(crate) struct Span {
    /// The number of its first cell.
    pub(crate) from: u32,
    /// How many cells it has.
    pub(crate) len: u32,
}

/// Where the window of a guest's program status word lies, in a grant of `size` cells from `base` on.
pub(crate) fn span_of(psw: Psw, base: u32, size: u32) -> Span
    requires { base + size < 2 ^ 32 }
    ensures from { result.from ≡ base + min psw.l size }
    ensures len { result.len ≡ window_len_of psw size }
{
    Span {
        from: base + psw.l.min(size),
        len: window_len(psw, size),
    }
}

/// The cells that a guest's instruction sees: each is peeked from the hardware when it is read.
pub(crate) struct Window<'h, H: Hardware> {
    pub(crate) hw: &'h H,
    pub(crate) span: Span,
    ghost within: { span.from + span.len ≤ length (H.machinery hw.now).state.cells },
    ghost addressable: { span.from + span.len < 2 ^ 32 },
}

impl<'h, H: Hardware> Drop for Window<'h, H> {
    fn drop(self) {
        let Window { hw: _, span: _ } = self;
    }
}

impl<'h, H: Hardware> Cells for Window<'h, H> {
    ghost use Rattle.std.specs.Prelude.{take, drop};

    ghost window = { λ w. take w.span.len (drop w.span.from (H.machinery w.hw.now).state.cells) };

    fn cell(&self, a: u32) -> Option<u64> {
        if a < self.span.len {
            Some(self.hw.peek(self.span.from + a))
        } else {
            None
        }
    }
}
