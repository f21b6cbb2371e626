//! The window of a hardware, as the interpreter reads it.

use pg_hw::Hardware;
use pg_interp::Cells;
use pg_word::window_len;

/// The cells that a hardware's program status word makes usable: each is peeked when it is read.
pub(crate) struct Window<'h, H: Hardware> {
    pub(crate) hw: &'h H,
}

impl<'h, H: Hardware> Drop for Window<'h, H> {
    fn drop(self) {
        let Window { hw: _ } = self;
    }
}

impl<'h, H: Hardware> Cells for Window<'h, H> {
    ghost use Rattle.pg_lang_meaning.specs.States.{window};

    ghost window = { λ w. window (H.machinery w.hw.now).state };

    fn cell(&self, a: u32) -> Option<u64> {
        let psw = self.hw.psw();
        if a < window_len(psw, self.hw.size()) {
            Some(self.hw.peek(psw.l + a))
        } else {
            None
        }
    }
}
