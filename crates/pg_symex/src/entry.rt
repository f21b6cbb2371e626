//! What a body reads at its entry.

ghost use Rattle.std.specs.Prelude.{◌≡◌};
ghost use Rattle.pg_lang_meaning.specs.Decoders.{decoder_of};

use crate::regs::Regs;
use pg_lang_meaning::Decoder;
use pg_vec::Bits;

/// The widths of words and addresses, the registers at entry, the pattern, its decoder, and the word that was fetched.
#[derive(Clone, Copy)]
pub struct Entry<'m> {
    pub w: u32,
    pub a: u32,
    pub regs: &'m Regs,
    pub pattern: &'m [u8],
    pub decoder: &'m Decoder,
    pub word: &'m Bits,
    pub ghost decoder_is: { decoder.now ≡ decoder_of pattern.now },
}
