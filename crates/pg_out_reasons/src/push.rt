//! Pieces of a line, pushed at the end of a text.

ghost use Rattle.std.specs.Prelude.{◌≤◌};

use pg_mach_ready::Machine;
use pg_out_place::Text;
use pg_text::hex_word;

/// Pushes a word of the machine, as hexadecimal digits.
pub(crate) fn push_word(text: &mut Text, m: &Machine, word: u64) {
    let digits = hex_word(64, word);
    let count = (m.shape().w / 4) as usize;
    text.push(&digits.as_slice()[16 - count..]);
}

/// Pushes the name of an instruction; nothing where there is none of this number.
pub(crate) fn push_name(text: &mut Text, m: &Machine, instr: usize) {
    if instr < m.count() {
        text.push(m.name(instr));
    }
}
