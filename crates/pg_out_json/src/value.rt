//! Values, pushed at the end of a text.

use pg_mach_ready::Machine;
use pg_out_place::Text;
use pg_text::hex_word;

/// Pushes `true` or `false`.
pub fn push_flag(text: &mut Text, flag: bool) {
    text.push(if flag { b"true" } else { b"false" });
}

/// Pushes a word of the machine: a string of its hexadecimal digits.
pub fn push_word(text: &mut Text, m: &Machine, word: u64) {
    let digits = hex_word(64, word);
    let count = (m.shape().w / 4) as usize;
    text.push(b"\"");
    text.push(&digits.as_slice()[16 - count..]);
    text.push(b"\"");
}

/// Pushes a string of bytes that are UTF-8. Those that may not stand in one are escaped.
pub fn push_string(text: &mut Text, bytes: &[u8]) {
    text.push(b"\"");
    for byte in bytes {
        push_in_string(text, *byte);
    }
    text.push(b"\"");
}

/// Pushes a byte of a string.
pub(crate) fn push_in_string(text: &mut Text, byte: u8) {
    match byte {
        b'"' => text.push(b"\\\""),
        b'\\' => text.push(b"\\\\"),
        b'\n' => text.push(b"\\n"),
        0..=31 | 127 => {
            text.push(b"\\u00");
            text.push(&hex_word(64, u64::from(byte)).as_slice()[14..])
        }
        _ => text.push(&[byte]),
    }
}
