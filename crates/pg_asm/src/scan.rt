//! Whether each byte of a source may stand where it does.
//!
//! One reading of the whole text, since a byte that may not stand there comes before anything else that may be wrong.

ghost use Rattle.std.specs.Prelude.{◌≡◌, ◌<◌, ◌≤◌, length, not, position, IfSome};
ghost use Rattle.pg_image.specs.Images.{content, lines_of};
ghost use Rattle.pg_asm.specs.Sources.{most_source_bytes, may_stand, foreign_place};

use pg_image::{content, is_gap, split_line};
use pg_lang_token::is_word_byte;

/// What may stand in a line outside its comment.
fn may_stand(byte: u8) -> bool
    ensures { result ≡ may_stand byte }
{
    is_word_byte(byte) || byte == b'=' || byte == b':' || byte == b'@' || is_gap(byte)
}

/// The place in a line of the first byte outside its comment that may not stand there.
fn foreign_in(line: &[u8]) -> Option<usize>
    ensures value { result ≡ position (λ c. not (may_stand c)) (content line.now) }
    ensures within { IfSome result (λ k. k < length line.now) }
{
    content(line).iter().position(|byte| !may_stand(*byte))
}

/// The place in a text of the first byte outside comments that may not stand there.
pub fn foreign_place(bytes: &[u8]) -> Option<usize>
    requires { length bytes.now ≤ most_source_bytes }
    ensures { result ≡ foreign_place 0 (lines_of bytes.now) }
{
    let mut place = 0usize;
    let mut left = Some(bytes);
    while let Some(text) = left {
        let (line, rest) = split_line(text);
        if let Some(k) = foreign_in(line) {
            return Some(place + k);
        }
        place += line.len() + 1;
        left = rest;
    }
    None
}
