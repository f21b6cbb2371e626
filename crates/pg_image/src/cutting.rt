//! Lines and parts of lines.
//!
//! A text is cut into lines at each LF, and a line without its comment into parts at spaces, tabs and CRs. Each function
//! takes one piece off the front and hands out what is left, so that a whole text is read without memory of its own.

ghost use Rattle.std.specs.Prelude.{◌≡◌, ◌+◌, ◌<◌, ◌≤◌, [], ◌∷◌, ◌++◌, length, not, MatchOption, IfSome};
ghost use Rattle.std.specs.Option.{option_copied};
ghost use Rattle.std.specs.List.{prefix_len};
ghost use Rattle.pg_image.specs.Images.{content, is_gap, lines_of, parts_of, behind_gaps};
ghost use Rattle.pg_image.specs.Left.{lines_left, bytes_left};

use pg_text::len_before;

/// Whether a byte separates the parts of a line: space, tab or CR.
pub fn is_gap(byte: u8) -> bool
    ensures { result ≡ is_gap byte }
{
    byte == b' ' || byte == b'\t' || byte == b'\r'
}

/// How many bytes at the front separate parts.
fn gap_len(text: &[u8]) -> usize
    ensures len { result ≡ prefix_len is_gap text.now }
    ensures within { result ≤ length text.now }
{
    let mut n = 0;
    while n < text.len() && is_gap(text[n]) {
        n += 1;
    }
    n
}

/// How many bytes at the front do not separate parts.
fn part_len(text: &[u8]) -> usize
    ensures len { result ≡ prefix_len (λ c. not (is_gap c)) text.now }
    ensures within { result ≤ length text.now }
{
    let mut n = 0;
    while n < text.len() && !is_gap(text[n]) {
        n += 1;
    }
    n
}

/// A line without its comment, which begins at the first `#`.
pub fn content(line: &[u8]) -> &[u8]
    ensures { result.now ≡ content line.now }
{
    &line[..len_before(line, b'#')]
}

/// The first line of a text, without its LF, and the text behind that LF: `None` where the text has no LF, so that this line is its
/// last. It costs the length of the line.
pub fn split_line(text: &[u8]) -> (&[u8], Option<&[u8]>)
    ensures lines { lines_of text.now ≡ result.0.now ∷ lines_left (option_copied result.1) }
    ensures len { length result.0.now + bytes_left (option_copied result.1) ≡ length text.now }
{
    let len = len_before(text, b'\n');
    if len < text.len() {
        (&text[..len], Some(&text[len + 1..]))
    } else {
        (text, None)
    }
}

/// The first part of a line, which is not empty, and what stands right behind it. `None` where the line has no part. It costs
/// the length of the part and of the separators before it.
pub fn split_part(line: &[u8]) -> Option<(&[u8], &[u8])>
    ensures parts { MatchOption result (parts_of line.now ≡ []) (λ p. parts_of line.now ≡ p.0.now ∷ parts_of p.1.now) }
    ensures cut { IfSome result (λ p. behind_gaps line.now ≡ p.0.now ++ p.1.now) }
    ensures len { IfSome result (λ p. length p.1.now < length line.now) }
{
    let front = &line[gap_len(line)..];
    let len = part_len(front);
    if len == 0 {
        None
    } else {
        Some((&front[..len], &front[len..]))
    }
}
