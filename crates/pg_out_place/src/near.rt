//! Names that are near to another: such as a hand writes for it by a slip.

/// How many bytes two texts have alike from the front.
fn common_front(one: &[u8], other: &[u8]) -> usize {
    let mut count: usize = 0;
    for (a, b) in one.iter().zip(other.iter()) {
        if a != b {
            return count;
        }
        count = count.saturating_add(1);
    }
    count
}

/// How many bytes two texts have alike from the end.
fn common_end(one: &[u8], other: &[u8]) -> usize {
    let mut count: usize = 0;
    for (a, b) in one.iter().rev().zip(other.iter().rev()) {
        if a != b {
            return count;
        }
        count = count.saturating_add(1);
    }
    count
}

/// What is left of a text between so many bytes at the front and so many at the end.
fn between(text: &[u8], front: usize, end: usize) -> &[u8] {
    let from = front.min(text.len());
    let behind = &text[from..];
    &behind[..behind.len().saturating_sub(end)]
}

/// Whether two texts are alike but for small and great letters.
fn is_alike(one: &[u8], other: &[u8]) -> bool {
    one.len() == other.len()
        && one
            .iter()
            .zip(other.iter())
            .all(|(a, b)| a.eq_ignore_ascii_case(b))
}

/// Whether one name becomes the other by one byte that is changed, put in, taken away, or exchanged with the next; or by great
/// letters in place of small ones. Names of one byte are near by their case alone.
pub fn is_near(one: &[u8], other: &[u8]) -> bool {
    if is_alike(one, other) {
        return true;
    }
    if one.len() < 2 || other.len() < 2 {
        return false;
    }
    let front = common_front(one, other);
    let end = common_end(between(one, front, 0), between(other, front, 0));
    match (between(one, front, end), between(other, front, end)) {
        ([_], [_]) | ([], [_]) | ([_], []) => true,
        ([a, b], [c, d]) => a == d && b == c,
        _ => false,
    }
}
