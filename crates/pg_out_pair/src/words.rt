//! The words of a window, and the word of a pattern.

/// How many cells a storage has at most, and so a window.
pub(crate) const CELLS: usize = 24;

/// The words of a window, by their addresses.
pub(crate) type Words = [u64; CELLS];

/// A value for each letter of a pattern.
pub(crate) type Values = [u64; 26];

/// The number of a letter, from 0 to 25; none of another byte.
fn letter_of(byte: u8) -> Option<usize> {
    if byte.is_ascii_lowercase() {
        Some(usize::from(byte - b'a'))
    } else {
        None
    }
}

/// The word of a pattern whose fields have these values, and zeros where any bit may stand.
pub(crate) fn word_of(pattern: &[u8], values: &Values) -> u64 {
    let mut left = *values;
    let mut word = 0;
    let mut bit = 1u64;
    for byte in pattern.iter().rev() {
        let is_set = match letter_of(*byte) {
            None => *byte == b'1',
            Some(letter) => takes_bit(&mut left, letter),
        };
        if is_set {
            word |= bit;
        }
        bit <<= 1;
    }
    word
}

/// Whether the lowest bit of the value of a letter is set. The value goes on with the bit above it.
fn takes_bit(left: &mut Values, letter: usize) -> bool {
    match left.get_mut(letter) {
        None => false,
        Some(value) => {
            let is_set = *value & 1 == 1;
            *value >>= 1;
            is_set
        }
    }
}

/// The values of the fields of a word, of as many bits as the pattern has places.
pub(crate) fn values_of(pattern: &[u8], word: u64) -> Values {
    let mut values = [0; 26];
    let unused = u32::try_from(64usize.saturating_sub(pattern.len())).unwrap_or(0);
    let mut left = word.checked_shl(unused).unwrap_or(0);
    for byte in pattern {
        if let Some(letter) = letter_of(*byte) {
            put_bit(&mut values, letter, left >> 63);
        }
        left <<= 1;
    }
    values
}

/// Puts a bit below those of the value of a letter.
fn put_bit(values: &mut Values, letter: usize, bit: u64) {
    if let Some(value) = values.get_mut(letter) {
        *value = *value << 1 | bit;
    }
}

/// Values that count upwards from `first` on, one for each field, in the order of the pattern; and the value behind the last.
pub(crate) fn counted(pattern: &[u8], first: u64) -> (Values, u64) {
    let mut values = [0; 26];
    let mut next = first;
    for byte in pattern {
        if let Some(letter) = letter_of(*byte) {
            if put_first(&mut values, letter, next) {
                next = next.saturating_add(1);
            }
        }
    }
    (values, next)
}

/// Puts the value of a letter that has none yet, and says whether it did. A value that is put is not 0.
fn put_first(values: &mut Values, letter: usize, value: u64) -> bool {
    match values.get_mut(letter) {
        Some(held) if *held == 0 => {
            *held = value;
            true
        }
        _ => false,
    }
}
