//! Which words a pattern matches, and the fields that it has.
//!
//! A pattern lists the bits of a word from the highest one on: 0 and 1 want that bit, a dot takes either, and so does a
//! letter, whose run is a field. The functions are the definitions one for one, and go over the pattern; a machine that
//! runs asks an opcode and a decoder in their place. Nothing here takes memory.

ghost use Rattle.std.specs.Prelude.{◌≡◌, ◌≤◌, length};
ghost use Rattle.pg_lang_meaning.specs.Patterns.{bit_of_word, takes_bit, matches, run_length, field_of_letter, field_of};
ghost use Rattle.pg_lang_meaning.specs.Fields.{fields_as};

/// A field of a pattern: how many bits it has, and how many bits of the word stand below it.
#[derive(Clone, Copy, Debug, PartialEq, Eq)]
pub struct Field {
    /// Its bits, at least 1.
    pub width: u64,
    /// The bits below it; `low + width` is at most the length of the pattern.
    pub low: u64,
}

/// Bit `at` of a word; 0 above its bits.
pub fn bit_of_word(word: u64, at: usize) -> u64
    ensures { result ≡ bit_of_word word at }
{
    if at < 64 { (word >> at) % 2 } else { 0 }
}

/// Whether a byte of a pattern takes this bit.
pub fn takes_bit(byte: u8, bit: u64) -> bool
    ensures { result ≡ takes_bit byte bit }
{
    if byte == b'0' {
        bit == 0
    } else if byte == b'1' {
        bit == 1
    } else {
        true
    }
}

/// Whether a pattern, listed from the highest bit, matches a word.
#[tactic(auto, unfolding(crate::specs::Patterns::matches))]
pub fn matches(pattern: &[u8], word: u64) -> bool
    ensures { result ≡ matches pattern.now word }
{
    let mut left = pattern;
    while let [byte, rest @ ..] = left {
        if !takes_bit(*byte, bit_of_word(word, rest.len())) {
            return false;
        }
        left = rest;
    }
    true
}

/// How many places at the front of a pattern have this letter.
#[tactic(auto, unfolding(crate::specs::Patterns::run_length))]
pub fn run_length(letter: u8, pattern: &[u8]) -> usize
    ensures run { result ≡ run_length letter pattern.now }
    ensures within { result ≤ length pattern.now }
{
    let mut run = 0;
    for byte in pattern {
        if *byte != letter {
            return run;
        }
        run += 1;
    }
    run
}

/// The field of a letter: the run in which it first stands.
#[tactic(auto, unfolding(crate::specs::Patterns::field_of_letter))]
pub fn field_of_letter(letter: u8, pattern: &[u8]) -> Option<Field>
    ensures { fields_as result ≡ field_of_letter letter pattern.now }
{
    let mut left = pattern;
    while let [byte, rest @ ..] = left {
        if *byte == letter {
            let below = rest.len() - run_length(letter, rest);
            return Some(Field {
                width: (left.len() - below) as u64,
                low: below as u64,
            });
        }
        left = rest;
    }
    None
}

/// The field that a name means in a pattern: a field has a name of one letter.
pub fn field_of(pattern: &[u8], name: &[u8]) -> Option<Field>
    ensures { fields_as result ≡ field_of pattern.now name.now }
{
    match name {
        [letter] => field_of_letter(*letter, pattern),
        _ => None,
    }
}
