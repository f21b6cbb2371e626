//! The fields of a pattern, in order.
//!
//! A field is a run of a letter. `fields_of` lists the fields of a pattern from the highest, as a line of a source gives
//! them. The list lies in the value itself, so no memory is taken.

ghost use Rattle.std.specs.Prelude.{◌≡◌, ◌^◌, ◌<◌, ◌≤◌, [], ◌∷◌, length, nat_lt, All, MatchOption};
ghost use Rattle.pg_asm.specs.Words.{begins_field, field_here, fields_of, fit, value_in};

use arrayvec::ArrayVec;
use pg_lang_meaning::run_length;

/// A field of a pattern.
#[derive(Clone, Copy, Debug, Default, PartialEq, Eq)]
pub struct LetterField {
    /// Its letter, from `a` to `z`.
    pub letter: u8,
    /// Its bits, from 1 to 64.
    pub width: usize,
    /// The bits of the word below it; `low + width` is at most the length of the pattern.
    pub low: usize,
}

/// The most places of a pattern, and so of its fields.
pub const PLACES: usize = 64;

/// The fields of a pattern.
pub type FieldList = ArrayVec<LetterField, PLACES>;

/// Whether a field begins at a place: a letter stands there, and another byte before it.
pub fn begins_field(before: u8, byte: u8) -> bool
    ensures { result ≡ begins_field before byte }
{
    byte.is_ascii_lowercase() && byte != before
}

/// The field of a letter, of which these places stand behind its first.
pub fn field_here(letter: u8, behind: &[u8]) -> LetterField
    ensures { result ≡ field_here letter behind.now }
{
    let run = run_length(letter, behind);
    LetterField {
        letter,
        width: 1 + run,
        low: behind.len() - run,
    }
}

/// The first of these places, and those behind it.
pub fn first_place(places: &[u8]) -> Option<(u8, &[u8])>
    ensures { MatchOption result (places.now ≡ []) (λ p. places.now ≡ p.0 ∷ p.1.now) }
{
    match places.split_first() {
        None => None,
        Some((first, behind)) => Some((*first, behind)),
    }
}

/// The fields of a pattern, from the highest.
pub fn fields_of(pattern: &[u8]) -> FieldList
    requires { length pattern.now ≤ 64 }
    ensures fields { result.items ≡ fields_of pattern.now }
    ensures few { length result.items ≤ 64 }
    ensures low { All (λ field. field.low < 64) result.items }
{
    let mut fields = ArrayVec::new();
    let mut before = 0;
    let mut left = pattern;
    while let Some((byte, behind)) = first_place(left) {
        if begins_field(before, byte) {
            fields.push(field_here(byte, behind));
        }
        before = byte;
        left = behind;
    }
    fields
}

/// The bits of a word that stand in a field.
pub fn value_in(word: u64, field: &LetterField) -> u64
    requires low { field.now.low < 64 }
    ensures { result ≡ value_in word field.now }
{
    let above = word >> field.low;
    if field.width >= 64 {
        above
    } else {
        above % (1 << field.width)
    }
}

/// Whether a value has no more than so many bits.
fn fits(value: u64, width: usize) -> bool
    ensures { result ≡ nat_lt value (2 ^ width) }
{
    width >= 64 || value >> width == 0
}

/// Whether there are as many values as fields, each of no more bits than its field.
pub fn fit(fields: &[LetterField], values: &[u64]) -> bool
    ensures { result ≡ fit fields.now values.now }
{
    if fields.len() != values.len() {
        return false;
    }
    for (k, field) in fields.iter().enumerate() {
        if !fits(values[k], field.width) {
            return false;
        }
    }
    true
}
