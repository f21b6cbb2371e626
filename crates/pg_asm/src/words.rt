//! Words of instructions: made of values for the fields, and decoded.

ghost use Rattle.std.specs.Prelude.{◌≡◌, ◌<◌, ◌^◌, ◌*◌, ◌≤◌, length, true, if◌then◌else◌, IfOk};
ghost use Rattle.pg_lang_meaning.specs.Patterns.{bit_of_word};
ghost use Rattle.pg_lang_meaning.specs.Opcodes.{wanted_bit};
ghost use Rattle.pg_asm.specs.Words.{IsWordOf, word_by, counts, kept_bits, fields_of, fit, values_in, pattern_of, decoded};

use crate::fields::{begins_field, fields_of, first_place, value_in};
use pg_lang_meaning::run_length;
use pg_mach_ready::Machine;
use sqlite_items::Items;
use std::alloc::{AllocError, Global};

/// The values of an instruction's fields, from the highest field.
pub type ValueList = Items<u64>;

/// The pattern of the instruction of this number: as many places as a word has bits.
pub fn pattern_of(machine: &Machine, number: usize) -> &[u8]
    requires { number < length machine.now.desc.instrs }
    ensures pattern { result.now ≡ pattern_of machine.now.desc.instrs number }
    ensures len { length result.now ≡ machine.now.desc.word }
    ensures short { length result.now ≤ 64 }
{
    machine.desc.instrs.as_slice()[number].pattern.as_bytes()
}

/// A value at a place of a word.
fn placed(value: u64, at: usize) -> u64
    requires at { at < 64 }
    requires room { value * 2 ^ at < 2 ^ 64 }
    ensures { result ≡ value * 2 ^ at }
{
    value << at
}

/// Whether a place counts: it is fixed, or a field's.
fn counts(byte: u8) -> bool
    ensures { result ≡ counts byte }
{
    byte == b'0' || byte == b'1' || byte.is_ascii_lowercase()
}

/// The bit that is wanted at a place; 0 where none is.
fn wanted_bit(byte: u8) -> u64
    ensures value { result ≡ wanted_bit byte }
    ensures bit { result ≤ 1 }
{
    u64::from(byte == b'1')
}

/// The bit of a word at a place, where the place counts; else 0.
fn kept_bit(byte: u8, word: u64, at: usize) -> u64
    requires { at < 64 }
    ensures value { result ≡ (if counts byte then bit_of_word word at else 0) }
    ensures bit { result ≤ 1 }
{
    if counts(byte) { (word >> at) % 2 } else { 0 }
}

/// A word with 0 in the free places of a pattern, and above it.
#[tactic(auto, unfolding(crate::specs::Words::kept_bits))]
pub fn kept_bits(pattern: &[u8], word: u64) -> u64
    requires { length pattern.now ≤ 64 }
    ensures { result ≡ kept_bits pattern.now word }
{
    let mut kept = 0;
    let mut left = pattern;
    while let Some((byte, behind)) = first_place(left) {
        kept += placed(kept_bit(byte, word, behind.len()), behind.len());
        left = behind;
    }
    kept
}

/// The word of a pattern with these values in its fields, from the highest, and 0 in free places.
fn word_by(pattern: &[u8], values: &[u64]) -> u64
    requires short { length pattern.now ≤ 64 }
    requires fit { fit (fields_of pattern.now) values.now ≡ true }
    ensures { result ≡ word_by pattern.now values.now }
{
    let mut word = 0;
    let mut before = 0;
    let mut k = 0;
    let mut left = pattern;
    while let Some((byte, behind)) = first_place(left) {
        if begins_field(before, byte) {
            word += placed(values[k], behind.len() - run_length(byte, behind));
            k += 1;
        } else {
            word += placed(wanted_bit(byte), behind.len());
        }
        before = byte;
        left = behind;
    }
    word
}

/// The values of a word's fields.
fn values_in(alloc: Global, pattern: &[u8], word: u64) -> Result<ValueList, AllocError>
    requires { length pattern.now ≤ 64 }
    ensures { IfOk result (λ values. values ≡ values_in pattern.now word) }
{
    let mut values = Items::new(alloc);
    for field in fields_of(pattern).as_slice() {
        values.push(value_in(word, field))?;
    }
    Ok(values)
}

/// The word of the instruction of this number, with these values in its fields, from the highest, and 0 in free places.
///
/// There are as many values as fields, and each has no more bits than its field.
pub fn word_of(machine: &Machine, number: usize, values: &[u64]) -> u64
    requires there { number < length machine.now.desc.instrs }
    requires fit { fit (fields_of (pattern_of machine.now.desc.instrs number)) values.now ≡ true }
    ensures word { IsWordOf (pattern_of machine.now.desc.instrs number) values.now result }
    ensures by { result ≡ word_by (pattern_of machine.now.desc.instrs number) values.now }
    ensures fits { result < 2 ^ machine.now.desc.word }
{
    word_by(pattern_of(machine, number), values)
}

/// The number of the instruction whose pattern matches a word, and the values of its fields, from the highest. `None` where no pattern
/// matches it.
pub fn decode(
    alloc: Global,
    machine: &Machine,
    word: u64,
) -> Result<Option<(usize, ValueList)>, AllocError>
    ensures { IfOk result (λ found. found ≡ decoded machine.now.desc.instrs word) }
{
    match machine.decode(word) {
        None => Ok(None),
        Some(number) => {
            let values = values_in(alloc, pattern_of(machine, number), word)?;
            Ok(Some((number, values)))
        }
    }
}
