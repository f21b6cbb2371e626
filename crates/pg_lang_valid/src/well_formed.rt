//! Patterns that are not well formed.
//!
//! The fourth class of validity: a pattern has as many places as a word has bits, and each letter in one run, so that a
//! field is all of its letter. Nothing here takes memory.

ghost use Rattle.std.specs.Prelude.{◌≡◌, ◌==◌, length};
ghost use Rattle.std.specs.List.{list_any};
ghost use Rattle.pg_lang_valid.specs.Overlaps.{has_split_letter, is_well_formed, pattern_broken};

use pg_ast::Instr;
use pg_lang_meaning::run_length;

/// Whether a byte stands among these.
fn stands_in(byte: u8, bytes: &[u8]) -> bool
    ensures { result ≡ list_any (λ later. later == byte) bytes.now }
{
    bytes.contains(&byte)
}

/// Whether a letter of a pattern stands in two runs.
#[tactic(auto, unfolding(crate::specs::Overlaps::has_split_letter))]
fn has_split_letter(pattern: &[u8]) -> bool
    ensures { result ≡ has_split_letter pattern.now }
{
    let mut left = pattern;
    while let [byte, rest @ ..] = left {
        if byte.is_ascii_lowercase() && stands_in(*byte, &rest[run_length(*byte, rest)..]) {
            return true;
        }
        left = rest;
    }
    false
}

/// Whether a pattern lists as many bits as a word has, each letter in one run.
fn is_well_formed(word: u64, pattern: &[u8]) -> bool
    ensures { result ≡ is_well_formed word pattern.now }
{
    pattern.len() as u64 == word && !has_split_letter(pattern)
}

/// The first instruction whose pattern is not of that form.
#[tactic(auto, unfolding(crate::specs::Overlaps::pattern_broken))]
pub fn pattern_broken(word: u64, instrs: &[Instr]) -> Option<usize>
    ensures { result ≡ pattern_broken word 0 instrs.now }
{
    for (k, instr) in instrs.iter().enumerate() {
        if !is_well_formed(word, instr.pattern.bytes.as_slice()) {
            return Some(k);
        }
    }
    None
}
