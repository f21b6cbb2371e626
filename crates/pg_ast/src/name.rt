//! Names and patterns: bytes that are known to make one.
//!
//! The proof that its bytes make a name, or a pattern, stands in each value, so whoever holds one need
//! not test again. It also keeps names and keywords apart: a word of the language is never a name.

ghost use Rattle.std.specs.Prelude.{◌≡◌, ◌↔◌, IsTrue, IsSome, IfSome};
ghost use Rattle.std.specs.List.{list_all};
ghost use Rattle.pg_lang_token.specs.Words.{is_name, is_pattern_byte};

use pg_lang_token::{is_name, is_pattern};
use sqlite_items::Items;

/// A name: a letter, then letters, digits and `_`, at most `NAME_BYTES` bytes in all, and no word that
/// the language keeps for itself.
#[derive(Debug, Drop)]
pub struct Name {
    /// Its bytes, from 1 to `NAME_BYTES` of them, the first a letter.
    pub bytes: Items<u8>,
    pub ghost is_name: { IsTrue (is_name bytes) },
}

/// A pattern: `0` and `1` fix a bit, `.` leaves it free, and a small letter makes it part of the field
/// of that letter. It may have any length here, also none.
#[derive(Debug, Drop)]
pub struct PatternText {
    /// One byte a bit, the highest bit first: `0`, `1`, `.`, or `a` to `z`.
    pub bytes: Items<u8>,
    pub ghost is_pattern: { IsTrue (list_all is_pattern_byte bytes) },
}

impl Name {
    /// The name of bytes that are known to make one.
    pub fn new(bytes: Items<u8>) -> Name
        requires { IsTrue (is_name bytes) }
        ensures { result.bytes ≡ bytes }
    {
        Name { bytes }
    }

    /// The name of these bytes. `None` where they make none: they are no word, or a reserved one.
    pub fn try_new(bytes: Items<u8>) -> Option<Name>
        ensures some { IsSome result ↔ IsTrue (is_name bytes) }
        ensures bytes { IfSome result (λ name. name.bytes ≡ bytes) }
    {
        if is_name(bytes.as_slice()) {
            Some(Name { bytes })
        } else {
            None
        }
    }

    /// The bytes, from 1 to `NAME_BYTES` of them.
    pub fn as_bytes(&self) -> &[u8]
        ensures { result.now ≡ self.now.bytes }
    {
        self.bytes.as_slice()
    }
}

impl PatternText {
    /// The pattern of bytes that are known to make one.
    pub fn new(bytes: Items<u8>) -> PatternText
        requires { IsTrue (list_all is_pattern_byte bytes) }
        ensures { result.bytes ≡ bytes }
    {
        PatternText { bytes }
    }

    /// The pattern of these bytes. `None` where one of them stands in no pattern.
    pub fn try_new(bytes: Items<u8>) -> Option<PatternText>
        ensures some { IsSome result ↔ IsTrue (list_all is_pattern_byte bytes) }
        ensures bytes { IfSome result (λ pattern. pattern.bytes ≡ bytes) }
    {
        if is_pattern(bytes.as_slice()) {
            Some(PatternText { bytes })
        } else {
            None
        }
    }

    /// The bytes, one a bit.
    pub fn as_bytes(&self) -> &[u8]
        ensures { result.now ≡ self.now.bytes }
    {
        self.bytes.as_slice()
    }
}
