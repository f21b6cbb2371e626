//! Words, names and patterns.
//!
//! Which bytes make a word, which words the language keeps for itself, and which bytes stand in a
//! pattern: tests that answer what the definitions of the same names say. They read bytes and
//! allocate nothing. A lexer asks them where a word ends and what it is, and a tree keeps their
//! answers as facts of its names and patterns.
//!
//! A word that is reserved is no name, and that is all that keeps the two apart: the lexer gives both
//! as words. The words of the head, as `size`, are reserved in bodies too.

ghost use Rattle.std.specs.Prelude.{◌≡◌, bytes_eq};
ghost use Rattle.std.specs.List.{list_all};
ghost use Rattle.pg_lang_token.specs.Words.{is_letter, is_word_byte, is_word, is_reserved, is_name, is_pattern_byte};

/// A letter of either case.
pub fn is_letter(byte: u8) -> bool
    ensures { result ≡ is_letter byte }
{
    byte.is_ascii_alphabetic()
}

/// A letter, a digit or `_`.
pub fn is_word_byte(byte: u8) -> bool
    ensures { result ≡ is_word_byte byte }
{
    is_letter(byte) || byte.is_ascii_digit() || byte == b'_'
}

/// Letters, digits and `_` alone, or no byte at all.
fn are_word_bytes(bytes: &[u8]) -> bool
    ensures { result ≡ list_all is_word_byte bytes.now }
{
    bytes.iter().all(|byte| is_word_byte(*byte))
}

/// The most bytes that a word has, and so a name.
pub const NAME_BYTES: usize = 32;

/// A letter, then letters, digits and `_`, at most `NAME_BYTES` bytes in all.
pub fn is_word(bytes: &[u8]) -> bool
    ensures { result ≡ is_word bytes.now }
{
    match bytes.split_first() {
        None => false,
        Some((first, rest)) => is_letter(*first)
            && are_word_bytes(rest)
            && bytes.len() <= NAME_BYTES,
    }
}

/// Whether these bytes are those of a word, case and all.
fn is_same(bytes: &[u8], word: &[u8]) -> bool
    ensures { result ≡ bytes_eq bytes.now word.now }
{
    bytes == word
}

/// A word of the description language, which is no name.
pub fn is_reserved(bytes: &[u8]) -> bool
    ensures { result ≡ is_reserved bytes.now }
{
    is_same(bytes, b"machine")
        || is_same(bytes, b"word")
        || is_same(bytes, b"address")
        || is_same(bytes, b"size")
        || is_same(bytes, b"causes")
        || is_same(bytes, b"instr")
        || is_same(bytes, b"let")
        || is_same(bytes, b"mem")
        || is_same(bytes, b"pc")
        || is_same(bytes, b"mode")
        || is_same(bytes, b"rel")
        || is_same(bytes, b"bound")
        || is_same(bytes, b"trap")
        || is_same(bytes, b"if")
        || is_same(bytes, b"else")
        || is_same(bytes, b"cat")
        || is_same(bytes, b"cut")
        || is_same(bytes, b"ext")
        || is_same(bytes, b"sext")
        || is_same(bytes, b"sel")
}

/// A word that is not reserved.
pub fn is_name(bytes: &[u8]) -> bool
    ensures { result ≡ is_name bytes.now }
{
    is_word(bytes) && !is_reserved(bytes)
}

/// A byte of a pattern: `0` and `1` fix a bit, `.` leaves it free, a small letter is a field.
pub fn is_pattern_byte(byte: u8) -> bool
    ensures { result ≡ is_pattern_byte byte }
{
    byte == b'0' || byte == b'1' || byte == b'.' || byte.is_ascii_lowercase()
}

/// Bytes of a pattern and no others.
pub fn is_pattern(bytes: &[u8]) -> bool
    ensures { result ≡ list_all is_pattern_byte bytes.now }
{
    bytes.iter().all(|byte| is_pattern_byte(*byte))
}
