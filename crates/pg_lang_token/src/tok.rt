//! Tokens and signs.
//!
//! A token owns its letters, so that it outlives the text that it was read from. It says nothing of
//! where in the text it stood.

use sqlite_items::Items;

/// A sign of the description language.
#[derive(Clone, Copy, Debug, PartialEq, Eq)]
pub enum Sign {
    /// `{`
    OpenBrace,
    /// `}`
    CloseBrace,
    /// `(`
    OpenParen,
    /// `)`
    CloseParen,
    /// `[`
    OpenBracket,
    /// `]`
    CloseBracket,
    /// `;`
    Semicolon,
    /// `,`
    Comma,
    /// `:`
    Colon,
    /// `=`
    Equals,
    /// `==`
    DoubleEquals,
    /// `~`
    Tilde,
    /// `+`
    Plus,
    /// `-`
    Minus,
    /// `*`
    Star,
    /// `&`
    Ampersand,
    /// `|`
    Bar,
    /// `^`
    Caret,
    /// `<`
    LessThan,
    /// `<<`
    DoubleLess,
    /// `>>`
    DoubleGreater,
}

/// A token: a word, a number, a pattern without its quotes and underscores, or a sign.
#[derive(Debug, Drop)]
pub enum Tok {
    /// A word, reserved or not: a letter, then letters, digits and `_`, from 1 to `NAME_BYTES` bytes in all
    /// where it comes from a text.
    Word(Items<u8>),
    /// The value of a number, however it was written.
    Number(u64),
    /// The letters of a pattern, one a bit, the highest bit first; it may have none.
    Pattern(Items<u8>),
    /// A sign.
    Sign(Sign),
}
