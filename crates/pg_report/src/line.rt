//! Why a command is refused, as it is told.
//!
//! `pg_tool` makes these of the faults of the readers and of `check`, and of what it finds itself. They hold what a line
//! says; how it is written is in `refusal` and in `specs/Texts.antt`. Lack of memory has no line, and is no variant here. A
//! name is owned, since the description that it comes from is gone when the line is put: the one part that takes memory.

use pg_lang_valid::{Limit, WidthClash};
use pg_type::Kind;
use sqlite_items::Items;

/// A line that says why a command is refused.
#[derive(Debug, Drop)]
pub enum RefusalLine {
    /// The description is refused, for this reason.
    Description(DescriptionLine),
    /// The image of this number, counted from 0, is refused, for this reason.
    Image(usize, ImageLine),
    /// The certificate is refused, for this reason.
    Certificate(CertificateLine),
    /// So many cells are wanted, and so many, which are fewer, are free.
    Room(u64, u64),
    /// The source is refused, for this reason.
    Source(SourceLine),
    /// The saved guest is refused, for this reason.
    Saved(SavedLine),
}

/// Why a description is refused. Places are bytes of its text, and both they and instructions are counted from 0.
#[derive(Debug, Drop)]
pub enum DescriptionLine {
    /// It has more bytes than the limit.
    Long,
    /// The first byte, number, word or pattern that makes no token stands at this place.
    Token(usize),
    /// The token at this place is the first that no description goes on with; or the text ends too early, at this length.
    Grammar(usize),
    /// The token at this place begins an expression of more levels than `EXPR_LEVELS`, or opens a block of more than
    /// `BLOCK_LEVELS`.
    Deep(usize),
    /// The numbers of the head are those of no machine.
    Shape,
    /// The least limit that an instruction breaks, and that instruction: the first that breaks one.
    Limit(Limit, usize),
    /// A name that is given twice.
    Twice(Items<u8>),
    /// The instruction whose pattern is not well formed.
    Pattern(usize),
    /// Two instructions whose patterns match one word.
    Overlap(usize, usize),
    /// An instruction, and a name in it that is neither a field nor a visible let.
    Name(usize, Items<u8>),
    /// An instruction, the place of a statement of it that breaks the table of widths, and how, which its line does not tell.
    Width(usize, usize, WidthClash),
}

/// Why an image is refused. Places are bytes of its text, counted from 0, and lines are numbered from 1.
#[derive(Debug, Drop)]
pub enum ImageLine {
    /// It has more bytes than the limit.
    Long,
    /// The byte at this place is the first that may not stand in an image.
    Token(usize),
    /// This line has parts, and is no address with words behind it.
    Grammar(usize),
    /// This line has a word that would stand at or past the size.
    Address(usize),
    /// This line gives a cell that an earlier line gave.
    Overlap(usize),
}

/// Why a certificate is refused. Lines of its text are numbered from 1.
#[derive(Debug, Drop)]
pub enum CertificateLine {
    /// It has more bytes than the limit.
    Long,
    /// This line has a byte that may not stand in a certificate.
    Token(u32),
    /// This line is none of a certificate, or may not stand there.
    Grammar(u32),
    /// The first line is that of another version.
    Version,
    /// This header names no instruction.
    Instr(u32),
    /// The step on this line is not valid, and the number of the cause: 1 for a literal of no variable of the question, 2 for
    /// a hint that names no clause, 3 for a hint whose clause sets no literal, or is false before the last hint, 4 where no
    /// clause is false after the last hint.
    Step(u32, u32),
    /// The log below this header has no empty clause.
    Closed(u32),
    /// The two states below this header do not show the kind.
    Pair(u32),
    /// On this line, or below this header, a budget is not spent as is said.
    Spent(u32),
    /// The finding of the instruction of this name and of this kind is missing.
    Missing(Items<u8>, Kind),
    /// This header is of a finding that was given before.
    Extra(u32),
    /// This line takes a clause away that is not held.
    Delete(u32),
}

/// Why a source is refused. Places are bytes of its text, counted from 0, and lines are numbered from 1.
#[derive(Debug, Drop)]
pub enum SourceLine {
    /// It has more bytes than the limit.
    Long,
    /// The byte at this place is the first that may not stand in a source.
    Token(usize),
    /// This line has none of the forms of lines.
    Grammar(usize),
    /// This line names no instruction.
    Name(usize),
    /// The fields of this line are not those of the instruction's pattern, each once, from the highest.
    Field(usize),
    /// This line uses a label that no line gives, or gives one that an earlier line gave.
    Label(usize),
    /// This line has a value that its field cannot hold.
    Range(usize),
    /// The word of this line would stand at or past the size.
    Place(usize),
    /// This line gives a cell that an earlier line gave.
    Overlap(usize),
}

/// Why the text of a saved guest is refused. Its lines are numbered from 1.
#[derive(Debug, Drop)]
pub enum SavedLine {
    /// It has more bytes than the limit.
    Long,
    /// This line has a byte that may not stand in a saved text.
    Token(u32),
    /// This line is none of a saved text, or may not stand there; or it is missing.
    Grammar(u32),
    /// This line, the first one, is that of another version.
    Version(u32),
}
