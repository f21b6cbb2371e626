//! Why a description is not valid.
//!
//! The variants are in the order of the classes of validity, and what they carry says where the first break of the class is.
//! A fault owns what it carries: it is told after the description is gone.

use sqlite_items::Items;
use thiserror::Error;

/// What is limited in a description.
#[derive(Clone, Copy, Debug, PartialEq, Eq)]
pub enum Limit {
    /// Instructions: at most `MOST_INSTRUCTIONS`.
    Instructions,
    /// Occurrences of `mem [` in an instruction, reads and writes: at most `MOST_ACCESSES`.
    Accesses,
    /// Lets in an instruction: at most `MOST_LETS`.
    Lets,
    /// Statements in an instruction, an if counting itself and those inside: at most `MOST_STATEMENTS`.
    Statements,
    /// Expressions in an instruction, parts included: at most `MOST_EXPRESSIONS`.
    Expressions,
}

/// How the table of widths is broken: its row, with the widths that meet there, as what is wanted and what is found. Bits are
/// counted.
#[derive(Clone, Copy, Debug, PartialEq, Eq)]
pub enum WidthClash {
    /// A number, and of how many bits it is said to be: it does not fit them, or they are not 1 to 64.
    Number(u64, u64),
    /// A name that has no width. A description whose names all mean something has none.
    Unnamed,
    /// How many bits are wanted, and how many are found: of an address, of a condition, of what is stored or assigned.
    Wanted(u64, u64),
    /// The bits of the two sides of an operation that wants them alike.
    Sides(u64, u64),
    /// The bits of two sides that are joined, more than 64 together.
    Joined(u64, u64),
    /// Of how many bits some are cut out, the highest of them and the lowest.
    Cut(u64, u64, u64),
    /// How many bits are widened, and to how many: to fewer, or to more than 64.
    Widened(u64, u64),
    /// The bits of two choices, which are not alike.
    Choices(u64, u64),
}

/// Why a description is not valid: the first class of validity that fails, and what it names. Instructions are numbered
/// from 0.
#[derive(Debug, Drop, Error)]
pub enum TypeFault {
    /// The numbers of the head are those of no machine.
    #[error("the numbers of the head are those of no machine")]
    Shape,
    /// The first instruction that breaks a limit, and the least limit that it breaks.
    #[error("instruction {1} breaks a limit: {0:?}")]
    Limit(Limit, usize),
    /// The first name of an instruction that an earlier one has, or else the first name of a let that an earlier let or
    /// a field of the same instruction has.
    #[error("a name is given twice")]
    Twice(Items<u8>),
    /// The first instruction whose pattern has not as many places as a word has bits, or has a letter in two runs.
    #[error("the pattern of instruction {0} is not well formed")]
    Pattern(usize),
    /// The first instruction that overlaps a later one, and the first such later one: some word matches both patterns.
    #[error("the patterns of instructions {0} and {1} match one word")]
    Overlap(usize, usize),
    /// The first instruction with a name that is neither a field nor a visible let, and its first such name.
    #[error("instruction {0} has a name that is neither a field nor a visible let")]
    Name(usize, Items<u8>),
    /// The first instruction with a statement whose own expressions break the table of widths, the place of its first
    /// such statement, counted from 0 in the order of the text, and how the first part of that breaks the table.
    #[error("statement {1} of instruction {0} breaks the table of widths: {2:?}")]
    Width(usize, usize, WidthClash),
    /// Memory was refused while the description was tested or its machine made. It says nothing of the description.
    #[error("memory was refused")]
    Memory,
}
