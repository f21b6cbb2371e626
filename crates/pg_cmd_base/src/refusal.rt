//! Why a command is refused, or stops.
//!
//! A `Refusal` is due for the words and the files (`specs/Asking.antt`), and has a text and a status (`specs/Refusals.antt`). A
//! `Stop` may also come of a read that failed or of memory, of which nothing is told.

use pg_report::RefusalLine;

/// Why a command is refused.
#[derive(Debug, Drop)]
pub enum Refusal {
    /// The words are none that the program takes. The usage is told, and the status is 3.
    Words,
    /// A file that the words name is not there. Nothing is told, and the status is 11.
    Missing,
    /// For a reason that is told in a line: of the description (status 4), of an image (5), of a certificate (6), of the
    /// room (7), of a source (12), or of a saved guest (13).
    Line(RefusalLine),
}

/// Why a command goes no further before anything is put.
#[derive(Debug, Drop)]
pub enum Stop {
    /// It is refused, by a step that is due.
    Refused(Refusal),
    /// A file that the words name could not be read: status 8.
    ReadFault,
    /// Memory was refused, for the words, for a file, or for what is made of it: status 10.
    Memory,
}
