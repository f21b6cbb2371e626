//! Whole texts that are read.

ghost use Rattle.std.specs.Prelude.{◌≡◌, ◌+◌, ◌≤◌, ◌<◌, ◌∷◌, ◌≢◌, [], length, IfOk};
ghost use Rattle.pg_word.specs.Shape.{IsShape};
ghost use Rattle.pg_move.specs.Texts.{IsSaved, most_bytes};
ghost use Rattle.pg_move.specs.Reading.{cut_lines, Fresh, read_lines, saved_due};
ghost use Rattle.pg_move.specs.Seen.{guest_of, IsAnswer};

use crate::fault::SavedFault;
use crate::reader::Reader;
use crate::saved::Saved;
use pg_text::len_before;
use pg_word::Shape;
use std::alloc::Global;

/// The most bytes of a text that is read.
pub const SAVED_BYTES: usize = 33_554_432;

/// The first line of bytes, with its LF if it has one, and what stands behind it.
fn split_line(bytes: &[u8]) -> (&[u8], &[u8])
    requires { bytes.now ≢ [] }
    ensures lines { cut_lines bytes.now ≡ result.0.now ∷ cut_lines result.1.now }
    ensures len { length result.0.now + length result.1.now ≡ length bytes.now }
    ensures some { 1 ≤ length result.0.now }
{
    let end = (len_before(bytes, b'\n') + 1).min(bytes.len());
    bytes.split_at(end)
}

/// What the lines of a text say.
fn read_lines(alloc: Global, shape: &Shape, bytes: &[u8]) -> Result<Saved, SavedFault>
    requires shape { IsShape shape.now }
    requires few { length bytes.now ≤ most_bytes }
    ensures { IsAnswer (read_lines shape.now 1 Fresh (cut_lines bytes.now)) result }
{
    let mut reader = Reader::Fresh;
    let mut line = 1;
    let mut left = bytes;
    while !left.is_empty() {
        let (first, behind) = split_line(left);
        match reader.with_line(alloc, shape, line, first) {
            Ok(next) => reader = next,
            Err(fault) => return Err(fault),
        }
        line += 1;
        left = behind;
    }
    reader.finish(line)
}

/// What a text says of a saved guest, for machines of a shape, or why it is refused.
///
/// It is exact: what is read has this text alone, and each text of a guest in range is read. It costs the length of the text,
/// and takes memory for the cells that are not zero and for one line.
///
/// # Errors
/// `Long` where the text has more than `SAVED_BYTES`. Else, by the first line at fault: `Token` where a byte before its LF is
/// foreign; `Version` where it is the first line and that of another version; `Grammar` where it is otherwise not the line that
/// may stand there, where it has no LF, or where it is missing, since the text ends before its last line. `Memory` where memory
/// ran out.
#[tactic(auto, unfolding(crate::specs::Reading::saved_due))]
pub fn read_saved(alloc: Global, shape: &Shape, bytes: &[u8]) -> Result<Saved, SavedFault>
    requires { IsShape shape.now }
    ensures answer { IsAnswer (saved_due shape.now bytes.now) result }
    ensures saved { IfOk result (λ saved. IsSaved shape.now (guest_of saved)) }
{
    if bytes.len() > SAVED_BYTES {
        return Err(SavedFault::Long);
    }
    read_lines(alloc, shape, bytes)
}
