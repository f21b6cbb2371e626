//! The text of a state that is listed.
//!
//! A listed state names the cells that are not zero. Its text is that of the whole state, as `state` puts it of a hardware,
//! and only rows with a listed cell are gone over.

ghost use Rattle.std.specs.Prelude.{◌≡◌, ◌^◌, ◌<◌, length, All};
ghost use Rattle.pg_edge.specs.Sink.{Puts};
ghost use Rattle.pg_word.specs.Shape.{IsShape};
ghost use Rattle.pg_word.specs.Sparse.{IsCellList, AreWithin};
ghost use Rattle.pg_cert.specs.Texts.{rows_of, lines_text, DoStateWordsFit};
ghost use Rattle.pg_report.specs.Verdicts.{sparse_text};

use pg_cert::rows::first_row;
use pg_edge::{Failed, Sink};
use pg_image::{cell_line, psw_line, size_line};
use pg_word::{Shape, Sparse};

/// Puts the text of a listed state, whose words fit a word of the machine. The cost is linear in the listed cells.
///
/// # Errors
/// `Failed` where not all of the text went through. A front of it may have.
pub fn put_sparse<S: Sink>(out: &mut S, shape: &Shape, s: &Sparse) -> Result<(), Failed>
    requires shape { IsShape shape.now }
    requires fit { DoStateWordsFit shape.now.w s.now }
    ensures { Puts (S.written out.old) (S.written out.new) (S.faults out.old) (S.faults out.new)
        (sparse_text shape.now.w s.now) result }
{
    out.put(size_line(s.size).as_slice())?;
    out.put(psw_line(s.psw).as_slice())?;
    put_rows(out, shape, s.size, s.cells.as_slice())
}

/// Puts the lines of the rows of a storage of so many cells, of which the listed ones are not zero.
fn put_rows<S: Sink>(
    out: &mut S,
    shape: &Shape,
    size: u32,
    cells: &[(u32, u64)],
) -> Result<(), Failed>
    requires shape { IsShape shape.now }
    requires listed { IsCellList cells.now }
    requires within { AreWithin size cells.now }
    requires fit { All (λ cell. cell.1 < 2 ^ shape.now.w) cells.now }
    ensures { Puts (S.written out.old) (S.written out.new) (S.faults out.old) (S.faults out.new)
        (lines_text shape.now (rows_of size cells.now)) result }
{
    let mut at = 0;
    while at < cells.len() {
        let row = first_row(size, &cells[at..]);
        out.put(cell_line(shape, row.first, row.words.as_slice()).as_slice())?;
        at += row.count;
    }
    Ok(())
}
