//! The cells of a state, row by row.
//!
//! A row is `LINE_CELLS` cells beside each other, or fewer where the storage ends, and is shown where one of its words is
//! not zero. Only listed cells are gone over: a storage with few of them has few rows, however large it is.

ghost use Rattle.std.specs.Prelude.{◌≡◌, ℕ, ◌+◌, ◌-◌, ◌*◌, ◌/◌, ◌%◌, ◌^◌, ◌<◌, ◌≤◌, ◌∷◌, length, take, drop, slice_set, nat_lt};
ghost use Rattle.std.specs.List.{All, prefix_len};
ghost use Rattle.pg_word.specs.Sparse.{IsCellList, AreWithin, storage_of};
ghost use Rattle.pg_image.specs.Lines.{line_cells, line_words};
ghost use Rattle.pg_cert.specs.declared.line.Line.TheVariants.{Cells};
ghost use Rattle.pg_cert.specs.Texts.{rows_of, AreInRow};

use arrayvec::ArrayVec;
use pg_image::LINE_CELLS;

/// How many cells a row has, as a number of cells.
const ROW_CELLS: u32 = LINE_CELLS as u32;

/// A row of which one word is not zero.
#[derive(Drop)]
pub struct Row {
    /// Its first cell: a multiple of `LINE_CELLS`.
    pub first: u32,
    /// Its words: `LINE_CELLS`, or fewer where the storage ends.
    pub words: ArrayVec<u64, LINE_CELLS>,
    /// How many listed cells it has.
    pub count: usize,
}

/// How many cells stand before an address, of the first ones.
fn count_before(cells: &[(u32, u64)], end: u64) -> usize
    ensures { result ≡ prefix_len (λ cell. nat_lt cell.0 end) cells.now }
{
    for (count, cell) in cells.iter().enumerate() {
        let (address, _) = *cell;
        if end <= u64::from(address) {
            return count;
        }
    }
    cells.len()
}

/// Puts the word of a cell into the row that begins at `first`.
fn put_cell(row: &mut [u64; LINE_CELLS], first: u32, cell: (u32, u64))
    requires behind { first ≤ cell.0 }
    requires before { cell.0 < first + line_cells }
    ensures { row.new ≡ slice_set row.old (cell.0 - first) cell.1 }
{
    row[(cell.0 - first) as usize] = cell.1;
}

/// The words of a row of a storage of so many cells, of which these are not zero in the row.
fn words_of(size: u32, first: u32, cells: &[(u32, u64)]) -> ArrayVec<u64, LINE_CELLS>
    requires whole { first % line_cells ≡ 0 }
    requires within { first < size }
    requires in_row { AreInRow size first cells.now }
    ensures { result.items ≡ take line_cells (drop first (storage_of size cells.now)) }
{
    let mut row = [0u64; LINE_CELLS];
    let mut left = cells.len();
    while left > 0 {
        left -= 1;
        put_cell(&mut row, first, cells[left]);
    }
    let mut words = ArrayVec::from(row);
    words.truncate((size - first).min(ROW_CELLS) as usize);
    words
}

/// The first row of a storage of so many cells, of which these are not zero, that is shown.
pub fn first_row(size: u32, cells: &[(u32, u64)]) -> Row
    requires listed { IsCellList cells.now }
    requires within { AreWithin size cells.now }
    requires some { 1 ≤ length cells.now }
    ensures rows { rows_of size cells.now ≡ Cells result.first result.words.items ∷ rows_of size (drop result.count cells.now) }
    ensures some { 1 ≤ result.count }
    ensures all { result.count ≤ length cells.now }
    ensures whole { result.first % line_cells ≡ 0 }
    ensures shown { 1 ≤ length result.words.items }
    ensures most { length result.words.items ≤ line_cells }
    ensures fit { (w : ℕ) → All (λ cell. cell.1 < 2 ^ w) cells.now → All (λ word. word < 2 ^ w) result.words.items }
{
    let (address, _) = cells[0];
    let first = address - address % ROW_CELLS;
    let count = count_before(cells, u64::from(first) + u64::from(ROW_CELLS));
    Row {
        first,
        words: words_of(size, first, &cells[..count]),
        count,
    }
}
