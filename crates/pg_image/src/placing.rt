//! The words of an image, put into cells.
//!
//! One reading of a text whose lines are known to have the form of an image. Beside the cells a flag for each says whether
//! a line has given it, so that a row is tested and put in the time that its own words take.

ghost use Rattle.std.specs.Prelude.{◌≡◌, ◌+◌, ◌%◌, ◌^◌, ◌<◌, ◌≤◌, nat_lt, length, true, replicate, All, None};
ghost use Rattle.std.specs.List.{list_all, list_any};
ghost use Rattle.std.specs.Result.{result_err};
ghost use Rattle.pg_image.specs.Images.{most_image_bytes, content, parts_of, is_word, lines_of, rows_from, put};
ghost use Rattle.pg_image.specs.Forms.{words_in, row_on};
ghost use Rattle.pg_image.specs.Placing.{clash_of, RowTold, LineTold, AllTold};

use crate::cutting::{split_line, split_part};
use crate::fault::ImageFault;
use crate::row::{Form, RowText, form_of, word};

/// Whether so many cells from this one on pass the size.
fn passes(size: usize, first: usize, count: usize) -> bool
    ensures { result ≡ nat_lt size (first + count) }
{
    first > size || count > size - first
}

/// Whether one of these cells is given.
fn is_any_given(given: &[bool]) -> bool
    ensures { result ≡ list_any (λ g. g) given.now }
{
    given.iter().any(|is_given| *is_given)
}

/// What is wrong with a row of so many cells from this one on.
fn clash(given: &[bool], n: usize, first: usize, count: usize) -> Option<ImageFault>
    ensures { result ≡ clash_of given.now n first count }
{
    if passes(given.len(), first, count) {
        Some(ImageFault::Address(n))
    } else if is_any_given(&given[first..first + count]) {
        Some(ImageFault::Overlap(n))
    } else {
        None
    }
}

/// Flags so many cells from this one on as given.
fn mark(given: &mut [bool], first: usize, count: usize)
    requires { first + count ≤ length given.old }
    ensures { given.new ≡ put first (replicate count true) given.old }
{
    for k in first..first + count {
        given[k] = true;
    }
}

/// Puts the words of a text into the cells from this one on.
fn put_words(w: u32, text: &[u8], cells: &mut [u64], first: usize)
    requires bytes { w % 8 ≡ 0 }
    requires most { w ≤ 64 }
    requires words { list_all (is_word w) (parts_of text.now) ≡ true }
    requires room { first + length (parts_of text.now) ≤ length cells.old }
    requires fit { All (λ cell. cell < 2 ^ w) cells.old }
    ensures put { cells.new ≡ put first (words_in text.now) cells.old }
    ensures fit { All (λ cell. cell < 2 ^ w) cells.new }
{
    let mut k = first;
    let mut left = text;
    while let Some((part, rest)) = split_part(left) {
        cells[k] = word(w, part);
        k += 1;
        left = rest;
    }
}

/// Puts the row of line `n`, or tells what is wrong with it.
fn place_row(
    w: u32,
    n: usize,
    row: &RowText,
    cells: &mut [u64],
    given: &mut [bool],
) -> Option<ImageFault>
    requires bytes { w % 8 ≡ 0 }
    requires most { w ≤ 64 }
    requires words { list_all (is_word w) (parts_of row.now.words.now) ≡ true }
    requires count { length (parts_of row.now.words.now) ≡ row.now.count }
    requires same { length cells.old ≡ length given.old }
    requires fit { All (λ cell. cell < 2 ^ w) cells.old }
    ensures placed { RowTold (row_on n row.now) cells.old given.old cells.new given.new result }
    ensures fit { All (λ cell. cell < 2 ^ w) cells.new }
{
    match clash(given, n, row.first, row.count) {
        Some(fault) => Some(fault),
        None => {
            mark(given, row.first, row.count);
            put_words(w, row.words, cells, row.first);
            None
        }
    }
}

/// Puts what line `n` says, or tells what is wrong with it.
fn place_line(
    w: u32,
    n: usize,
    line: &[u8],
    cells: &mut [u64],
    given: &mut [bool],
) -> Option<ImageFault>
    requires bytes { w % 8 ≡ 0 }
    requires most { w ≤ 64 }
    requires same { length cells.old ≡ length given.old }
    requires fit { All (λ cell. cell < 2 ^ w) cells.old }
    ensures placed { LineTold w n (parts_of (content line.now)) cells.old given.old cells.new given.new result }
    ensures fit { All (λ cell. cell < 2 ^ w) cells.new }
{
    match form_of(w, line) {
        Form::Blank => None,
        Form::Other => Some(ImageFault::Grammar(n)),
        Form::Row(row) => place_row(w, n, &row, cells, given),
    }
}

/// Puts the rows of a text, or tells the first thing that is wrong with one.
pub fn place_all(w: u32, bytes: &[u8], cells: &mut [u64], given: &mut [bool]) -> Option<ImageFault>
    requires bytes { w % 8 ≡ 0 }
    requires most { w ≤ 64 }
    requires len { length bytes.now ≤ most_image_bytes }
    requires formed { result_err (rows_from w 1 (lines_of bytes.now)) ≡ None }
    requires same { length cells.old ≡ length given.old }
    requires fit { All (λ cell. cell < 2 ^ w) cells.old }
    ensures placed { AllTold (rows_from w 1 (lines_of bytes.now)) cells.old given.old cells.new result }
    ensures fit { All (λ cell. cell < 2 ^ w) cells.new }
{
    let mut n = 1usize;
    let mut left = Some(bytes);
    while let Some(text) = left {
        let (line, rest) = split_line(text);
        if let Some(fault) = place_line(w, n, line, cells, given) {
            return Some(fault);
        }
        n += 1;
        left = rest;
    }
    None
}
