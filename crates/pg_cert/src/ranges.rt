//! Whether the numbers of a line are in their ranges.

ghost use Rattle.std.specs.Prelude.{◌≡◌, ◌%◌, ◌^◌, ◌≤◌, ◌<◌, ◌&&◌, ◌==◌, not, nat_lt, nat_le, length};
ghost use Rattle.std.specs.List.{list_any, list_all};
ghost use Rattle.pg_image.specs.Lines.{line_cells};
ghost use Rattle.pg_word.specs.Shape.{IsShape};
ghost use Rattle.pg_cert.specs.Lines.{is_found, ascend, most_variable, most_number, are_lits, are_hints, are_removed, is_psw, are_cells, is_line};

use crate::line::{Found, Line};
use pg_image::LINE_CELLS;
use pg_lang_token::is_word;
use pg_word::{Psw, Shape};

/// The most steps of an open question.
const MOST_BUDGET: u32 = 1_000_000;

/// The greatest variable of a literal.
const MOST_VARIABLE: u32 = 2_147_483_647;

/// Whether the steps of an open question are so few.
pub fn is_found(found: &Found) -> bool
    ensures { result ≡ is_found found.now }
{
    match found {
        Found::Refuted => true,
        Found::Shown => true,
        Found::Spent(steps) => 1 <= *steps && *steps <= MOST_BUDGET,
    }
}

/// Whether the variables of literals ascend strictly from 1 on.
pub fn are_lits(lits: &[i32]) -> bool
    ensures { result ≡ are_lits lits.now }
{
    let mut above = 0;
    for lit in lits {
        let variable = lit.unsigned_abs();
        if variable <= above || MOST_VARIABLE < variable {
            return false;
        }
        above = variable;
    }
    true
}

/// Whether hints are from 1 on.
pub fn are_hints(hints: &[u32]) -> bool
    ensures { result ≡ are_hints hints.now }
{
    hints.iter().all(|hint| 1 <= *hint && *hint <= u32::MAX)
}

/// Whether numbers ascend strictly from 1 on.
fn ascend(numbers: &[u32]) -> bool
    ensures { result ≡ ascend most_number 0 numbers.now }
{
    let mut above = 0;
    for number in numbers {
        if *number <= above {
            return false;
        }
        above = *number;
    }
    true
}

/// Whether numbers of clauses ascend strictly from 1 on, and there is one.
pub fn are_removed(numbers: &[u32]) -> bool
    ensures { result ≡ are_removed numbers.now }
{
    1 <= numbers.len() && ascend(numbers)
}

/// Whether a number has at most so many bits.
fn fits(bits: u32, number: u32) -> bool
    requires { bits < 32 }
    ensures { result ≡ nat_lt number (2 ^ bits) }
{
    number < 1 << bits
}

/// Whether the fields of a program status word have at most so many bits.
pub fn is_psw(bits: u32, psw: &Psw) -> bool
    requires { bits < 32 }
    ensures { result ≡ is_psw bits psw.now }
{
    fits(bits, psw.p) && fits(bits, psw.l) && fits(bits, psw.b)
}

/// Whether a word has at most so many bits.
fn is_within(w: u32, word: u64) -> bool
    requires { w ≤ 64 }
    ensures { result ≡ nat_lt word (2 ^ w) }
{
    u128::from(word) < 1u128 << w
}

/// Whether words have at most so many bits.
fn are_within(w: u32, words: &[u64]) -> bool
    requires { w ≤ 64 }
    ensures { result ≡ list_all (λ x. nat_lt x (2 ^ w)) words.now }
{
    words.iter().all(|word| is_within(w, *word))
}

/// Whether one of these words is not zero.
fn is_one_set(words: &[u64]) -> bool
    ensures { result ≡ list_any (λ x. not (x == 0)) words.now }
{
    words.iter().any(|word| *word != 0)
}

/// Whether there are from 1 to `LINE_CELLS` words.
fn is_row_length(words: &[u64]) -> bool
    ensures { result ≡ (nat_le 1 (length words.now) && nat_le (length words.now) line_cells) }
{
    1 <= words.len() && words.len() <= LINE_CELLS
}

/// Whether a row begins at a cell.
fn is_row_start(first: u32) -> bool
    ensures { result ≡ (nat_le first most_number && (first % line_cells == 0)) }
{
    first % LINE_CELLS as u32 == 0
}

/// Whether a line may show these words of `w` bits from a cell on.
pub fn are_cells(w: u32, first: u32, words: &[u64]) -> bool
    requires { w ≤ 64 }
    ensures { result ≡ are_cells w first words.now }
{
    is_row_start(first) && is_row_length(words) && is_one_set(words) && are_within(w, words)
}

/// Whether a size is from 2 to the greatest one.
fn is_size(shape: &Shape, size: u32) -> bool
    ensures { result ≡ (nat_le 2 size && nat_le size shape.now.q) }
{
    2 <= size && size <= shape.q
}

/// Whether the numbers of a line are in their ranges for a machine of this shape, and its name is a word.
#[tactic(auto, unfolding(crate::specs::Lines::is_line))]
pub fn is_line(shape: &Shape, line: &Line) -> bool
    requires { IsShape shape.now }
    ensures { result ≡ is_line shape.now line.now }
{
    match line {
        Line::First(_) => true,
        Line::Header(name, _, found) => is_word(name.as_slice()) && is_found(found),
        Line::Step(step) => are_lits(step.lits.as_slice()) && are_hints(step.hints.as_slice()),
        Line::Remove(numbers) => are_removed(numbers.as_slice()),
        Line::Size(size) => is_size(shape, *size),
        Line::Psw(psw) => is_psw(shape.a, psw),
        Line::Cells(first, words) => are_cells(shape.w, *first, words.as_slice()),
        Line::End => true,
    }
}
