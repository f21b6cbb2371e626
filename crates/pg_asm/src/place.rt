//! The words of a source, put into cells.
//!
//! One reading of a text of which each line is known to have a form, with the labels at hand. A cell is `None` until a line has
//! given it, so that a word is tested and put at once.

ghost use Rattle.std.specs.Prelude.{◌≡◌, ◌≤◌, ◌<◌, ◌^◌, ℕ, List, Option, length, None, Ok};
ghost use Rattle.std.specs.Result.{result_err};
ghost use Rattle.pg_image.specs.Images.{content, parts_of, lines_of};
ghost use Rattle.pg_asm.specs.Said.{said_of};
ghost use Rattle.pg_asm.specs.Lines.{said_as, IsFormed, IsLineOf};
ghost use Rattle.pg_asm.specs.Sources.{most_source_bytes, first_place, mark_of, keep_cells, put_word, cells_behind, said_from};
ghost use Rattle.pg_asm.specs.Passes.{words_due, Told, AreFit};

use crate::encode::instr_word;
use crate::fault::AsmFault;
use crate::gather::{FIRST_PLACE, place_behind};
use crate::labels::LabelTable;
use crate::line::{Line, line_of};
use pg_image::split_line;
use pg_mach_ready::Machine;

/// What is wrong with a label on line `n`: an earlier line gave it.
fn label_fault(labels: &LabelTable, n: usize, name: &[u8]) -> Option<AsmFault>
    ensures { (cells : List (Option ℕ)) → Told (keep_cells n cells (mark_of labels.now name.now)) cells result }
{
    match labels.mark_of(name) {
        None => Some(AsmFault::Label(n)),
        Some(first) => {
            if first.line == n {
                None
            } else {
                Some(AsmFault::Label(n))
            }
        }
    }
}

/// Puts the word of line `n` at a place, or tells what is wrong with it there.
fn put_word(cells: &mut [Option<u64>], n: usize, place: usize, word: u64) -> Option<AsmFault>
    ensures told { Told (put_word n place cells.old (Ok word)) cells.new result }
    ensures fit { (w : ℕ) → word < 2 ^ w → AreFit w cells.old → AreFit w cells.new }
{
    if place >= cells.len() {
        return Some(AsmFault::Place(n));
    }
    match cells[place] {
        None => {
            cells[place] = Some(word);
            None
        }
        Some(_) => Some(AsmFault::Overlap(n)),
    }
}

/// What a line says, for the words of a machine.
fn line_for<'a>(machine: &Machine, line: &'a [u8]) -> Option<Line<'a>>
    ensures { IsLineOf machine.now.desc.word (said_of machine.now.desc.word (parts_of (content line.now))) result }
{
    line_of(machine.shape().w, line)
}

/// Puts what line `n` says, or tells what is wrong with it.
fn place_line(
    machine: &Machine,
    labels: &LabelTable,
    n: usize,
    place: usize,
    line: &Line,
    cells: &mut [Option<u64>],
) -> Option<AsmFault>
    requires formed { IsFormed machine.now.desc.word line.now }
    ensures told { Told (cells_behind machine.now.desc labels.now n place cells.old (said_as line.now)) cells.new result }
    ensures fit { AreFit machine.now.desc.word cells.old → AreFit machine.now.desc.word cells.new }
{
    match line {
        Line::Blank => None,
        Line::At(_) => None,
        Line::Label(name) => label_fault(labels, n, *name),
        Line::Word(word) => put_word(cells, n, place, *word),
        Line::Instr(instr) => match instr_word(machine, labels, n, instr) {
            Err(fault) => Some(fault),
            Ok(word) => put_word(cells, n, place, word),
        },
    }
}

/// Puts the words of a text, or tells the first thing that is wrong with one.
pub fn place_all(
    machine: &Machine,
    labels: &LabelTable,
    bytes: &[u8],
    cells: &mut [Option<u64>],
) -> Option<AsmFault>
    requires len { length bytes.now ≤ most_source_bytes }
    requires formed { result_err (said_from machine.now.desc.word 1 (lines_of bytes.now)) ≡ None }
    ensures told { Told (words_due machine.now.desc labels.now 1 first_place cells.old (said_from machine.now.desc.word 1 (lines_of bytes.now))) cells.new result }
    ensures fit { AreFit machine.now.desc.word cells.old → AreFit machine.now.desc.word cells.new }
{
    let mut n = 1usize;
    let mut place = FIRST_PLACE;
    let mut left = Some(bytes);
    while let Some(text) = left {
        let (line, rest) = split_line(text);
        match line_for(machine, line) {
            None => return Some(AsmFault::Grammar(n)),
            Some(said) => {
                if let Some(fault) = place_line(machine, labels, n, place, &said, cells) {
                    return Some(fault);
                }
                place = place_behind(&said, place);
            }
        }
        n += 1;
        left = rest;
    }
    None
}
