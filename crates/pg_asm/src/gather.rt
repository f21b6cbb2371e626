//! The forms of lines, and their labels.
//!
//! One reading of the whole text: a line of no form comes before what else may be wrong with lines, and a label may be used before the
//! line that gives it.

ghost use Rattle.std.specs.Prelude.{◌≡◌, ◌+◌, ◌%◌, ◌<◌, ◌≤◌, ◌^◌, length, OnOk};
ghost use Rattle.pg_image.specs.Images.{lines_of};
ghost use Rattle.pg_asm.specs.Lines.{said_as};
ghost use Rattle.pg_asm.specs.Sources.{most_source_bytes, first_place, place_behind, labels_behind, no_labels, said_from, IsSourceDue};
ghost use Rattle.pg_asm.specs.Passes.{labels_due};

use crate::fault::AsmFault;
use crate::labels::LabelTable;
use crate::line::{Line, line_of};
use pg_image::split_line;
use std::alloc::{AllocError, Global};

/// The place of the first word: the cells before it are those of traps.
pub const FIRST_PLACE: usize = 2;

/// The place of the next word, behind a line.
pub fn place_behind(line: &Line, place: usize) -> usize
    requires { place < 2 ^ 63 }
    ensures { result ≡ place_behind (said_as line.now) place }
{
    match line {
        Line::Blank => place,
        Line::At(n) => *n,
        Line::Label(_) => place,
        Line::Word(_) => place + 1,
        Line::Instr(_) => place + 1,
    }
}

/// Adds the label of line `n`, if it gives one.
fn add_line(
    alloc: Global,
    n: usize,
    place: usize,
    line: &Line,
    labels: &mut LabelTable,
) -> Result<(), AllocError>
    ensures { OnOk result (labels.new ≡ labels_behind (said_as line.now) n place labels.old) }
{
    match line {
        Line::Blank => Ok(()),
        Line::At(_) => Ok(()),
        Line::Label(name) => labels.give(alloc, *name, n, place),
        Line::Word(_) => Ok(()),
        Line::Instr(_) => Ok(()),
    }
}

/// The labels of a text, or its first line of no form.
pub fn labels_of(alloc: Global, w: u32, bytes: &[u8]) -> Result<LabelTable, AsmFault>
    requires bytes { w % 8 ≡ 0 }
    requires most { w ≤ 64 }
    requires len { length bytes.now ≤ most_source_bytes }
    ensures { IsSourceDue result (labels_due 1 first_place no_labels (said_from w 1 (lines_of bytes.now))) }
{
    let mut labels = LabelTable::new(alloc);
    let mut n = 1usize;
    let mut place = FIRST_PLACE;
    let mut left = Some(bytes);
    while let Some(text) = left {
        let (line, rest) = split_line(text);
        match line_of(w, line) {
            None => return Err(AsmFault::Grammar(n)),
            Some(said) => {
                match add_line(alloc, n, place, &said, &mut labels) {
                    Err(_) => return Err(AsmFault::Memory),
                    Ok(()) => {}
                }
                place = place_behind(&said, place);
            }
        }
        n += 1;
        left = rest;
    }
    Ok(labels)
}
