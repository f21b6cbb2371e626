//! What the names, fields, labels and values of a line of a source mean for a machine, and what is wrong with them.
//!
//! The machine is known by the tokens of its description, which was read before the source. Each error is out of memory.

use crate::held::{Held, HeldLine, first_part, line_of, part_offset};
use crate::labels::{first_line_of, label_of, near_label, place_of_label};
use pg_image::{content, is_gap};
use pg_out_desc::{cut, field_width, next_field, pattern_named, push_fields};
use pg_out_place::{At, Found, Placed, Sentence, is_near, is_word, plain, word_of};
use pg_report::SourceLine;
use pg_text::dec_number;
use std::alloc::{AllocError, Global};

/// A line of a source, without its comment, of a machine whose description has these tokens.
#[derive(Clone, Copy)]
struct Said<'t> {
    toks: &'t [Placed],
    /// The bytes of the source that are held.
    bytes: &'t [u8],
    line: HeldLine<'t>,
}

/// A field as a line gives it, and where.
#[derive(Clone, Copy)]
struct Operand<'t> {
    letter: u8,
    value: &'t [u8],
    place: usize,
}

/// What is wrong with the names, fields, labels or values of a line, and where.
pub fn meant(
    alloc: Global,
    why: &SourceLine,
    held: &Held<'_>,
    line: u64,
) -> Result<Found, AllocError> {
    let Some(found) = line_of(held, line) else {
        return Ok(plain(
            alloc,
            At::Line(line),
            "this line means nothing for the machine",
        ));
    };
    let toks = cut(alloc, held.description)?;
    let said = Said {
        toks: toks.as_slice(),
        bytes: held.bytes,
        line: HeldLine {
            start: found.start,
            bytes: content(found.bytes),
        },
    };
    match why {
        SourceLine::Name(_) => unknown_name(alloc, said),
        SourceLine::Field(_) => Ok(other_fields(alloc, said)),
        SourceLine::Label(_) => Ok(label_fault(alloc, said, line)),
        _ => Ok(out_of_range(alloc, said)),
    }
}

impl<'t> Said<'t> {
    /// The first part, which is the name of an instruction or gives a label.
    fn name(self) -> &'t [u8] {
        first_part(self.line.bytes)
    }

    /// Where the first part stands.
    fn at(self) -> At {
        At::Place(self.line.start.saturating_add(part_offset(self.line.bytes)))
    }

    /// The pattern of the instruction, or no byte.
    fn pattern(self) -> &'t [u8] {
        match pattern_named(self.toks, self.name()) {
            None => &[],
            Some(pattern) => pattern,
        }
    }
}

/// The field that a part gives.
fn operand_of(part: &[u8], place: usize) -> Option<Operand<'_>> {
    match part {
        [letter, b'=', value @ ..] => Some(Operand {
            letter: *letter,
            value,
            place,
        }),
        _ => None,
    }
}

/// An instruction that the description has not: the names that are near, or else the first ones.
fn unknown_name(alloc: Global, said: Said<'_>) -> Result<Found, AllocError> {
    let names = names_of(alloc, said.toks)?;
    let near = near_names(alloc, names.as_slice(), said.name())?;
    let what = Sentence::new(alloc)
        .words("the description has no instruction ")
        .name(said.name());
    let what = if near.is_empty() {
        listed(what.words(": it has "), names.as_slice())
    } else {
        listed(what.words(": near is "), near.as_slice())
    };
    Ok(Found {
        at: said.at(),
        what,
    })
}

/// The names of the instructions.
fn names_of<'t>(alloc: Global, toks: &'t [Placed]) -> Result<Vec<&'t [u8]>, AllocError> {
    let mut names = Vec::new(alloc);
    let mut is_behind = false;
    for tok in toks {
        if is_behind {
            if let Some(name) = word_of(tok) {
                names.push(name)?;
            }
        }
        is_behind = is_word(tok, b"instr");
    }
    Ok(names)
}

/// Those of some names that are near to this one.
fn near_names<'t>(
    alloc: Global,
    names: &[&'t [u8]],
    name: &[u8],
) -> Result<Vec<&'t [u8]>, AllocError> {
    let mut near = Vec::new(alloc);
    for other in names {
        if is_near(name, *other) {
            near.push(*other)?;
        }
    }
    Ok(near)
}

/// The most names that are listed.
const MOST_NAMES: usize = 8;

/// And these names, `..` for those past the eighth.
fn listed(what: Sentence, names: &[&[u8]]) -> Sentence {
    if names.is_empty() {
        return what.words("none");
    }
    let mut what = what;
    for (at, name) in names.iter().take(MOST_NAMES).enumerate() {
        if at > 0 {
            what = what.words(", ");
        }
        what = what.name(*name);
    }
    if names.len() > MOST_NAMES {
        what.words(" ..")
    } else {
        what
    }
}

/// Fields that are not those of the pattern, each once, from the highest bit.
fn other_fields(alloc: Global, said: Said<'_>) -> Found {
    let what = Sentence::new(alloc)
        .words("this instruction is written `")
        .text(said.name());
    let what = push_fields(what, said.pattern()).words("`");
    let at = match first_other(said) {
        None => said.at(),
        Some(place) => At::Place(place),
    };
    Found { at, what }
}

/// Where the first field stands that is not the next one of the pattern.
fn first_other(said: Said<'_>) -> Option<usize> {
    let mut left = said.pattern();
    let mut place = said.line.start;
    for part in said.line.bytes.split(|byte| is_gap(*byte)) {
        if let Some(operand) = operand_of(part, place) {
            match next_field(left) {
                Some((letter, behind)) if letter == operand.letter => left = behind,
                _ => return Some(place),
            }
        }
        place = place.saturating_add(part.len()).saturating_add(1);
    }
    None
}

/// A label that no line gives, or that an earlier line gave.
fn label_fault(alloc: Global, said: Said<'_>, line: u64) -> Found {
    let what = Sentence::new(alloc);
    if let Some(name) = label_of(said.line.bytes) {
        let what = what.words("the label ").name(name);
        let what = match first_line_of(said.bytes, name) {
            Some(first) if first < line => what
                .words(" is given twice: first on line ")
                .number(first),
            _ => what.words(" is given twice"),
        };
        return Found {
            at: said.at(),
            what,
        };
    }
    match used_label(said) {
        None => plain(alloc, said.at(), "a label is used that no line gives"),
        Some(operand) => {
            let what = what.words("no line gives the label ").name(operand.value);
            let what = match near_label(said.bytes, operand.value) {
                None => what,
                Some(near) => what.words(": near is ").name(near),
            };
            Found {
                at: At::Place(operand.place.saturating_add(2)),
                what,
            }
        }
    }
}

/// The first field of a line whose value is a label that no line gives.
fn used_label<'t>(said: Said<'t>) -> Option<Operand<'t>> {
    let mut place = said.line.start;
    for part in said.line.bytes.split(|byte| is_gap(*byte)) {
        if let Some(operand) = operand_of(part, place) {
            if dec_number(operand.value).is_none()
                && first_line_of(said.bytes, operand.value).is_none()
            {
                return Some(operand);
            }
        }
        place = place.saturating_add(part.len()).saturating_add(1);
    }
    None
}

/// A value that does not fit, and the width of its field.
#[derive(Clone, Copy)]
struct Excess<'t> {
    operand: Operand<'t>,
    value: u64,
    width: u64,
}

/// The greatest number of so many bits.
fn greatest(width: u64) -> u64 {
    if width < 64 {
        (1u64 << width).saturating_sub(1)
    } else {
        u64::MAX
    }
}

/// The value of a field, if it passes what the field takes.
fn excess_of<'t>(said: Said<'t>, operand: Operand<'t>) -> Option<Excess<'t>> {
    let value = match dec_number(operand.value) {
        Some(value) => value,
        None => match place_of_label(said.bytes, operand.value) {
            None => return None,
            Some(value) => value,
        },
    };
    let width = field_width(said.pattern(), operand.letter);
    if value > greatest(width) {
        Some(Excess {
            operand,
            value,
            width,
        })
    } else {
        None
    }
}

/// The first value of a line that does not fit its field.
fn first_excess<'t>(said: Said<'t>) -> Option<Excess<'t>> {
    let mut place = said.line.start;
    for part in said.line.bytes.split(|byte| is_gap(*byte)) {
        if let Some(operand) = operand_of(part, place) {
            if let Some(excess) = excess_of(said, operand) {
                return Some(excess);
            }
        }
        place = place.saturating_add(part.len()).saturating_add(1);
    }
    None
}

/// A value that its field cannot hold: the value, the field, its width and what it takes.
fn out_of_range(alloc: Global, said: Said<'_>) -> Found {
    let Some(excess) = first_excess(said) else {
        return plain(alloc, said.at(), "a value does not fit its field");
    };
    let what = Sentence::new(alloc);
    let what = if dec_number(excess.operand.value).is_some() {
        what.number(excess.value)
    } else {
        what.words("the label ")
            .name(excess.operand.value)
            .words(", cell ")
            .number(excess.value)
            .words(",")
    };
    Found {
        at: At::Place(excess.operand.place.saturating_add(2)),
        what: what
            .words(" does not fit the field ")
            .name([excess.operand.letter].as_slice())
            .words(" of ")
            .number(excess.width)
            .words(if excess.width == 1 {
                " bit, 0 to "
            } else {
                " bits, 0 to "
            })
            .number(greatest(excess.width)),
    }
}
