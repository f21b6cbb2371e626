//! Where a refused file is at fault, for who wrote it.
//!
//! `point_out` finds the place of a refusal and says what is wrong in words; `three_lines` lays it out. Each error is out of
//! memory.

ghost use Rattle.std.specs.Prelude.{◌≡◌, is_some, IfOk};
ghost use Rattle.pg_out_faults.specs.Refusals.{is_of_file};

use crate::held::Held;
use crate::image::image;
use crate::lines::{certificate, saved};
use crate::sources::source;
use pg_out_desc::told_of_description;
use pg_out_place::{At, Found, Shown, Text, Told, alone, show, spot_at};
use pg_report::RefusalLine;
use std::alloc::{AllocError, Global};

/// A place of a file.
#[derive(Clone, Copy)]
pub struct Place {
    /// The line, from 1.
    pub line: u64,
    /// The column, in characters, from 1.
    pub column: u64,
}

/// What is wrong, and where.
#[derive(Drop)]
pub struct Point {
    /// What is wrong.
    pub what: Vec<u8>,
    /// Where; nothing where it is the file as a whole.
    pub place: Option<Place>,
    /// The line there, where it is held.
    pub shown: Option<Shown>,
}

/// What is wrong with a file.
#[derive(Drop)]
pub struct Pointed {
    /// What it is refused for.
    pub first: Point,
    /// What else is wrong with it of the same kind.
    pub more: Vec<Point>,
    /// How many more faults of that kind it has.
    pub left: u64,
}

/// What is wrong with a refused file, and where, found from the bytes of it that are held. Nothing where no file is refused,
/// which is so of room alone.
pub fn point_out(
    alloc: Global,
    refusal: &RefusalLine,
    held: &Held<'_>,
) -> Result<Option<Pointed>, AllocError>
    ensures told { IfOk result (λ pointed. is_some pointed ≡ is_of_file refusal.now) }
{
    let told = match refusal {
        RefusalLine::Description(why) => told_of_description(alloc, why, held.bytes)?,
        RefusalLine::Image(_, why) => alone(alloc, image(alloc, why, held)?),
        RefusalLine::Certificate(why) => alone(alloc, certificate(alloc, why, held)),
        RefusalLine::Source(why) => alone(alloc, source(alloc, why, held)?),
        RefusalLine::Saved(why) => alone(alloc, saved(alloc, why, held)),
        RefusalLine::Room(_, _) => return Ok(None),
    };
    Ok(Some(all_shown(alloc, told, held)?))
}

/// All that is told, with the lines.
fn all_shown(alloc: Global, told: Told, held: &Held<'_>) -> Result<Pointed, AllocError> {
    let first = shown_at(alloc, told.first, held)?;
    let mut more = Vec::new(alloc);
    for found in told.more {
        more.push(shown_at(alloc, found, held)?)?;
    }
    Ok(Pointed {
        first,
        more,
        left: told.left,
    })
}

/// What is found, with its line.
fn shown_at(alloc: Global, found: Found, held: &Held<'_>) -> Result<Point, AllocError> {
    let what = found.what.finish()?;
    match found.at {
        At::Whole => Ok(Point {
            what,
            place: None,
            shown: None,
        }),
        At::Line(line) => Ok(Point {
            what,
            place: Some(Place { line, column: 1 }),
            shown: None,
        }),
        At::Place(place) => {
            let spot = spot_at(held.bytes, place);
            let shown = show(alloc, &spot)?;
            Ok(Point {
                what,
                place: Some(Place {
                    line: spot.line.saturating_add(held.feeds),
                    column: spot.column,
                }),
                shown: Some(shown),
            })
        }
    }
}

/// Pushes a place between colons.
fn push_place(text: &mut Text, place: Place) {
    text.push(b":");
    text.push_number(place.line);
    text.push(b":");
    text.push_number(place.column);
}

/// Pushes a file's name, each control character of it as `?`.
fn push_name(text: &mut Text, name: &[u8]) {
    for byte in name {
        text.push(&[if byte.is_ascii_control() { b'?' } else { *byte }]);
    }
}

/// Pushes a line and the caret below it.
fn push_shown(text: &mut Text, shown: &Shown) {
    text.push(shown.line.as_slice());
    text.push(b"\n");
    text.push(shown.caret.as_slice());
    text.push(b"\n");
}

/// Pushes what is wrong: `NAME:LINE:COLUMN: WHAT`, and where the line is held that line, and `^` below the place.
fn push_point(text: &mut Text, name: &[u8], point: &Point) {
    push_name(text, name);
    if let Some(place) = point.place {
        push_place(text, place);
    }
    text.push(b": ");
    text.push(point.what.as_slice());
    text.push(b"\n");
    if let Some(shown) = &point.shown {
        push_shown(text, shown);
    }
}

/// Pushes how many more statements there are whose widths do not fit, which are the faults that are told of more than one.
fn push_left(text: &mut Text, name: &[u8], left: u64) {
    push_name(text, name);
    text.push(b": and ");
    text.push_number(left);
    text.push(if left == 1 {
        b" more statement whose widths do not fit\n"
    } else {
        b" more statements whose widths do not fit\n"
    });
}

/// The text for a file of this name, three lines for each fault whose line is held: `NAME:LINE:COLUMN: WHAT`, that line, and `^`
/// below the place; and last how many more faults there are, if there are more.
pub fn three_lines(alloc: Global, name: &[u8], pointed: &Pointed) -> Result<Vec<u8>, AllocError> {
    let mut text = Text::new(alloc);
    push_point(&mut text, name, &pointed.first);
    for point in pointed.more.as_slice() {
        push_point(&mut text, name, point);
    }
    if pointed.left > 0 {
        push_left(&mut text, name, pointed.left);
    }
    text.finish()
}
