//! What is wrong with words that a program does not take.

use crate::form::{Form, OptionForm, Part, Times, Value};
use crate::side::Side;
use crate::table::form_of;
use pg_cert::reading::kind;
use pg_cli_says::Line;
use std::alloc::{AllocError, Global};

/// The most cells of a machine.
const MOST_CELLS: u64 = 1_048_575;

/// How often options with cells may stand there, all together.
const MOST_VIEWS: usize = 16;

/// What is wrong with words that a program does not take, its name first, in a line; none where that cannot be said.
pub fn complaint(
    alloc: Global,
    side: Side,
    words: &[String],
) -> Result<Option<Vec<u8>>, AllocError> {
    let [_, words @ ..] = words else {
        return Ok(None);
    };
    match first_wrong(form_of(side, words), words) {
        None => Ok(None),
        Some(wrong) => Ok(Some(told(Line::of(alloc, side.program()), wrong).end()?)),
    }
}

/// The first thing that is wrong with words, if something is.
fn first_wrong<'a>(form: &Form, words: &'a [String]) -> Option<Wrong<'a>> {
    let mut left = words;
    let mut passed = 0usize;
    while let Some((part, behind)) = form.part(left) {
        if let Some(wrong) = wrong_part(form, words, part, passed) {
            return Some(wrong);
        }
        if let Part::Place(_) = part {
            passed = passed.saturating_add(1);
        }
        left = behind;
    }
    match missing(form, words, passed) {
        None => None,
        Some(due) => Some(Wrong::Missing(due)),
    }
}

/// What is wrong with a part of the words.
#[derive(Clone, Copy)]
enum Wrong<'a> {
    /// A word that is due and not there.
    Missing(&'static str),
    /// A word that is not expected.
    Unexpected(&'a str),
    /// An option without its value.
    Cut(OptionForm),
    /// An option that stands there twice.
    Twice(OptionForm),
    /// A value that an option does not take.
    Value(OptionForm, &'a str),
    /// An option beside one of this name.
    Beside(OptionForm, &'static str),
    /// More options with cells than may stand there.
    Views,
    /// A word that is no kind.
    Kind(&'a str),
}

/// What is wrong with a part of the words, before which so many stand in places.
fn wrong_part<'a>(
    form: &Form,
    words: &[String],
    part: Part<'a>,
    passed: usize,
) -> Option<Wrong<'a>> {
    match part {
        Part::Unknown(word) => Some(Wrong::Unexpected(word)),
        Part::Cut(option) => Some(Wrong::Cut(option)),
        Part::Place(word) => match form.places.get(passed).copied() {
            None => Some(Wrong::Unexpected(word)),
            Some("KIND") if kind(word.as_bytes()).is_none() => Some(Wrong::Kind(word)),
            Some(_) => None,
        },
        Part::Given(option, _) if option.times != Times::Often && 1 < count(words, option.name) => {
            Some(Wrong::Twice(option))
        }
        Part::Given(option, value) if !is_value(form, words, option.value, value) => {
            Some(Wrong::Value(option, value))
        }
        Part::Given(option, _) if option.times == Times::Often && are_many(words) => {
            Some(Wrong::Views)
        }
        Part::Given(option, _) => beside(words, option).map(|other| Wrong::Beside(option, other)),
    }
}

/// How often a word stands there.
fn count(words: &[String], name: &str) -> usize {
    words.iter().filter(|word| word.as_str() == name).count()
}

/// The name of an option that stands there, beside which another one may not stand.
fn beside(words: &[String], option: OptionForm) -> Option<&'static str> {
    option
        .against
        .iter()
        .find(|other| 0 < count(words, other))
        .copied()
}

/// Whether an option takes a value.
fn is_value(form: &Form, words: &[String], due: Value, value: &str) -> bool {
    match due {
        Value::Nothing | Value::File => true,
        Value::Number(least, most) => is_number(value, least, most),
        Value::End => is_end(value),
        Value::Cells => are_cells(value, grant(form, words)),
        Value::Bytes => are_bytes(value, grant(form, words)),
    }
}

/// Whether a word is a number of a range.
fn is_number(word: &str, least: u64, most: u64) -> bool {
    match word.parse::<u64>() {
        Ok(number) => least <= number && number <= most,
        Err(_) => false,
    }
}

/// Whether a word says when a run ends.
fn is_end(word: &str) -> bool {
    match word.strip_prefix("P=") {
        Some(address) => is_number(address, 0, MOST_CELLS),
        None => word == "still" || word == "trap",
    }
}

/// How many cells the words grant, at most.
fn grant(form: &Form, words: &[String]) -> u64 {
    match form.value(words, "--grant") {
        Some(cells) => cells.parse::<u64>().unwrap_or(MOST_CELLS),
        None => MOST_CELLS,
    }
}

/// Whether a word names cells of a guest of so many: `A..B`.
fn are_cells(word: &str, cells: u64) -> bool {
    match word.split_once("..") {
        None => false,
        Some((from, to)) => match (from.parse::<u64>(), to.parse::<u64>()) {
            (Ok(from), Ok(to)) => from < to && to <= cells,
            _ => false,
        },
    }
}

/// Whether a word names such cells, and how many bits of each, where it says that: `A..B` or `A..B:BITS`.
fn are_bytes(word: &str, cells: u64) -> bool {
    match word.split_once(':') {
        None => are_cells(word, cells),
        Some((span, bits)) => match bits.parse::<u64>() {
            Ok(bits) => bits % 8 == 0 && 8 <= bits && bits <= 64 && are_cells(span, cells),
            Err(_) => false,
        },
    }
}

/// Whether more options with cells stand there than may.
fn are_many(words: &[String]) -> bool {
    MOST_VIEWS < count(words, "--show").saturating_add(count(words, "--text"))
}

/// What has to be there and is not, where so many words stand in places.
fn missing(form: &Form, words: &[String], passed: usize) -> Option<&'static str> {
    if passed < form.least {
        return form.places.get(passed).copied();
    }
    form.options
        .iter()
        .find(|option| option.times == Times::Once && count(words, option.name) == 0)
        .map(|option| option.shown)
}

/// A line, and what is wrong.
fn told(line: Line, wrong: Wrong<'_>) -> Line {
    match wrong {
        Wrong::Missing(due) => line
            .words("the following required argument was not provided: ")
            .words(due),
        Wrong::Unexpected(word) => line
            .words("unexpected argument ")
            .shown(word)
            .words(" found"),
        Wrong::Cut(option) => line
            .words("a value is required for ")
            .shown(option.shown)
            .words(" but none was supplied"),
        Wrong::Twice(option) => line
            .words("the argument ")
            .shown(option.shown)
            .words(" cannot be used multiple times"),
        Wrong::Value(option, value) => due(
            line.words("invalid value ")
                .shown(value)
                .words(" for ")
                .shown(option.shown)
                .words(": "),
            option.value,
        ),
        Wrong::Beside(option, other) => line
            .words("the argument ")
            .shown(option.shown)
            .words(" cannot be used with ")
            .shown(other),
        Wrong::Views => line.words(
            "the arguments '--show' and '--text' cannot be used more than 16 times in all",
        ),
        Wrong::Kind(word) => line.words("invalid value ").shown(word).words(
            " for 'KIND': the kinds are privileged, control, mode, location, bound, ucontrol, ulocation and ubound",
        ),
    }
}

/// A line, and what value is due.
fn due(line: Line, value: Value) -> Line {
    match value {
        Value::Nothing | Value::File => line,
        Value::Number(least, most) => line
            .words("a number from ")
            .number(least)
            .words(" to ")
            .number(most)
            .words(" is due"),
        Value::End => line
            .words("still, trap or P=A is due, A from 0 to ")
            .number(MOST_CELLS),
        Value::Cells => line.words("A below B, and B at most G are due"),
        Value::Bytes => line.words(
            "A below B, B at most G, and BITS of 8, 16, 24, 32, 40, 48, 56 or 64 are due",
        ),
    }
}
