//! Widths that do not fit, of all statements of a description.
//!
//! A statement is found in the tree (`misfits`), and its place in the tokens, whose expressions are numbered alike.

use crate::grammar::sign_text;
use crate::misfits::{Misfit, Misfits, Use, find_misfits};
use pg_lang_valid::WidthClash;
use pg_out_place::{
    At, Found, Placed, Sentence, at_place, expression, first_place, instruction, operation,
    operator, statement,
};
use pg_read::{DescFault, read_desc};
use std::alloc::{AllocError, Global};

/// The most statements that are told: the first, and 20 more.
const MOST_TOLD: usize = 21;

/// The statements of a description that break the table of widths; none where it cannot be read.
pub fn misfits_of(alloc: Global, bytes: &[u8]) -> Result<Misfits, AllocError> {
    match read_desc(alloc, bytes) {
        Ok(desc) => find_misfits(alloc, &desc, MOST_TOLD),
        Err(DescFault::Memory) => Err(AllocError),
        Err(_) => Ok(Misfits {
            found: Vec::new(alloc),
            left: 0,
        }),
    }
}

/// The tokens of a statement, from its first one on.
fn stmt_of(toks: &[Placed], instr: usize, stmt: usize) -> Option<&[Placed]> {
    match instruction(toks, instr) {
        None => None,
        Some(instr) => statement(instr, stmt),
    }
}

/// The tokens from the part on that breaks the table.
fn part_of<'t>(toks: &'t [Placed], misfit: &Misfit) -> &'t [Placed] {
    match stmt_of(toks, misfit.instr, misfit.stmt) {
        None => &[],
        Some(stmt) => match expression(stmt, misfit.part.number) {
            None => stmt,
            Some(part) => part,
        },
    }
}

/// Where a statement breaks the table of widths, where it is the one of this number in this instruction.
pub fn misfit_found(alloc: Global, toks: &[Placed], misfit: &Misfit) -> Found {
    let part = part_of(toks, misfit);
    let what = Sentence::new(alloc);
    match (misfit.how, operator(part)) {
        (WidthClash::Sides(one, other), Some(sign)) => Found {
            at: At::Place(sign.1.from),
            what: sides_row(what, sign, one, other),
        },
        _ => Found {
            at: at_place(first_place(part)),
            what: row_words(what, misfit.how, misfit.part.by),
        },
    }
}

/// A statement that breaks the table in a way that is not found anew.
pub fn broken_at(
    alloc: Global,
    toks: &[Placed],
    instr: usize,
    stmt: usize,
    how: WidthClash,
) -> Found {
    let place = match stmt_of(toks, instr, stmt) {
        None => None,
        Some(stmt) => first_place(stmt),
    };
    Found {
        at: at_place(place),
        what: row_words(Sentence::new(alloc), how, Use::Any),
    }
}

/// And so many bits.
fn count_bits(what: Sentence, count: u64) -> Sentence {
    what.number(count)
        .words(if count == 1 { " bit" } else { " bits" })
}

/// And how many bits two sides have.
fn sides(what: Sentence, one: u64, other: u64) -> Sentence {
    count_bits(
        what.words(", and these have ").number(one).words(" and "),
        other,
    )
}

/// The sides of a sign that wants them alike.
fn sides_row(what: Sentence, sign: &Placed, one: u64, other: u64) -> Sentence {
    let sign = match operation(sign) {
        None => "",
        Some(sign) => sign_text(sign),
    };
    sides(
        what.words("the sides of `")
            .words(sign)
            .words("` have one width"),
        one,
        other,
    )
}

/// What an expression is for.
fn use_text(by: Use) -> &'static str {
    match by {
        Use::Address => "an address has ",
        Use::Cell => "a cell takes ",
        Use::Pc => "`pc` takes ",
        Use::Rel => "`rel` takes ",
        Use::Bound => "`bound` takes ",
        Use::Mode => "`mode` takes ",
        Use::Condition => "a condition has ",
        Use::Any => "due here are ",
    }
}

/// How a row of the table is broken, by an expression for this use.
fn row_words(what: Sentence, how: WidthClash, by: Use) -> Sentence {
    match how {
        WidthClash::Number(value, width) => number_row(what, value, width),
        WidthClash::Unnamed => what.words("a name of this statement has no width"),
        WidthClash::Wanted(wanted, width) => count_bits(what.words(use_text(by)), wanted)
            .words(", and this has ")
            .number(width),
        WidthClash::Sides(one, other) => sides(
            what.words("the sides of a sign have one width"),
            one,
            other,
        ),
        WidthClash::Joined(one, other) => sides(
            what.words("`cat` joins at most 64 bits"),
            one,
            other,
        ),
        WidthClash::Cut(width, high, low) => cut_row(what, width, high, low),
        WidthClash::Widened(width, to) => widened_row(what, width, to),
        WidthClash::Choices(one, other) => sides(
            what.words("the choices of `sel` have one width"),
            one,
            other,
        ),
    }
}

/// A number that does not fit its bits.
fn number_row(what: Sentence, value: u64, width: u64) -> Sentence {
    if width == 0 || 64 < width {
        what.words("a number has 1 to 64 bits")
    } else {
        count_bits(what.number(value).words(" does not fit "), width)
    }
}

/// Bits that are not there.
fn cut_row(what: Sentence, width: u64, high: u64, low: u64) -> Sentence {
    count_bits(
        what.words("`cut` takes a high bit and a low one: there are no bits ")
            .number(high)
            .words(" to ")
            .number(low)
            .words(" in "),
        width,
    )
}

/// Bits that cannot be widened so.
fn widened_row(what: Sentence, width: u64, to: u64) -> Sentence {
    count_bits(what.words("what has "), width)
        .words(" is not widened to ")
        .number(to)
        .words(": that goes up, to 64 at most")
}
