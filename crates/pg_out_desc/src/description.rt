//! What is wrong with a description.
//!
//! A refusal with a place is told there. One that names an instruction, a name or a number is found anew in the tokens. Each
//! error is out of memory.

use crate::grammar::grammar;
use crate::limits::{limit_found, shape};
use crate::patterns::{overlap, pattern};
use crate::signs::no_token;
use crate::widths::{broken_at, misfit_found, misfits_of};
use pg_lang_valid::WidthClash;
use pg_out_place::{
    At, Found, Placed, Sentence, Told, alone, at_place, bytes_from, find_twice, find_unknown,
    instruction, plain, spot_at,
};
use pg_report::DescriptionLine;
use pg_text::{TextFault, TokList, tokens};
use sqlite_items::Items;
use std::alloc::{AllocError, Global};

/// What is wrong with a description, and where.
pub fn told_of_description(
    alloc: Global,
    why: &DescriptionLine,
    bytes: &[u8],
) -> Result<Told, AllocError> {
    match why {
        DescriptionLine::Width(instr, stmt, how) => widths(alloc, bytes, *instr, *stmt, *how),
        _ => {
            let toks = cut(alloc, bytes)?;
            Ok(alone(alloc, one_fault(alloc, why, bytes, toks.as_slice())))
        }
    }
}

/// The tokens of a text, or none where it has a fault.
pub fn cut(alloc: Global, bytes: &[u8]) -> Result<TokList, AllocError> {
    match tokens(alloc, bytes) {
        Ok(toks) => Ok(toks),
        Err(TextFault::Memory) => Err(AllocError),
        Err(_) => Ok(Items::new(alloc)),
    }
}

/// What is wrong with the widths of a description whose statement of this number, in this instruction, is refused for this; and
/// the statements behind it that are at fault too.
fn widths(
    alloc: Global,
    bytes: &[u8],
    instr: usize,
    stmt: usize,
    how: WidthClash,
) -> Result<Told, AllocError> {
    let toks = cut(alloc, bytes)?;
    let misfits = misfits_of(alloc, bytes)?;
    let (first, others) = match misfits.found.as_slice() {
        [first, others @ ..] if first.instr == instr && first.stmt == stmt => {
            (misfit_found(alloc, toks.as_slice(), first), others)
        }
        others => (broken_at(alloc, toks.as_slice(), instr, stmt, how), others),
    };
    let mut more = Vec::new(alloc);
    for misfit in others {
        more.push(misfit_found(alloc, toks.as_slice(), misfit))?;
    }
    Ok(Told {
        first,
        more,
        left: misfits.left,
    })
}

/// What is wrong with a description of these tokens, and where, if it is one fault.
fn one_fault(alloc: Global, why: &DescriptionLine, bytes: &[u8], toks: &[Placed]) -> Found {
    match why {
        DescriptionLine::Long => plain(
            alloc,
            At::Whole,
            "a description has at most 1,048,576 bytes",
        ),
        DescriptionLine::Token(place) => no_token(alloc, bytes, *place),
        DescriptionLine::Deep(place) => plain(
            alloc,
            At::Place(*place),
            too_deep(bytes_from(bytes, *place)),
        ),
        DescriptionLine::Grammar(place) => grammar(alloc, bytes, toks, *place),
        DescriptionLine::Shape => shape(alloc, toks),
        DescriptionLine::Limit(which, instr) => limit_found(alloc, toks, *which, *instr),
        DescriptionLine::Twice(name) => twice(alloc, bytes, toks, name.as_slice()),
        DescriptionLine::Pattern(instr) => pattern(alloc, toks, *instr),
        DescriptionLine::Overlap(one, other) => overlap(alloc, bytes, toks, *one, *other),
        DescriptionLine::Name(instr, name) => unknown(alloc, bytes, toks, *instr, name.as_slice()),
        _ => plain(alloc, At::Whole, "the description is refused"),
    }
}

/// What goes down too many levels where these bytes stand.
fn too_deep(rest: &[u8]) -> &'static str {
    match rest {
        [b'{', ..] => "this block is of level 17: blocks go down 16 levels",
        _ => "this expression is of level 33: expressions go down 32 levels",
    }
}

/// A name that is given twice.
fn twice(alloc: Global, bytes: &[u8], toks: &[Placed], name: &[u8]) -> Found {
    let what = Sentence::new(alloc).name(name);
    match find_twice(toks, name) {
        None => Found {
            at: At::Whole,
            what: what.words(" is given twice"),
        },
        Some(twice) => Found {
            at: At::Place(twice.second),
            what: what
                .words(" is given twice: first on line ")
                .number(spot_at(bytes, twice.first).line),
        },
    }
}

/// A name that means nothing where it stands.
fn unknown(alloc: Global, bytes: &[u8], toks: &[Placed], instr: usize, name: &[u8]) -> Found {
    let what = Sentence::new(alloc).name(name);
    let found = match instruction(toks, instr) {
        None => None,
        Some(instr) => find_unknown(instr, name),
    };
    match found {
        None => Found {
            at: At::Whole,
            what: what.words(" is no field and no let"),
        },
        Some(unknown) => {
            let at = at_place(Some(unknown.place));
            match unknown.given {
                None => Found {
                    at,
                    what: what.words(" is no field and no let of this instruction"),
                },
                Some(given) => Found {
                    at,
                    what: what
                        .words(
                            " is not visible here: its let is visible from the next statement to the end of its block, on line ",
                        )
                        .number(spot_at(bytes, given).line),
                },
            }
        }
    }
}
