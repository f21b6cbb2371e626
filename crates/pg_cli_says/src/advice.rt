//! What is to be done where a command ends so, in lines. Each error is out of memory.

use crate::line::Line;
use crate::named::{Named, Room};
use crate::program::Program;
use std::alloc::{AllocError, Global};

/// The most bytes of a certificate of which nothing is said.
const MOST_UNSAID: u64 = 10_000_000;

/// The most bytes of a certificate that `pgv verify` reads.
const MOST_READ: u64 = 1 << 28;

/// A question that is open, by its names.
#[derive(Clone, Copy)]
pub struct Open<'a> {
    /// The instruction.
    pub instr: &'a str,
    /// The kind.
    pub kind: &'a str,
}

/// The question that a verdict leaves open, if these last bytes of standard output end with one.
pub fn open_of(last: &str) -> Option<Open<'_>> {
    let line = last.lines().last()?;
    let (instr, kind) = line.strip_prefix("open ")?.split_once(' ')?;
    Some(Open { instr, kind })
}

/// The command that makes a certificate.
fn check(line: Line, desc: &str, cert: &str, is_hybrid: bool, budget: &str) -> Line {
    line.words(if is_hybrid {
        "pgv hcheck "
    } else {
        "pgv check "
    })
    .word(desc)
    .words(" --cert ")
    .word(cert)
    .words(budget)
}

/// That a certificate is of another description, perhaps of this one as it was before, and how it is made anew.
pub fn stale(
    alloc: Global,
    program: Program,
    desc: &str,
    cert: &str,
    is_hybrid: bool,
) -> Result<Vec<u8>, AllocError> {
    let line = Line::of(alloc, program)
        .word(desc)
        .words(" may have changed since ")
        .word(cert)
        .words(" was made: ");
    check(line, desc, cert, is_hybrid, "")
        .words(" makes it anew")
        .end()
}

/// That there is no room, and what makes less wanted.
pub fn no_room(
    alloc: Global,
    program: Program,
    room: Room,
    wanted: u64,
    free: u64,
) -> Result<Vec<u8>, AllocError> {
    Line::of(alloc, program)
        .words("no room: ")
        .number(wanted)
        .words(" cells wanted, ")
        .number(free)
        .words(" free: take ")
        .words(less(room))
        .words(", or a greater size in the description")
        .end()
}

/// What makes less room wanted.
fn less(room: Room) -> &'static str {
    match room {
        Room::Guest => "a smaller --grant",
        Room::Guests => "a smaller --grant, fewer images",
        Room::Monitors => "a smaller --grant, a smaller --depth",
        Room::Saved => "a smaller --skip",
    }
}

/// What says why a machine is refused.
pub fn explain(
    alloc: Global,
    program: Program,
    desc: &str,
    cert: &str,
) -> Result<Vec<u8>, AllocError> {
    Line::of(alloc, program)
        .words("pg_explain ")
        .word(desc)
        .words(" ")
        .word(cert)
        .words(" says why, and what mends the machine")
        .end()
}

/// That a greater budget may settle an open question.
pub fn more_budget(
    alloc: Global,
    program: Program,
    open: &Open<'_>,
    desc: &str,
    cert: &str,
    is_hybrid: bool,
) -> Result<Vec<u8>, AllocError> {
    let line = Line::of(alloc, program)
        .words(open.instr)
        .words(" ")
        .words(open.kind)
        .words(" is open: a greater budget may settle it: ");
    check(
        line,
        desc,
        cert,
        is_hybrid,
        " --budget K, K up to 1,000,000",
    )
    .end()
}

/// That another solver may settle an open question.
pub fn other_solver(
    alloc: Global,
    program: Program,
    open: &Open<'_>,
    desc: &str,
    cert: &str,
) -> Result<Vec<u8>, AllocError> {
    Line::of(alloc, program)
        .words("or another solver: pg_dimacs ")
        .word(desc)
        .words(" ")
        .words(open.instr)
        .words(" ")
        .words(open.kind)
        .words(" writes its clauses, and pg_import ")
        .word(desc)
        .words(" ")
        .word(cert)
        .words(" ")
        .words(open.instr)
        .words(" ")
        .words(open.kind)
        .words(" PROOF FILE takes what it finds")
        .end()
}

/// How long a certificate is that was saved, where that is worth a word.
pub fn long(
    alloc: Global,
    program: Program,
    named: &Named<'_>,
    bytes: u64,
) -> Result<Option<Vec<u8>>, AllocError> {
    match named.saved {
        Some(cert) if MOST_UNSAID < bytes => {
            let line = Line::of(alloc, program)
                .word(cert)
                .words(" has ")
                .number(bytes)
                .words(" bytes")
                .words(past(bytes))
                .words(shorter(named.has_budget));
            Ok(Some(line.end()?))
        }
        _ => Ok(None),
    }
}

/// What is said of a certificate that is too long to be read.
fn past(bytes: u64) -> &'static str {
    if MOST_READ < bytes {
        ", and pgv verify reads at most 268,435,456"
    } else {
        ""
    }
}

/// What makes a certificate shorter.
fn shorter(has_budget: bool) -> &'static str {
    if has_budget {
        ": a smaller --budget makes it shorter"
    } else {
        ""
    }
}

/// That a description has no instruction of a name.
pub fn no_instr(alloc: Global, program: Program, named: &Named<'_>) -> Result<Vec<u8>, AllocError> {
    Line::of(alloc, program)
        .word(named.desc.unwrap_or("the description"))
        .words(" has no instruction ")
        .shown(named.instr.unwrap_or(""))
        .end()
}

/// That a certificate is of a family without a kind.
pub fn no_kind(
    alloc: Global,
    program: Program,
    named: &Named<'_>,
    is_hybrid: bool,
) -> Result<Vec<u8>, AllocError> {
    Line::of(alloc, program)
        .word(named.cert.unwrap_or("the certificate"))
        .words(kinds_of(is_hybrid))
        .end()
}

/// Which kinds a certificate has.
fn kinds_of(is_hybrid: bool) -> &'static str {
    if is_hybrid {
        " is of hcheck: its kinds are privileged, ucontrol, ulocation and ubound"
    } else {
        " is of check: its kinds are privileged, control, mode, location and bound"
    }
}
