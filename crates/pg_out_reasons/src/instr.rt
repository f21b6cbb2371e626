//! One instruction of a report. Each error is out of memory.

ghost use Rattle.std.specs.Prelude.{◌≡◌, ◌*◌, ◌<◌, length};
ghost use Rattle.pg_cert.specs.Verdicts.{kind_count};

use crate::pair::{Pair, push_pair, push_states};
use crate::part::Wish;
use crate::push::{push_name, push_word};
use pg_cert::{Mark, Report};
use pg_mach_ready::Machine;
use pg_out_guarded::marks_at;
use pg_out_pair::{Explained, explain, readable, words_part};
use pg_out_place::Text;
use pg_type::Kind;
use pg_word::Sparse;
use std::alloc::{AllocError, Global};

/// Pushes the pairs that show kinds of an instruction, those that are wished for. Where a pair is told that shows it unprivileged, each
/// other is compared with it: whether some words of the pattern trap in user mode and others do not.
pub(crate) fn push_instr(
    alloc: Global,
    text: &mut Text,
    m: &Machine,
    report: &Report,
    wish: Wish,
    instr: usize,
) -> Result<(), AllocError>
    requires whole { length report.now.marks ≡ length m.now.desc.instrs * kind_count report.now.family }
    requires there { instr < length m.now.desc.instrs }
{
    let mut unprivileged = None;
    let mut is_told = false;
    for (mark, kind) in marks_at(m, report, instr).iter().zip(report.family.kinds()) {
        if wish.part.takes_kind(*kind) {
            if let Some(now) = push_mark(alloc, text, m, instr, *kind, mark)? {
                is_told = true;
                if wish.is_readable {
                    push_readable(alloc, text, m, instr, *kind, mark)?;
                }
                match kind {
                    Kind::Privileged => unprivileged = Some(now),
                    _ => push_words(text, m, unprivileged.as_ref(), &now),
                }
            }
        }
    }
    if !is_told {
        push_nothing(text, m, instr);
    }
    Ok(())
}

/// Pushes that no states were told.
fn push_nothing(text: &mut Text, m: &Machine, instr: usize) {
    push_name(text, m, instr);
    text.push(b": the certificate has no states that show it.\n");
}

/// Pushes a mark that two states show: what they come to, where they do show the kind.
fn push_mark(
    alloc: Global,
    text: &mut Text,
    m: &Machine,
    instr: usize,
    kind: Kind,
    mark: &Mark,
) -> Result<Option<Explained>, AllocError>
    requires { instr < length m.now.desc.instrs }
{
    let Mark::Shown(first, second) = mark else {
        return Ok(None);
    };
    let Some(told) = explain(alloc, m, instr, kind, first, second)? else {
        return Ok(None);
    };
    let pair = Pair {
        instr,
        kind,
        first,
        second,
        told: &told,
    };
    push_pair(alloc, text, m, &pair)?;
    Ok(Some(told))
}

/// Pushes two states that show a kind as those of a mark do, and are laid out for a reader; or that none were found.
fn push_readable(
    alloc: Global,
    text: &mut Text,
    m: &Machine,
    instr: usize,
    kind: Kind,
    mark: &Mark,
) -> Result<(), AllocError>
    requires { instr < length m.now.desc.instrs }
{
    let Mark::Shown(known, _) = mark else {
        return Ok(());
    };
    let Some(pair) = readable(alloc, m, instr, kind, known)? else {
        text.push(
            b"  No states of at most 24 cells were found with each operand in a cell of its own.\n",
        );
        return Ok(());
    };
    text.push(b"  The same with each operand in a cell of its own:\n");
    push_found(alloc, text, m, instr, kind, &pair.first, &pair.second)
}

/// Pushes two states, where they do show the kind.
fn push_found(
    alloc: Global,
    text: &mut Text,
    m: &Machine,
    instr: usize,
    kind: Kind,
    first: &Sparse,
    second: &Sparse,
) -> Result<(), AllocError>
    requires { instr < length m.now.desc.instrs }
{
    match explain(alloc, m, instr, kind, first, second)? {
        None => Ok(()),
        Some(told) => push_states(
            alloc,
            text,
            m,
            &Pair {
                instr,
                kind,
                first,
                second,
                told: &told,
            },
        ),
    }
}

/// Pushes that some words of a pattern trap in user mode and others do not, where this pair and one that shows the instruction
/// unprivileged tell it.
fn push_words(text: &mut Text, m: &Machine, unprivileged: Option<&Explained>, now: &Explained) {
    let Some(done) = unprivileged else {
        return;
    };
    if !words_part(done, now) {
        return;
    }
    text.push(b"  The word ");
    push_word(text, m, done.second.word);
    text.push(b" is done in user mode, and the word ");
    push_word(text, m, now.user.word);
    text.push(b" traps there: split the pattern.\n");
}
