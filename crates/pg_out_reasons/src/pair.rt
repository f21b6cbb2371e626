//! Two states that show a kind, and what is left behind a step from each. Each error is out of memory.

use crate::outcome::{push_control, push_outcome};
use crate::push::push_name;
use crate::state::{push_bound, push_state, push_window};
use pg_mach_ready::Machine;
use pg_out_pair::Explained;
use pg_out_place::Text;
use pg_type::Kind;
use pg_word::Sparse;
use std::alloc::{AllocError, Global};

/// Two states that show a kind of an instruction, told.
#[derive(Drop)]
pub(crate) struct Pair<'a> {
    /// The number of the instruction.
    pub instr: usize,
    /// The kind.
    pub kind: Kind,
    /// The first state.
    pub first: &'a Sparse,
    /// The second state.
    pub second: &'a Sparse,
    /// What the steps from both come to.
    pub told: &'a Explained,
}

/// Pushes the lines of a pair.
pub(crate) fn push_pair(
    alloc: Global,
    text: &mut Text,
    m: &Machine,
    pair: &Pair<'_>,
) -> Result<(), AllocError> {
    push_name(text, m, pair.instr);
    text.push(headline(pair.kind, pair.told));
    push_states(alloc, text, m, pair)
}

/// Pushes the states of a pair, and what is left behind a step from each.
pub(crate) fn push_states(
    alloc: Global,
    text: &mut Text,
    m: &Machine,
    pair: &Pair<'_>,
) -> Result<(), AllocError> {
    push_state(alloc, text, m, pair.kind, pair.first, pair.told.first.word)?;
    match pair.kind {
        Kind::Control | Kind::UControl => {
            push_control(text, &pair.first.psw, &pair.told.first.after.psw);
        }
        Kind::Privileged | Kind::ModeDep => {
            text.push(b"  B: user mode, else the same\n");
            push_outcome(text, m, pair.told);
        }
        Kind::Location | Kind::ULocation | Kind::Bound | Kind::UBound => {
            push_second(text, pair);
            push_outcome(text, m, pair.told);
        }
    }
    Ok(())
}

/// Pushes what the second state of two windows has of its own.
fn push_second(text: &mut Text, pair: &Pair<'_>) {
    text.push(b"  B: ");
    push_window(text, pair.second);
    if matches!(pair.kind, Kind::Bound | Kind::UBound) {
        push_bound(text, pair.second);
    }
    text.push(b", else the same\n");
}

/// What two states show, behind the name of the instruction.
fn headline(kind: Kind, told: &Explained) -> &'static [u8] {
    let first = told.first.cause.is_none();
    let both = first && told.second.cause.is_none();
    match kind {
        Kind::Privileged => privileged_headline(told),
        Kind::Control =>
            b" is control sensitive: it is done, and changes the mode or the window.\n",
        Kind::UControl =>
            b" is control sensitive in user mode: it is done there, and changes the mode or the window.\n",
        Kind::ModeDep if both =>
            b" is sensitive to the mode: done in both modes, with different results.\n",
        Kind::ModeDep => b" is sensitive to the mode: done in user mode alone.\n",
        Kind::Location if both =>
            b" is sensitive to where its window lies: done at both places, with different results.\n",
        Kind::Location =>
            b" is sensitive to where its window lies: done at one of two places alone.\n",
        Kind::ULocation if both =>
            b" is sensitive in user mode to where its window lies: done at both places, with different results.\n",
        Kind::ULocation =>
            b" is sensitive in user mode to where its window lies: done at one of two places alone.\n",
        Kind::Bound if both =>
            b" is sensitive to the bound: done under both bounds, with different results.\n",
        Kind::Bound => b" is sensitive to the bound: done under one of two bounds alone.\n",
        Kind::UBound if both =>
            b" is sensitive in user mode to the bound: done under both bounds, with different results.\n",
        Kind::UBound =>
            b" is sensitive in user mode to the bound: done under one of two bounds alone.\n",
    }
}

/// Why an instruction is not privileged, behind its name.
fn privileged_headline(told: &Explained) -> &'static [u8] {
    match told.second.cause {
        None => b" is not privileged: in user mode it is done.\n",
        Some(_) => b" is not privileged: it traps, but in supervisor mode too.\n",
    }
}
