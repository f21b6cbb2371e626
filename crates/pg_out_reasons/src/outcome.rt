//! How two steps end, and what they leave.

use crate::push::push_word;
use crate::state::mode_name;
use pg_mach_ready::Machine;
use pg_out_pair::{Difference, Explained};
use pg_out_place::Text;
use pg_word::{Cause, Mode, Psw};

/// How many differences are told.
const MOST_DIFFERENCES: usize = 8;

/// Pushes how the steps from two states end, and where both are done what differs behind them.
pub(crate) fn push_outcome(text: &mut Text, m: &Machine, told: &Explained) {
    text.push(b"  the step: ");
    text.push(ending_name(told.first.cause));
    text.push(b" in A, ");
    text.push(ending_name(told.second.cause));
    text.push(b" in B\n");
    if told.first.cause.is_none() && told.second.cause.is_none() {
        push_differences(text, m, told.differences.as_slice());
        push_counters(text, told.first.after.psw.p, told.second.after.psw.p);
    }
}

/// How a step ends.
fn ending_name(cause: Option<Cause>) -> &'static [u8] {
    match cause {
        None => b"done",
        Some(Cause::Memory) => b"a memory trap",
        Some(Cause::Trap | Cause::NoPattern) => b"a trap",
    }
}

/// Pushes the first of the differences, and how many more there are.
fn push_differences(text: &mut Text, m: &Machine, list: &[Difference]) {
    for found in &list[..list.len().min(MOST_DIFFERENCES)] {
        text.push(b"  after the step, address ");
        text.push_number(u64::from(found.at));
        text.push(b" holds ");
        push_word(text, m, found.first);
        text.push(b" in A, ");
        push_word(text, m, found.second);
        text.push(b" in B\n");
    }
    if list.len() > MOST_DIFFERENCES {
        text.push(b"  and so on at ");
        text.push_number((list.len() - MOST_DIFFERENCES) as u64);
        text.push(b" more addresses\n");
    }
}

/// Pushes P behind two steps, where it differs.
fn push_counters(text: &mut Text, first: u32, second: u32) {
    if first == second {
        return;
    }
    text.push(b"  after the step, P is ");
    text.push_number(u64::from(first));
    text.push(b" in A, ");
    text.push_number(u64::from(second));
    text.push(b" in B\n");
}

/// Pushes what a step changes of the mode and of the relocation-bounds register.
pub(crate) fn push_control(text: &mut Text, before: &Psw, after: &Psw) {
    if before.mode != after.mode {
        push_mode(text, before.mode, after.mode);
    }
    push_change(text, b"the relocation", before.l, after.l);
    push_change(text, b"the bound", before.b, after.b);
}

/// Pushes two modes.
fn push_mode(text: &mut Text, before: Mode, after: Mode) {
    text.push(b"  after the step, the mode is ");
    text.push(mode_name(after));
    text.push(b", before it ");
    text.push(mode_name(before));
    text.push(b"\n");
}

/// Pushes two numbers of a part of the register, where they differ.
fn push_change(text: &mut Text, what: &[u8], before: u32, after: u32) {
    if before == after {
        return;
    }
    text.push(b"  after the step, ");
    text.push(what);
    text.push(b" is ");
    text.push_number(u64::from(after));
    text.push(b", before it ");
    text.push_number(u64::from(before));
    text.push(b"\n");
}
