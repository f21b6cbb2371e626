//! Findings.

use crate::list::push_lines;
use crate::log::LogLen;
use crate::state::push_state;
use crate::value::{push_string, push_word};
use pg_cert::put::kind_name;
use pg_mach_ready::Machine;
use pg_out_pair::{Difference, Explained, Told};
use pg_out_place::Text;
use pg_type::Kind;
use pg_word::{Cause, Sparse};

/// Two states that show a kind, what a step makes of them, and the sentences that say it.
#[derive(Drop)]
pub struct Shown<'a> {
    /// The first state.
    pub first: &'a Sparse,
    /// The second state.
    pub second: &'a Sparse,
    /// What the steps from both come to.
    pub told: &'a Explained,
    /// The sentences, as lines.
    pub says: &'a [u8],
}

/// Pushes a finding that two states show.
pub fn push_shown(text: &mut Text, m: &Machine, kind: Kind, shown: &Shown<'_>) {
    push_kind(text, kind, b"shown");
    text.push(b",\"pair\":[");
    push_side(text, m, shown.first, &shown.told.first);
    text.push(b",\n");
    push_side(text, m, shown.second, &shown.told.second);
    text.push(b"],\"differs\":");
    push_differences(text, m, shown.told.differences.as_slice());
    text.push(b",\"says\":");
    push_lines(text, shown.says);
    text.push(b"}");
}

/// Pushes a finding that a log refutes: how long that is.
pub fn push_refuted(text: &mut Text, kind: Kind, log: LogLen) {
    push_kind(text, kind, b"refuted");
    push_log(text, log);
}

/// Pushes a finding that is open: the budget that was spent, and how long its log is.
pub fn push_open(text: &mut Text, kind: Kind, budget: u32, log: LogLen) {
    push_kind(text, kind, b"spent");
    text.push(b",\"budget\":");
    text.push_number(u64::from(budget));
    push_log(text, log);
}

/// Pushes the kind of a finding, and what became of it.
fn push_kind(text: &mut Text, kind: Kind, is: &[u8]) {
    text.push(b"{\"kind\":");
    push_string(text, kind_name(kind));
    text.push(b",\"is\":");
    push_string(text, is);
}

/// Pushes the length of a log, which ends a finding.
fn push_log(text: &mut Text, log: LogLen) {
    text.push(b",\"steps\":");
    text.push_number(log.steps);
    text.push(b",\"bytes\":");
    text.push_number(log.bytes);
    text.push(b"}");
}

/// Pushes a state and a step from it: the word at P, how the step ends, and the state behind it.
fn push_side(text: &mut Text, m: &Machine, before: &Sparse, told: &Told) {
    text.push(b"{\"before\":");
    push_state(text, m, before);
    text.push(b",\"word\":");
    push_word(text, m, told.word);
    text.push(b",\"step\":");
    push_string(text, step_name(told.cause));
    text.push(b",\"after\":");
    push_state(text, m, &told.after);
    text.push(b"}");
}

/// How a step ends, as `pgv replay` has it.
fn step_name(cause: Option<Cause>) -> &'static [u8] {
    match cause {
        None => b"done",
        Some(Cause::Memory) => b"memtrap",
        Some(Cause::Trap | Cause::NoPattern) => b"trap",
    }
}

/// Pushes where the windows differ behind the steps: `[address, word in the first, word in the second]`.
fn push_differences(text: &mut Text, m: &Machine, list: &[Difference]) {
    text.push(b"[");
    let mut is_first = true;
    for found in list {
        text.push(if is_first { b"[" } else { b",[" });
        push_difference(text, m, found);
        is_first = false;
    }
    text.push(b"]");
}

/// Pushes one of them.
fn push_difference(text: &mut Text, m: &Machine, found: &Difference) {
    text.push_number(u64::from(found.at));
    text.push(b",");
    push_word(text, m, found.first);
    text.push(b",");
    push_word(text, m, found.second);
    text.push(b"]");
}
