//! Counts of steps.

use crate::value::push_string;
use pg_mach_ready::Machine;
use pg_out_place::Text;
use pg_out_steps::{Monitor, Tally};

/// Pushes the counts of a run: of the instructions that were met, of steps that fetched none, of traps by cause, of all steps, and
/// under a monitor of those that are direct and those that are emulated.
pub fn push_tally(text: &mut Text, m: &Machine, tally: &Tally, monitor: Option<Monitor>) {
    text.push(b"{\"instrs\":[");
    push_instrs(text, m, tally.instrs.as_slice());
    text.push(b"],\"no instr\":");
    text.push_number(tally.others);
    text.push(b",\"memory\":");
    text.push_number(tally.memory);
    text.push(b",\"trap\":");
    text.push_number(tally.trap);
    text.push(b",\"no pattern\":");
    text.push_number(tally.no_pattern);
    text.push(b",\"steps\":");
    text.push_number(tally.steps);
    if monitor.is_some() {
        text.push(b",\"direct\":");
        text.push_number(tally.shares.direct);
        text.push(b",\"emulated\":");
        text.push_number(tally.shares.emulated);
    }
    text.push(b"}");
}

/// Pushes `[name, count]` of each instruction that was met.
fn push_instrs(text: &mut Text, m: &Machine, counts: &[u64]) {
    let mut is_first = true;
    for (k, count) in counts.iter().enumerate() {
        if *count > 0 && k < m.count() {
            text.push(if is_first { b"[" } else { b",[" });
            push_string(text, m.name(k));
            text.push(b",");
            text.push_number(*count);
            text.push(b"]");
            is_first = false;
        }
    }
}
