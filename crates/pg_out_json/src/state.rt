//! States.

use crate::value::push_word;
use pg_mach_ready::Machine;
use pg_out_place::Text;
use pg_word::{Mode, Psw, Sparse};

/// Pushes a program status word: `["s",2,0,16]`, the mode, P, l and b.
pub fn push_psw(text: &mut Text, psw: Psw) {
    text.push(match psw.mode {
        Mode::S => b"[\"s\",",
        Mode::U => b"[\"u\",",
    });
    text.push_number(u64::from(psw.p));
    text.push(b",");
    text.push_number(u64::from(psw.l));
    text.push(b",");
    text.push_number(u64::from(psw.b));
    text.push(b"]");
}

/// Pushes a state: its size, its program status word, and runs of its cells that are not zero, each with the number of its first
/// cell.
pub fn push_state(text: &mut Text, m: &Machine, s: &Sparse) {
    push_begun(text, u64::from(s.size), s.psw);
    let mut next = None;
    for (at, word) in s.cells.as_slice() {
        next = push_cell(text, m, next, *at, *word);
    }
    push_ended(text, next);
}

/// Pushes the begin of a state, up to its cells.
pub(crate) fn push_begun(text: &mut Text, size: u64, psw: Psw) {
    text.push(b"{\"size\":");
    text.push_number(size);
    text.push(b",\"psw\":");
    push_psw(text, psw);
    text.push(b",\"cells\":[");
}

/// Pushes a cell behind others, of which the last one is the one before `next`; the number of the cell behind it.
pub(crate) fn push_cell(
    text: &mut Text,
    m: &Machine,
    next: Option<u64>,
    at: u32,
    word: u64,
) -> Option<u64> {
    let here = u64::from(at);
    match next {
        Some(next) if next == here => {}
        Some(_) => push_run(text, b"],[", here),
        None => push_run(text, b"[", here),
    }
    text.push(b",");
    push_word(text, m, word);
    Some(here + 1)
}

/// Pushes the begin of a run of cells.
fn push_run(text: &mut Text, before: &[u8], at: u64) {
    text.push(before);
    text.push_number(at);
}

/// Pushes the end of a state, behind its cells.
pub(crate) fn push_ended(text: &mut Text, next: Option<u64>) {
    text.push(match next {
        None => b"]}",
        Some(_) => b"]]}",
    })
}
