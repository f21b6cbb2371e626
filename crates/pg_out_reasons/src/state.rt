//! One state, in a line or two. Each error is out of memory.

use crate::push::{push_name, push_word};
use pg_asm::{decode, fields_of};
use pg_mach_ready::Machine;
use pg_out_place::Text;
use pg_type::Kind;
use pg_word::{Mode, Sparse, window_len};
use std::alloc::{AllocError, Global};

/// How many cells are told of a window.
const MOST_CELLS: usize = 8;

/// Pushes `A: supervisor mode, window 0..33, P 0: 000020f3  csrr i=0 d=1`, and the cells of the window that are not zero.
pub(crate) fn push_state(
    alloc: Global,
    text: &mut Text,
    m: &Machine,
    kind: Kind,
    s: &Sparse,
    word: u64,
) -> Result<(), AllocError> {
    text.push(b"  A: ");
    text.push(mode_name(s.psw.mode));
    text.push(b" mode, ");
    push_window(text, s);
    if is_of_bound(kind) {
        push_bound(text, s);
    }
    text.push(b", P ");
    text.push_number(u64::from(s.psw.p));
    text.push(b": ");
    push_word(text, m, word);
    push_instr(alloc, text, m, word)?;
    text.push(b"\n");
    push_cells(text, m, s);
    Ok(())
}

/// The word of a mode.
pub(crate) fn mode_name(mode: Mode) -> &'static [u8] {
    match mode {
        Mode::S => b"supervisor",
        Mode::U => b"user",
    }
}

/// Whether a kind is that of the bound.
pub(crate) fn is_of_bound(kind: Kind) -> bool {
    matches!(kind, Kind::Bound | Kind::UBound)
}

/// Pushes the cells of the window: `window 0..33`.
pub(crate) fn push_window(text: &mut Text, s: &Sparse) {
    let cells = u64::from(window_len(s.psw, s.size));
    text.push(b"window ");
    text.push_number(u64::from(s.psw.l));
    text.push(b"..");
    text.push_number((u64::from(s.psw.l) + cells).saturating_sub(1))
}

/// Pushes the bound, and how many cells the storage has.
pub(crate) fn push_bound(text: &mut Text, s: &Sparse) {
    text.push(b", bound ");
    text.push_number(u64::from(s.psw.b));
    text.push(b" in ");
    text.push_number(u64::from(s.size));
    text.push(b" cells");
}

/// Pushes the instruction that a word is decoded to, and the values of its fields.
fn push_instr(alloc: Global, text: &mut Text, m: &Machine, word: u64) -> Result<(), AllocError> {
    let Some((instr, values)) = decode(alloc, m, word)? else {
        return Ok(());
    };
    text.push(b"  ");
    push_name(text, m, instr);
    if let Some(found) = m.desc.instrs.as_slice().get(instr) {
        push_values(text, found.pattern.as_bytes(), values.as_slice());
    }
    Ok(())
}

/// Pushes the values of the fields of a pattern: ` i=0 d=1`. A pattern of a machine has at most 64 places.
fn push_values(text: &mut Text, pattern: &[u8], values: &[u64]) {
    let fields = fields_of(&pattern[..pattern.len().min(64)]);
    for (k, value) in values.iter().enumerate() {
        if let Some(field) = fields.as_slice().get(k) {
            text.push(b" ");
            text.push(&[field.letter]);
            text.push(b"=");
            text.push_number(*value);
        }
    }
}

/// Pushes a line of the cells of the window that are not zero, but for the one at P: the first of them.
fn push_cells(text: &mut Text, m: &Machine, s: &Sparse) {
    let mut told = 0;
    for (at, word) in s.cells.as_slice() {
        if told > MOST_CELLS {
            break;
        }
        if is_beside(s, *at) {
            push_cell(text, m, s, *at, *word, told);
            told += 1;
        }
    }
    if told > 0 {
        text.push(b"\n");
    }
}

/// Whether a cell of the storage lies in the window, at another address than P.
fn is_beside(s: &Sparse, at: u32) -> bool {
    if at < s.psw.l {
        return false;
    }
    let address = at - s.psw.l;
    address < window_len(s.psw, s.size) && address != s.psw.p
}

/// Pushes a cell of the window, behind so many others.
fn push_cell(text: &mut Text, m: &Machine, s: &Sparse, at: u32, word: u64, told: usize) {
    if told == MOST_CELLS {
        return text.push(b", ..");
    }
    text.push(if told == 0 { b"     holds " } else { b", " });
    text.push_number(u64::from(at.saturating_sub(s.psw.l)));
    text.push(b": ");
    push_word(text, m, word);
}
