//! One step of a run. Each error is out of memory.

use crate::state::push_psw;
use crate::value::{push_string, push_word};
use pg_asm::{decode, fields_of};
use pg_interp::Write;
use pg_mach_ready::Machine;
use pg_out_place::Text;
use pg_out_steps::{Handling, Stepped};
use pg_routine::compose;
use pg_word::{Cause, Psw};
use std::alloc::{AllocError, Global};

/// The most cells of a grant.
const MOST_CELLS: u32 = 1_048_575;

/// A step of a machine that may be a guest.
#[derive(Drop)]
pub(crate) struct Turn<'a> {
    /// What it did.
    pub stepped: &'a Stepped,
    /// Its stores, where it was done.
    pub stores: &'a [Write],
    /// How many cells the machine has.
    pub size: u32,
    /// Why the hardware of a monitor would trap, where it is asked to do the step, and would.
    pub asked: Option<Cause>,
}

/// Pushes a step: the program status word before it, the word, the instruction with its fields, the stores, why it traps and the
/// word that the trap stores, and the program status word behind it. Under a monitor, how it handles the step, the program
/// status word of the hardware, and why that traps.
pub(crate) fn push_turn(
    alloc: Global,
    text: &mut Text,
    m: &Machine,
    turn: &Turn<'_>,
) -> Result<(), AllocError> {
    let stepped = turn.stepped;
    text.push(b"{\"psw\":");
    push_psw(text, stepped.psw);
    push_said(alloc, text, m, stepped.word)?;
    match stepped.cause {
        None => push_stores(text, m, stepped.psw.l, turn.stores),
        Some(cause) => push_trap(text, m, cause, stepped.kept),
    }
    text.push(b",\"next\":");
    push_psw(text, stepped.next);
    if let Some(handling) = stepped.handling {
        push_handling(text, turn, handling);
    }
    text.push(b"}");
    Ok(())
}

/// Pushes the word that was fetched, where one was, and the instruction that it is decoded to, where there is one.
fn push_said(
    alloc: Global,
    text: &mut Text,
    m: &Machine,
    word: Option<u64>,
) -> Result<(), AllocError> {
    let Some(word) = word else {
        return Ok(());
    };
    text.push(b",\"word\":");
    push_word(text, m, word);
    let Some((instr, values)) = decode(alloc, m, word)? else {
        return Ok(());
    };
    let Some(found) = m.desc.instrs.as_slice().get(instr) else {
        return Ok(());
    };
    text.push(b",\"instr\":\"");
    text.push(found.name.as_bytes());
    push_values(text, found.pattern.as_bytes(), values.as_slice());
    text.push(b"\"");
    Ok(())
}

/// Pushes the values of the fields of a pattern: ` i=0 d=1`. A pattern of a machine has at most 64 places.
fn push_values(text: &mut Text, pattern: &[u8], values: &[u64]) {
    let fields = fields_of(&pattern[..pattern.len().min(64)]);
    for (k, value) in values.iter().enumerate() {
        if let Some(field) = fields.as_slice().get(k) {
            text.push(b" ");
            text.push(&[field.letter]);
            text.push(b"=");
            text.push_number(*value);
        }
    }
}

/// Pushes the stores, in order: each cell by its address in the storage, and its new word.
fn push_stores(text: &mut Text, m: &Machine, l: u32, stores: &[Write]) {
    if stores.is_empty() {
        return;
    }
    text.push(b",\"stores\":[");
    let mut is_first = true;
    for store in stores {
        text.push(if is_first { b"[" } else { b",[" });
        text.push_number(u64::from(l) + u64::from(store.at));
        text.push(b",");
        push_word(text, m, store.cell);
        text.push(b"]");
        is_first = false;
    }
    text.push(b"]");
}

/// Pushes why a step traps, and the word that the trap stores in cell 0.
fn push_trap(text: &mut Text, m: &Machine, cause: Cause, kept: u64) {
    text.push(b",\"cause\":");
    push_string(text, cause_name(cause));
    text.push(b",\"kept\":");
    push_word(text, m, kept);
}

/// The word of a cause.
fn cause_name(cause: Cause) -> &'static [u8] {
    match cause {
        Cause::Memory => b"memory",
        Cause::Trap => b"trap",
        Cause::NoPattern => b"no pattern",
    }
}

/// Pushes how a monitor handles a step.
fn push_handling(text: &mut Text, turn: &Turn<'_>, handling: Handling) {
    text.push(match handling {
        Handling::Direct => b",\"how\":\"direct\"",
        Handling::Emulated => b",\"how\":\"emulated\"",
    });
    text.push(b",\"composed\":");
    push_psw(text, composed(turn.stepped.psw, turn.size));
    match turn.asked {
        None => {}
        Some(cause) => {
            text.push(b",\"asked\":");
            push_string(text, cause_name(cause));
        }
    }
}

/// The program status word under which the hardware runs a guest of so many cells, the first of them its cell 0.
fn composed(psw: Psw, size: u32) -> Psw {
    compose(psw, 0, size.min(MOST_CELLS))
}
