//! An instruction. Each error is out of memory.

use crate::list::push_marked;
use crate::source::Source;
use crate::touched::{Parts, touches_of};
use crate::value::{push_flag, push_string};
use pg_asm::{LetterField, fields_of};
use pg_mach_ready::Machine;
use pg_out_place::Text;
use std::alloc::{AllocError, Global};

/// Pushes an instruction of a machine, up to its findings: `{"name":..,"findings":[`. Nothing is pushed of a number that it has
/// not, but the begin of a list.
pub fn push_instr(
    alloc: Global,
    text: &mut Text,
    m: &Machine,
    number: usize,
    source: Option<&Source>,
    is_refused: bool,
) -> Result<(), AllocError> {
    text.push(b"{");
    if let Some(instr) = m.desc.instrs.as_slice().get(number) {
        text.push(b"\"name\":");
        push_string(text, instr.name.as_bytes());
        text.push(b",\"pattern\":");
        push_string(text, instr.pattern.as_bytes());
        text.push(b",\"fields\":");
        push_fields(text, instr.pattern.as_bytes());
        push_source(alloc, text, source)?;
        text.push(b",\"refused\":");
        push_flag(text, is_refused);
        text.push(b",");
    }
    text.push(b"\"findings\":[");
    Ok(())
}

/// Pushes the fields of a pattern, which in a machine has at most 64 places.
fn push_fields(text: &mut Text, pattern: &[u8]) {
    text.push(b"[");
    let fields = fields_of(&pattern[..pattern.len().min(64)]);
    let mut is_first = true;
    for field in fields.as_slice() {
        text.push(if is_first { b"" } else { b"," });
        push_field(text, field);
        is_first = false;
    }
    text.push(b"]");
}

/// Pushes a field: its letter, its lowest bit, and how many bits it has.
fn push_field(text: &mut Text, field: &LetterField) {
    text.push(b"{\"letter\":");
    push_string(text, &[field.letter]);
    text.push(b",\"low\":");
    text.push_number(field.low as u64);
    text.push(b",\"width\":");
    text.push_number(field.width as u64);
    text.push(b"}");
}

/// Pushes what is known of an instruction by the text of the description.
fn push_source(alloc: Global, text: &mut Text, source: Option<&Source>) -> Result<(), AllocError> {
    let Some(source) = source else {
        return Ok(());
    };
    text.push(b",\"line\":");
    text.push_number(source.line);
    text.push(b",\"body\":");
    push_string(text, source.body.as_slice());
    let touched = touches_of(alloc, source.body.as_slice())?;
    text.push(b",\"reads\":");
    push_parts(text, touched.reads);
    text.push(b",\"writes\":");
    push_parts(text, touched.writes);
    Ok(())
}

/// Pushes which of mode, relocation and bound these are.
fn push_parts(text: &mut Text, parts: Parts) {
    push_marked(
        text,
        &[
            (b"mode", parts.mode),
            (b"rel", parts.rel),
            (b"bound", parts.bound),
        ],
    )
}
