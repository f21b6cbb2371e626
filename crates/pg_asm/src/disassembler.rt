//! The disassembler: an image, written as a source that gives it.
//!
//! Each cell that is not zero has two lines, its place and its word. A word is written as the instruction that it is decoded
//! to, where its free places are 0, and else by its digits. The text is the only memory that is taken.

ghost use Rattle.std.specs.Prelude.{◌≡◌, ◌%◌, ◌≤◌, ◌<◌, ◌^◌, ◌++◌, length, slice_get, All, OnOk, IfOk, Some};
ghost use Rattle.pg_asm.specs.Texts.{field_text, fields_text, word_text, instr_text, said_text, cell_said, source_text};

use crate::fields::{LetterField, fields_of, value_in};
use crate::words::kept_bits;
use pg_ast::Instr;
use pg_image::Image;
use pg_mach_ready::Machine;
use pg_text::{dec, hex_word};
use std::alloc::{AllocError, Global};

/// Puts bytes at the end of a text. Here and below the error is out of memory.
fn put(text: &mut Vec<u8>, bytes: &[u8]) -> Result<(), AllocError>
    ensures { OnOk result (text.new.items ≡ text.old.items ++ bytes.now) }
{
    text.extend_from_slice(bytes)
}

/// Puts ` f=V`.
fn put_field(text: &mut Vec<u8>, word: u64, field: &LetterField) -> Result<(), AllocError>
    requires { field.now.low < 64 }
    ensures { OnOk result (text.new.items ≡ text.old.items ++ field_text word field.now) }
{
    text.push(b' ')?;
    text.push(field.letter)?;
    text.push(b'=')?;
    put(text, dec(value_in(word, field)).as_slice())
}

/// Puts ` f=V` for each field.
#[tactic(auto, unfolding(crate::specs::Texts::fields_text))]
fn put_fields(text: &mut Vec<u8>, word: u64, fields: &[LetterField]) -> Result<(), AllocError>
    requires { All (λ field. field.low < 64) fields.now }
    ensures { OnOk result (text.new.items ≡ text.old.items ++ fields_text word fields.now) }
{
    for field in fields {
        put_field(text, word, field)?;
    }
    Ok(())
}

/// Puts `word H`.
fn put_word(text: &mut Vec<u8>, w: u32, word: u64) -> Result<(), AllocError>
    requires bytes { w % 8 ≡ 0 }
    requires least { 16 ≤ w }
    requires most { w ≤ 64 }
    requires fits { word < 2 ^ w }
    ensures { OnOk result (text.new.items ≡ text.old.items ++ word_text w word) }
{
    put(text, b"word ")?;
    put(text, hex_word(w, word).as_slice())
}

/// Puts a word as an instruction, where its free places are 0, and else by its digits.
fn put_instr(text: &mut Vec<u8>, w: u32, word: u64, instr: &Instr) -> Result<(), AllocError>
    requires bytes { w % 8 ≡ 0 }
    requires least { 16 ≤ w }
    requires most { w ≤ 64 }
    requires fits { word < 2 ^ w }
    requires short { length instr.now.pattern.bytes ≤ 64 }
    ensures { OnOk result (text.new.items ≡ text.old.items ++ instr_text w word instr.now) }
{
    let pattern = instr.pattern.as_bytes();
    if kept_bits(pattern, word) == word {
        put(text, instr.name.as_bytes())?;
        put_fields(text, word, fields_of(pattern).as_slice())
    } else {
        put_word(text, w, word)
    }
}

/// The instruction of a number.
fn instr_of(machine: &Machine, number: usize) -> &Instr
    requires { number < length machine.now.desc.instrs }
    ensures instr { slice_get machine.now.desc.instrs number ≡ Some result.now }
    ensures short { length result.now.pattern.bytes ≤ 64 }
{
    &machine.desc.instrs.as_slice()[number]
}

/// Puts a word as a line of a source says it.
fn put_said(text: &mut Vec<u8>, machine: &Machine, word: u64) -> Result<(), AllocError>
    requires { word < 2 ^ machine.now.desc.word }
    ensures { OnOk result (text.new.items ≡ text.old.items ++ said_text machine.now.desc word) }
{
    match machine.decode(word) {
        None => put_word(text, machine.shape().w, word),
        Some(number) => put_instr(text, machine.shape().w, word, instr_of(machine, number)),
    }
}

/// Puts the lines of a cell.
fn put_cell(text: &mut Vec<u8>, machine: &Machine, at: usize, cell: u64) -> Result<(), AllocError>
    requires { cell < 2 ^ machine.now.desc.word }
    ensures { OnOk result (text.new.items ≡ text.old.items ++ cell_said machine.now.desc at cell) }
{
    if cell == 0 {
        return Ok(());
    }
    text.push(b'@')?;
    put(text, dec(at as u64).as_slice())?;
    text.push(b'\n')?;
    put_said(text, machine, cell)?;
    put(text, b"\n")
}

/// A source that gives an image: for each cell that is not zero, in order, the line `@ADDR` and the line of its word.
///
/// The image has at most as many words as the greatest size of the machine, and each fits.
#[tactic(auto, unfolding(crate::specs::Texts::source_text))]
pub fn disassemble(alloc: Global, machine: &Machine, image: &Image) -> Result<Vec<u8>, AllocError>
    requires most { length image.now ≤ machine.now.desc.size }
    requires fit { All (λ cell. cell < 2 ^ machine.now.desc.word) image.now }
    ensures { IfOk result (λ text. text.items ≡ source_text machine.now.desc 0 image.now) }
{
    let mut text = Vec::new(alloc);
    for (at, cell) in image.as_slice().iter().enumerate() {
        put_cell(&mut text, machine, at, *cell)?;
    }
    Ok(text)
}
