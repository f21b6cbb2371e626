//! The line of a step.
//!
//! It is pushed behind what a buffer holds; `specs/Lines.antt` says its bytes. Here and below the error is out of memory.

ghost use Rattle.std.specs.Prelude.{◌≡◌, ◌+◌, ◌%◌, ◌^◌, ◌<◌, ◌≤◌, ◌++◌, ◌∷◌, [], List, ℕ, length, slice_get, All, OnOk, IfSome, None, Some};
ghost use Rattle.pg_asm.specs.Texts.{field_text, fields_text};
ghost use Rattle.pg_asm.specs.Words.{value_in};
ghost use Rattle.pg_out_steps.specs.Fitting.{Fits};
ghost use Rattle.pg_out_steps.specs.Lines.{filling, handling_text, number_text, mode_letter, fetched_text, instr_text, said_text, said_column, cell_text, stores_text, same_mode, p_text, mode_text, r_text, moved_text, cause_text, onward_text, changes_text, step_line};

use crate::handling::Handling;
use crate::stepped::Stepped;
use pg_asm::{LetterField, fields_of};
use pg_ast::Instr;
use pg_interp::Write;
use pg_mach_ready::Machine;
use pg_text::{dec, hex_word};
use pg_word::{Cause, Mode, Psw};
use std::alloc::AllocError;

/// How many bytes the column of an instruction has.
const SAID_WIDTH: usize = 24;

/// Pushes the line of a step of a machine, which is the one of this number.
#[tactic(auto, unfolding(crate::specs::Lines::step_line))]
pub fn push_step(
    text: &mut Vec<u8>,
    m: &Machine,
    number: u64,
    stores: &[Write],
    stepped: &Stepped,
) -> Result<(), AllocError>
    requires { Fits m.now.desc stores.now stepped.now }
    ensures { OnOk result (text.new.items ≡ text.old.items ++ step_line m.now.desc number stores.now stepped.now) }
{
    push_handling(text, stepped.handling)?;
    push_number(text, 7, number)?;
    text.push(b' ')?;
    text.push(mode_letter(stepped.psw.mode))?;
    text.push(b' ')?;
    push_number(text, 5, u64::from(stepped.psw.p))?;
    text.push(b' ')?;
    push_fetched(text, m, stepped.word)?;
    text.push(b' ')?;
    push_said_column(text, m, stepped.word, stepped.instr)?;
    push_changes(text, m, stores, stepped)?;
    text.push(b'\n')?;
    Ok(())
}

/// Pushes the column that says how a monitor would handle a step, where one was named.
fn push_handling(text: &mut Vec<u8>, handling: Option<Handling>) -> Result<(), AllocError>
    ensures { OnOk result (text.new.items ≡ text.old.items ++ handling_text handling) }
{
    match handling {
        None => Ok(()),
        Some(Handling::Direct) => text.extend_from_slice(b"direct   "),
        Some(Handling::Emulated) => text.extend_from_slice(b"emulated "),
    }
}

/// Pushes the spaces that fill a column of at most 24 bytes behind a text of so many.
fn push_filling(text: &mut Vec<u8>, width: usize, len: usize) -> Result<(), AllocError>
    ensures { OnOk result (text.new.items ≡ text.old.items ++ filling width len) }
{
    let spaces: &[u8] = b"                        ";
    text.extend_from_slice(&spaces[..width.saturating_sub(len).min(24)])
}

/// Pushes a number at the right of a column.
fn push_number(text: &mut Vec<u8>, width: usize, number: u64) -> Result<(), AllocError>
    ensures { OnOk result (text.new.items ≡ text.old.items ++ number_text width number) }
{
    let digits = dec(number);
    push_filling(text, width, digits.len())?;
    text.extend_from_slice(digits.as_slice())
}

/// The letter of a mode.
fn mode_letter(mode: Mode) -> u8
    ensures { result ≡ mode_letter mode }
{
    match mode {
        Mode::S => b's',
        Mode::U => b'u',
    }
}

/// Pushes the word that was fetched, or a dash.
fn push_fetched(text: &mut Vec<u8>, m: &Machine, word: Option<u64>) -> Result<(), AllocError>
    requires { IfSome word (λ word. word < 2 ^ m.now.desc.word) }
    ensures { OnOk result (text.new.items ≡ text.old.items ++ fetched_text m.now.desc.word word) }
{
    let w = m.shape().w;
    match word {
        None => {
            text.push(b'-')?;
            push_filling(text, (w / 4) as usize, 1)
        }
        Some(word) => text.extend_from_slice(hex_word(w, word).as_slice()),
    }
}

/// Pushes an instruction in a word, and spaces up to the end of its column.
fn push_said_column(
    text: &mut Vec<u8>,
    m: &Machine,
    word: Option<u64>,
    instr: Option<usize>,
) -> Result<(), AllocError>
    requires { IfSome instr (λ k. k < length m.now.desc.instrs) }
    ensures { OnOk result (text.new.items ≡ text.old.items ++ said_column (said_text m.now.desc word instr)) }
{
    let begun = text.len();
    push_said(text, m, word, instr)?;
    push_filling(text, SAID_WIDTH, text.len() - begun)
}

/// Pushes an instruction in a word, or a dash.
fn push_said(
    text: &mut Vec<u8>,
    m: &Machine,
    word: Option<u64>,
    instr: Option<usize>,
) -> Result<(), AllocError>
    requires { IfSome instr (λ k. k < length m.now.desc.instrs) }
    ensures { OnOk result (text.new.items ≡ text.old.items ++ said_text m.now.desc word instr) }
{
    match (word, instr) {
        (Some(word), Some(k)) => push_instr(text, word, instr_of(m, k)),
        _ => {
            text.push(b'-')?;
            Ok(())
        }
    }
}

/// The instruction of a number.
pub(crate) fn instr_of(m: &Machine, k: usize) -> &Instr
    requires { k < length m.now.desc.instrs }
    ensures instr { slice_get m.now.desc.instrs k ≡ Some result.now }
    ensures short { length result.now.pattern.bytes ≤ 64 }
{
    &m.desc.instrs.as_slice()[k]
}

/// Pushes an instruction, and its fields in a word.
fn push_instr(text: &mut Vec<u8>, word: u64, instr: &Instr) -> Result<(), AllocError>
    requires { length instr.now.pattern.bytes ≤ 64 }
    ensures { OnOk result (text.new.items ≡ text.old.items ++ instr_text word instr.now) }
{
    text.extend_from_slice(instr.name.as_bytes())?;
    push_fields(text, word, fields_of(instr.pattern.as_bytes()).as_slice())
}

/// Pushes ` f=V` for each field.
#[tactic(auto, unfolding(pg_asm::specs::Texts::fields_text))]
fn push_fields(text: &mut Vec<u8>, word: u64, fields: &[LetterField]) -> Result<(), AllocError>
    requires { All (λ field. field.low < 64) fields.now }
    ensures { OnOk result (text.new.items ≡ text.old.items ++ fields_text word fields.now) }
{
    for field in fields {
        push_field(text, word, field)?;
    }
    Ok(())
}

/// Pushes ` f=V`.
fn push_field(text: &mut Vec<u8>, word: u64, field: &LetterField) -> Result<(), AllocError>
    requires { field.now.low < 64 }
    ensures { OnOk result (text.new.items ≡ text.old.items ++ field_text word field.now) }
{
    text.push(b' ')?;
    text.push(field.letter)?;
    text.push(b'=')?;
    text.extend_from_slice(dec(value_in(word, field)).as_slice())
}

/// The bits of a word that stand in a field.
fn value_in(word: u64, field: &LetterField) -> u64
    requires { field.now.low < 64 }
    ensures { result ≡ value_in word field.now }
{
    let above = word >> field.low;
    if field.width >= 64 {
        above
    } else {
        above % (1 << field.width)
    }
}

/// Pushes what a step changed.
fn push_changes(
    text: &mut Vec<u8>,
    m: &Machine,
    stores: &[Write],
    stepped: &Stepped,
) -> Result<(), AllocError>
    requires { Fits m.now.desc stores.now stepped.now }
    ensures { OnOk result (text.new.items ≡ text.old.items ++ changes_text m.now.desc.word stores.now stepped.now stepped.now.cause) }
{
    match stepped.cause {
        None => {
            push_stores(text, m, stepped.psw.l, stores)?;
            push_moved(text, &stepped.psw, &stepped.next)
        }
        Some(cause) => {
            text.extend_from_slice(cause_text(cause))?;
            push_cell(text, m, 0, stepped.kept)?;
            push_onward(text, &stepped.next)?;
            push_r(text, &stepped.psw, &stepped.next)
        }
    }
}

/// Pushes the stores of an instruction into a window that begins at cell `l`.
#[tactic(auto, unfolding(crate::specs::Lines::stores_text))]
fn push_stores(text: &mut Vec<u8>, m: &Machine, l: u32, stores: &[Write]) -> Result<(), AllocError>
    requires { All (λ x. x.cell < 2 ^ m.now.desc.word) stores.now }
    ensures { OnOk result (text.new.items ≡ text.old.items ++ stores_text m.now.desc.word l stores.now) }
{
    for store in stores {
        push_cell(text, m, u64::from(l) + u64::from(store.at), store.cell)?;
    }
    Ok(())
}

/// Pushes a cell and its new word.
fn push_cell(text: &mut Vec<u8>, m: &Machine, at: u64, word: u64) -> Result<(), AllocError>
    requires { word < 2 ^ m.now.desc.word }
    ensures { OnOk result (text.new.items ≡ text.old.items ++ cell_text m.now.desc.word at word) }
{
    text.extend_from_slice(b" [")?;
    text.extend_from_slice(dec(at).as_slice())?;
    text.extend_from_slice(b"]=")?;
    text.extend_from_slice(hex_word(m.shape().w, word).as_slice())
}

/// Pushes P, the mode and R, where an instruction set them.
#[tactic(auto, unfolding(crate::specs::Lines::moved_text))]
fn push_moved(text: &mut Vec<u8>, old: &Psw, new: &Psw) -> Result<(), AllocError>
    ensures { OnOk result (text.new.items ≡ text.old.items ++ moved_text old.now new.now) }
{
    push_p(text, old, new)?;
    push_mode(text, old, new)?;
    push_r(text, old, new)
}

/// Why a step trapped.
fn cause_text(cause: Cause) -> &'static [u8]
    ensures { result.now ≡ cause_text cause }
{
    match cause {
        Cause::Memory => b" trap (memory)",
        Cause::Trap => b" trap (trap)",
        Cause::NoPattern => b" trap (no pattern)",
    }
}

/// Pushes where the machine goes on.
fn push_onward(text: &mut Vec<u8>, psw: &Psw) -> Result<(), AllocError>
    ensures { OnOk result (text.new.items ≡ text.old.items ++ onward_text psw.now) }
{
    text.extend_from_slice(b" to ")?;
    text.push(mode_letter(psw.mode))?;
    text.push(b' ')?;
    text.extend_from_slice(dec(u64::from(psw.p)).as_slice())
}

/// Pushes P, where it is not the address behind.
fn push_p(text: &mut Vec<u8>, old: &Psw, new: &Psw) -> Result<(), AllocError>
    ensures { OnOk result (text.new.items ≡ text.old.items ++ p_text old.now new.now) }
{
    if u64::from(new.p) == u64::from(old.p) + 1 {
        return Ok(());
    }
    text.extend_from_slice(b" P=")?;
    text.extend_from_slice(dec(u64::from(new.p)).as_slice())
}

/// Whether two modes are the same.
fn same_mode(new: Mode, old: Mode) -> bool
    ensures { result ≡ same_mode new old }
{
    match (new, old) {
        (Mode::S, Mode::S) | (Mode::U, Mode::U) => true,
        _ => false,
    }
}

/// Pushes the mode, where it is another one than before.
fn push_mode(text: &mut Vec<u8>, old: &Psw, new: &Psw) -> Result<(), AllocError>
    ensures { OnOk result (text.new.items ≡ text.old.items ++ mode_text old.now new.now) }
{
    if same_mode(new.mode, old.mode) {
        return Ok(());
    }
    text.extend_from_slice(b" mode=")?;
    text.push(mode_letter(new.mode))?;
    Ok(())
}

/// Pushes R, where it is another one than before.
fn push_r(text: &mut Vec<u8>, old: &Psw, new: &Psw) -> Result<(), AllocError>
    ensures { OnOk result (text.new.items ≡ text.old.items ++ r_text old.now new.now) }
{
    if new.l == old.l && new.b == old.b {
        return Ok(());
    }
    text.extend_from_slice(b" R=")?;
    text.extend_from_slice(dec(u64::from(new.l)).as_slice())?;
    text.push(b',')?;
    text.extend_from_slice(dec(u64::from(new.b)).as_slice())
}
