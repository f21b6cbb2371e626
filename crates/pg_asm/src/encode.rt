//! The word of an instruction's line.
//!
//! The operands of a line are read as often as they are asked for, in the order in which a fault of them is told: whether they
//! are for the fields of the pattern, whether each label that they use is given, and whether their values fit. No memory is
//! taken.

ghost use Rattle.std.specs.Prelude.{◌≡◌, ◌<◌, ◌≤◌, ◌^◌, length, position, bytes_eq, Some, IfOk, IfSome, IsTrue};
ghost use Rattle.std.specs.Option.{option_map};
ghost use Rattle.pg_lang_token.specs.Words.{is_name};
ghost use Rattle.pg_image.specs.Images.{parts_of};
ghost use Rattle.pg_lang_valid.specs.Twice.{instr_names};
ghost use Rattle.pg_asm.specs.Words.{pattern_of};
ghost use Rattle.pg_asm.specs.Said.{Value, value_said};
ghost use Rattle.pg_asm.specs.Lines.{operands_in, SaysOperands, IsInstrText};
ghost use Rattle.pg_asm.specs.Sources.{number_of, numbers_of, same_letters, encoded, instr_word};

use crate::fault::AsmFault;
use crate::fields::{LetterField, PLACES, fields_of, fit};
use crate::labels::LabelTable;
use crate::line::InstrText;
use crate::words::{pattern_of, word_of};
use arrayvec::ArrayVec;
use pg_image::split_part;
use pg_mach_ready::Machine;
use pg_text::dec_number;

/// The number that a value stands for; `None` where it is a label that no line gives.
fn number_of(labels: &LabelTable, text: &[u8]) -> Option<u64>
    ensures { (value : Value) → value_said text.now ≡ Some value → result ≡ number_of labels.now value }
{
    match dec_number(text) {
        Some(number) => Some(number),
        None => match labels.mark_of(text) {
            Some(mark) => Some(mark.place as u64),
            None => None,
        },
    }
}

/// The numbers of the values of operands; `None` where one is a label that no line gives.
fn numbers_of(labels: &LabelTable, operands: &[u8]) -> Option<ArrayVec<u64, PLACES>>
    requires says { SaysOperands operands.now }
    requires few { length (parts_of operands.now) ≤ 64 }
    ensures { option_map (λ numbers. numbers.items) result ≡ numbers_of labels.now (operands_in operands.now) }
{
    let mut numbers = ArrayVec::new();
    let mut left = operands;
    while let Some((part, rest)) = split_part(left) {
        match number_of(labels, &part[2..]) {
            None => return None,
            Some(number) => numbers.push(number),
        }
        left = rest;
    }
    Some(numbers)
}

/// Whether the operands are for these fields, each once, in this order.
fn have_letters(fields: &[LetterField], operands: &[u8]) -> bool
    requires { SaysOperands operands.now }
    ensures { result ≡ same_letters fields.now (operands_in operands.now) }
{
    let mut k = 0;
    let mut left = operands;
    while let Some((part, rest)) = split_part(left) {
        if k == fields.len() {
            return false;
        }
        if fields[k].letter != part[0] {
            return false;
        }
        k += 1;
        left = rest;
    }
    k == fields.len()
}

/// The word of the instruction of this number and operands on line `n`.
///
/// # Errors
/// `Field` where the operands are not for the fields of its pattern, each once, from the highest; then `Label` where one is a label
/// that no line gives; then `Range` where a value does not fit its field.
fn encode(
    machine: &Machine,
    labels: &LabelTable,
    n: usize,
    number: usize,
    operands: &[u8],
) -> Result<u64, AsmFault>
    requires there { number < length machine.now.desc.instrs }
    requires says { SaysOperands operands.now }
    ensures word { result ≡ encoded labels.now n (pattern_of machine.now.desc.instrs number) (operands_in operands.now) }
    ensures fits { IfOk result (λ word. word < 2 ^ machine.now.desc.word) }
{
    let fields = fields_of(pattern_of(machine, number));
    if !have_letters(fields.as_slice(), operands) {
        return Err(AsmFault::Field(n));
    }
    match numbers_of(labels, operands) {
        None => Err(AsmFault::Label(n)),
        Some(values) => {
            if fit(fields.as_slice(), values.as_slice()) {
                Ok(word_of(machine, number, values.as_slice()))
            } else {
                Err(AsmFault::Range(n))
            }
        }
    }
}

/// The number of the instruction of a name.
fn find(machine: &Machine, name: &[u8]) -> Option<usize>
    requires { IsTrue (is_name name.now) }
    ensures number { result ≡ position (λ m. bytes_eq m name.now) (instr_names machine.now.desc.instrs) }
    ensures within { IfSome result (λ k. k < length machine.now.desc.instrs) }
{
    match str::from_utf8(name) {
        Ok(text) => machine.find(text),
        Err(_) => None,
    }
}

/// The word of an instruction on line `n`.
///
/// # Errors
/// `Name` where there is no instruction of that name, and what `encode` says.
pub fn instr_word(
    machine: &Machine,
    labels: &LabelTable,
    n: usize,
    instr: &InstrText,
) -> Result<u64, AsmFault>
    requires { IsInstrText instr.now }
    ensures word { result ≡ instr_word machine.now.desc labels.now n instr.now.name.now (operands_in instr.now.operands.now) }
    ensures fits { IfOk result (λ word. word < 2 ^ machine.now.desc.word) }
{
    match find(machine, instr.name) {
        None => Err(AsmFault::Name(n)),
        Some(number) => encode(machine, labels, n, number, instr.operands),
    }
}
