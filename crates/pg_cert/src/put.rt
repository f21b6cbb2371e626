//! Lines as text, put at the end of bytes.
//!
//! Each function takes the parts of one line by reference, so that nothing is copied to be written. The only memory is that
//! of the bytes, and each error is want of it. What was put by then may be any part of the line: no clause speaks of it, and
//! nothing rests on it, since whoever puts lines gives the bytes up where one was refused.

ghost use Rattle.std.specs.Prelude.{◌≡◌, ◌+◌, ◌/◌, ◌%◌, ◌^◌, ◌<◌, ◌≤◌, ◌++◌, ◌∷◌, [], All, map, pos, OnOk};
ghost use Rattle.std.specs.Fmt.{decimal, signed_decimal};
ghost use Rattle.pg_word.specs.Shape.{IsShape};
ghost use Rattle.pg_text.specs.Printing.{hex_text};
ghost use Rattle.pg_image.specs.Lines.{mode_text};
ghost use Rattle.pg_cert.specs.Lines.{heading_parts, header_parts, kind_text, found_parts, step_parts, removal_parts, size_parts, psw_parts, cells_parts, end_parts, parts_text, spaced, line_text, DoWordsFit};

use crate::line::{Found, Heading, Line};
use pg_proof::Step;
use pg_text::{dec, hex_word};
use pg_type::Kind;
use pg_word::{Mode, Psw, Shape};
use std::alloc::AllocError;

/// Puts bytes.
fn put(bytes: &[u8], into: &mut Vec<u8>) -> Result<(), AllocError>
    ensures { OnOk result (into.new.items ≡ into.old.items ++ bytes.now) }
{
    into.extend_from_slice(bytes)
}

/// Puts LF, which ends a line.
fn put_line_end(into: &mut Vec<u8>) -> Result<(), AllocError>
    ensures { OnOk result (into.new.items ≡ into.old.items ++ 10 ∷ []) }
{
    put(b"\n", into)
}

/// Puts a space and bytes.
fn put_part(part: &[u8], into: &mut Vec<u8>) -> Result<(), AllocError>
    ensures { OnOk result (into.new.items ≡ into.old.items ++ 32 ∷ part.now) }
{
    into.push(b' ')?;
    into.extend_from_slice(part)
}

/// Puts a space and a number, as decimal digits.
fn put_number(number: u32, into: &mut Vec<u8>) -> Result<(), AllocError>
    ensures { OnOk result (into.new.items ≡ into.old.items ++ 32 ∷ decimal number) }
{
    put_part(dec(u64::from(number)).as_slice(), into)
}

/// Puts a space and numbers, one space before each.
#[tactic(auto, unfolding(crate::specs::Lines::spaced))]
fn put_numbers(numbers: &[u32], into: &mut Vec<u8>) -> Result<(), AllocError>
    ensures { OnOk result (into.new.items ≡ into.old.items ++ spaced (map decimal numbers.now)) }
{
    for number in numbers {
        put_number(*number, into)?;
    }
    Ok(())
}

/// Puts a space, the sign of a literal where it is a negation, and its variable.
fn put_lit(lit: i32, into: &mut Vec<u8>) -> Result<(), AllocError>
    ensures { OnOk result (into.new.items ≡ into.old.items ++ 32 ∷ signed_decimal lit) }
{
    if lit < 0 {
        put(b" -", into)?;
        return put(dec(u64::from(lit.unsigned_abs())).as_slice(), into);
    }
    put_number(lit.unsigned_abs(), into)
}

/// Puts literals, one space before each.
#[tactic(auto, unfolding(crate::specs::Lines::spaced))]
fn put_lits(lits: &[i32], into: &mut Vec<u8>) -> Result<(), AllocError>
    ensures { OnOk result (into.new.items ≡ into.old.items ++ spaced (map signed_decimal lits.now)) }
{
    for lit in lits {
        put_lit(*lit, into)?;
    }
    Ok(())
}

/// Puts words of `w` bits, one space before each.
#[tactic(auto, unfolding(crate::specs::Lines::spaced))]
fn put_words(w: u32, words: &[u64], into: &mut Vec<u8>) -> Result<(), AllocError>
    requires bytes { w % 8 ≡ 0 }
    requires least { 16 ≤ w }
    requires most { w ≤ 64 }
    requires fit { All (λ word. word < 2 ^ w) words.now }
    ensures { OnOk result (into.new.items ≡ into.old.items ++ spaced (map (hex_text (w / 4)) words.now)) }
{
    for word in words {
        put_part(hex_word(w, *word).as_slice(), into)?;
    }
    Ok(())
}

/// Puts what ends a list of numbers.
fn put_zero(into: &mut Vec<u8>) -> Result<(), AllocError>
    ensures { OnOk result (into.new.items ≡ into.old.items ++ 32 ∷ 48 ∷ []) }
{
    put_part(b"0", into)
}

/// The text of a first line.
fn heading_bytes(heading: Heading) -> &'static [u8]
    ensures { result.now ≡ parts_text (heading_parts heading) }
{
    match heading {
        Heading::PlainOne => b"pgcert 1\n",
        Heading::PlainTwo => b"pgcert 2\n",
        Heading::HybridOne => b"pghybrid 1\n",
    }
}

/// Puts the first line of a certificate.
pub fn put_first(heading: Heading, into: &mut Vec<u8>) -> Result<(), AllocError>
    ensures { OnOk result (into.new.items ≡ into.old.items ++ parts_text (heading_parts heading)) }
{
    put(heading_bytes(heading), into)
}

/// The name of a kind.
pub fn kind_name(kind: Kind) -> &'static [u8]
    ensures { result.now ≡ kind_text kind }
{
    match kind {
        Kind::Privileged => b"privileged",
        Kind::Control => b"control",
        Kind::ModeDep => b"mode",
        Kind::Location => b"location",
        Kind::Bound => b"bound",
        Kind::UControl => b"ucontrol",
        Kind::ULocation => b"ulocation",
        Kind::UBound => b"ubound",
    }
}

/// Puts what was found.
#[tactic(auto, unfolding(crate::specs::Lines::spaced))]
fn put_found(found: Found, into: &mut Vec<u8>) -> Result<(), AllocError>
    ensures { OnOk result (into.new.items ≡ into.old.items ++ spaced (found_parts found)) }
{
    match found {
        Found::Refuted => put(b" refuted", into),
        Found::Shown => put(b" shown", into),
        Found::Spent(steps) => {
            put(b" spent", into)?;
            put_number(steps, into)
        }
    }
}

/// Puts the header of a finding: of the instruction of this name, and this kind.
pub fn put_header(
    name: &[u8],
    kind: Kind,
    found: Found,
    into: &mut Vec<u8>,
) -> Result<(), AllocError>
    ensures { OnOk result (into.new.items ≡ into.old.items ++ parts_text (header_parts name.now kind found)) }
{
    put(b"finding", into)?;
    put_part(name, into)?;
    put_part(kind_name(kind), into)?;
    put_found(found, into)?;
    put_line_end(into)
}

/// Puts the line of a step.
pub fn put_step(step: &Step, into: &mut Vec<u8>) -> Result<(), AllocError>
    ensures { OnOk result (into.new.items ≡ into.old.items ++ parts_text (step_parts step.now.lits step.now.hints)) }
{
    put(b"s", into)?;
    put_lits(step.lits.as_slice(), into)?;
    put_zero(into)?;
    put_numbers(step.hints.as_slice(), into)?;
    put_zero(into)?;
    put_line_end(into)
}

/// Puts the line that takes clauses away.
pub fn put_removal(numbers: &[u32], into: &mut Vec<u8>) -> Result<(), AllocError>
    ensures { OnOk result (into.new.items ≡ into.old.items ++ parts_text (removal_parts numbers.now)) }
{
    put(b"d", into)?;
    put_numbers(numbers, into)?;
    put_zero(into)?;
    put_line_end(into)
}

/// Puts the line of a size.
pub fn put_size(size: u32, into: &mut Vec<u8>) -> Result<(), AllocError>
    ensures { OnOk result (into.new.items ≡ into.old.items ++ parts_text (size_parts size)) }
{
    put(b"size", into)?;
    put_number(size, into)?;
    put_line_end(into)
}

/// The letter of a mode.
fn mode_letter(mode: Mode) -> &'static [u8; 1]
    ensures { result.now ≡ mode_text mode }
{
    match mode {
        Mode::S => b"s",
        Mode::U => b"u",
    }
}

/// Puts the line of a program status word.
pub fn put_psw(psw: &Psw, into: &mut Vec<u8>) -> Result<(), AllocError>
    ensures { OnOk result (into.new.items ≡ into.old.items ++ parts_text (psw_parts psw.now)) }
{
    put(b"psw", into)?;
    put_part(mode_letter(psw.mode), into)?;
    put_number(psw.p, into)?;
    put_number(psw.l, into)?;
    put_number(psw.b, into)?;
    put_line_end(into)
}

/// Puts the line of cells: these words of `w` bits from the cell `first` on.
pub fn put_cells(w: u32, first: u32, words: &[u64], into: &mut Vec<u8>) -> Result<(), AllocError>
    requires bytes { w % 8 ≡ 0 }
    requires least { 16 ≤ w }
    requires most { w ≤ 64 }
    requires fit { All (λ word. word < 2 ^ w) words.now }
    ensures { OnOk result (into.new.items ≡ into.old.items ++ parts_text (cells_parts w first words.now)) }
{
    put(dec(u64::from(first)).as_slice(), into)?;
    put(b":", into)?;
    put_words(w, words, into)?;
    put_line_end(into)
}

/// Puts the last line of a certificate.
pub fn put_end(into: &mut Vec<u8>) -> Result<(), AllocError>
    ensures { OnOk result (into.new.items ≡ into.old.items ++ parts_text end_parts) }
{
    put(b"end\n", into)
}

/// Puts a line of a machine of this shape, whose words of cells have as many bits as the shape says.
#[tactic(auto, unfolding(crate::specs::Lines::line_text, crate::specs::Lines::line_parts))]
pub fn put_line(shape: &Shape, line: &Line, into: &mut Vec<u8>) -> Result<(), AllocError>
    requires shape { IsShape shape.now }
    requires fit { DoWordsFit shape.now.w line.now }
    ensures { OnOk result (into.new.items ≡ into.old.items ++ line_text shape.now line.now) }
{
    match line {
        Line::First(heading) => put_first(*heading, into),
        Line::Header(name, kind, found) => put_header(name.as_slice(), *kind, *found, into),
        Line::Step(step) => put_step(step, into),
        Line::Remove(numbers) => put_removal(numbers.as_slice(), into),
        Line::Size(size) => put_size(*size, into),
        Line::Psw(psw) => put_psw(psw, into),
        Line::Cells(first, words) => put_cells(shape.w, *first, words.as_slice(), into),
        Line::End => put_end(into),
    }
}
