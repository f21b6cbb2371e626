//! What the parts of a line are read as.
//!
//! More is taken here than lines have parts, as leading zeros: what is read is a line only where it is spelled so.

ghost use Rattle.std.specs.Prelude.{◌≡◌, ◌≤◌, ◌%◌, ◌==◌, drop, bytes_eq, Some, IfOk, IfSome};
ghost use Rattle.pg_cert.specs.Reading.{read_number, read_lit, read_numbers, read_words, read_kind, read_mode, read_heading, read_found, read_step, read_header, read_psw, read_cells, read_parts, but_last, last_byte, part_at, then_read, is_zero, AreLitsRead};
ghost use Rattle.pg_cert.specs.declared.line.Line.TheVariants.{Size, Remove};
ghost use Rattle.pg_cert.specs.Lines.{most_number};

use crate::line::{Found, Heading, Line};
use crate::parts::Parts;
use pg_proof::{HintList, LitList, Step};
use pg_text::{dec_number, hex_word_of};
use pg_type::Kind;
use pg_word::{Mode, Psw};
use sqlite_items::Items;
use std::alloc::{AllocError, Global};

/// The greatest variable of a literal.
const MOST_VARIABLE: u32 = 2_147_483_647;

/// Whether these bytes are those of a word.
pub fn is_same(bytes: &[u8], word: &[u8]) -> bool
    ensures { result ≡ bytes_eq bytes.now word.now }
{
    bytes == word
}

/// The number of decimal digits, up to a greatest one.
#[tactic(auto, unfolding(crate::specs::Reading::read_number))]
pub fn number(most: u32, part: &[u8]) -> Option<u32>
    ensures number { result ≡ read_number most part.now }
    ensures within { IfSome result (λ n. n ≤ most) }
{
    match dec_number(part) {
        None => None,
        Some(value) => {
            if value <= u64::from(most) {
                Some(value as u32)
            } else {
                None
            }
        }
    }
}

/// The literal of a part.
#[tactic(auto, unfolding(crate::specs::Reading::read_lit))]
pub fn literal(part: &[u8]) -> Option<i32>
    ensures { result ≡ read_lit part.now }
{
    match part.split_first() {
        None => None,
        Some((first, digits)) => {
            if *first == b'-' {
                match number(MOST_VARIABLE, digits) {
                    None => None,
                    Some(variable) => Some(-(variable as i32)),
                }
            } else {
                match number(MOST_VARIABLE, part) {
                    None => None,
                    Some(variable) => Some(variable as i32),
                }
            }
        }
    }
}

/// The numbers of the parts from a place on, up to a 0, which is the last part.
pub fn numbers(
    alloc: Global,
    parts: &Parts<'_>,
    from: usize,
) -> Result<Option<HintList>, AllocError>
    ensures { IfOk result (λ numbers. numbers ≡ read_numbers (drop from parts.now)) }
{
    let mut numbers = HintList::new(alloc);
    for at in from..parts.len() {
        match number(u32::MAX, parts.part(at)) {
            None => return Ok(None),
            Some(value) => {
                if value == 0 {
                    if at + 1 == parts.len() {
                        return Ok(Some(numbers));
                    }
                    return Ok(None);
                }
                numbers.push(value)?;
            }
        }
    }
    Ok(None)
}

/// The words of the parts from a place on.
pub fn words(
    alloc: Global,
    w: u32,
    parts: &Parts<'_>,
    from: usize,
) -> Result<Option<Items<u64>>, AllocError>
    requires bytes { w % 8 ≡ 0 }
    requires most { w ≤ 64 }
    ensures { IfOk result (λ words. words ≡ read_words w (drop from parts.now)) }
{
    let mut words = Items::new(alloc);
    for at in from..parts.len() {
        match hex_word_of(w, parts.part(at)) {
            None => return Ok(None),
            Some(word) => words.push(word)?,
        }
    }
    Ok(Some(words))
}

/// The kind of a name.
pub fn kind(part: &[u8]) -> Option<Kind>
    ensures { result ≡ read_kind part.now }
{
    if is_same(part, b"privileged") {
        return Some(Kind::Privileged);
    }
    if is_same(part, b"control") {
        return Some(Kind::Control);
    }
    if is_same(part, b"mode") {
        return Some(Kind::ModeDep);
    }
    if is_same(part, b"location") {
        return Some(Kind::Location);
    }
    if is_same(part, b"bound") {
        return Some(Kind::Bound);
    }
    if is_same(part, b"ucontrol") {
        return Some(Kind::UControl);
    }
    if is_same(part, b"ulocation") {
        return Some(Kind::ULocation);
    }
    if is_same(part, b"ubound") {
        return Some(Kind::UBound);
    }
    None
}

/// The mode of a letter.
pub fn mode(part: &[u8]) -> Option<Mode>
    ensures { result ≡ read_mode part.now }
{
    if is_same(part, b"s") {
        return Some(Mode::S);
    }
    if is_same(part, b"u") {
        return Some(Mode::U);
    }
    None
}

/// The heading of a first line.
pub fn heading(parts: &Parts<'_>) -> Option<Heading>
    ensures { result ≡ read_heading parts.now }
{
    let version = parts.part(1);
    if is_same(parts.part(0), b"pgcert") {
        if is_same(version, b"1") {
            return Some(Heading::PlainOne);
        }
        if is_same(version, b"2") {
            return Some(Heading::PlainTwo);
        }
        return None;
    }
    if is_same(version, b"1") {
        return Some(Heading::HybridOne);
    }
    None
}

/// What a header says was found.
pub fn found(parts: &Parts<'_>) -> Option<Found>
    ensures { result ≡ read_found parts.now }
{
    if parts.len() == 4 {
        if is_same(parts.part(3), b"refuted") {
            return Some(Found::Refuted);
        }
        return Some(Found::Shown);
    }
    match number(u32::MAX, parts.part(4)) {
        None => None,
        Some(steps) => Some(Found::Spent(steps)),
    }
}

/// Whether it is 0, which ends a list of literals.
fn is_zero(lit: &i32) -> bool
    ensures { result ≡ is_zero lit.now }
{
    *lit == 0
}

/// The literals of the parts from a place on, up to a 0, and the place behind that.
pub fn lits(
    alloc: Global,
    parts: &Parts<'_>,
    from: usize,
) -> Result<Option<(LitList, usize)>, AllocError>
    ensures { IfOk result (λ lits. AreLitsRead lits (drop from parts.now) parts.now) }
{
    let mut lits = LitList::new(alloc);
    for at in from..parts.len() {
        match literal(parts.part(at)) {
            None => return Ok(None),
            Some(lit) => {
                if is_zero(&lit) {
                    return Ok(Some((lits, at + 1)));
                }
                lits.push(lit)?;
            }
        }
    }
    Ok(None)
}

/// The line of a step.
pub fn step(alloc: Global, parts: &Parts<'_>) -> Result<Option<Line>, AllocError>
    ensures { IfOk result (λ line. line ≡ read_step parts.now) }
{
    match lits(alloc, parts, 1)? {
        None => Ok(None),
        Some((lits, at)) => match numbers(alloc, parts, at)? {
            None => Ok(None),
            Some(hints) => Ok(Some(Line::Step(Step { lits, hints }))),
        },
    }
}

/// The line that takes clauses away.
pub fn removal(alloc: Global, parts: &Parts<'_>) -> Result<Option<Line>, AllocError>
    ensures { IfOk result (λ line. line ≡ then_read (read_numbers (drop 1 parts.now)) (λ numbers. Some (Remove numbers))) }
{
    match numbers(alloc, parts, 1)? {
        None => Ok(None),
        Some(numbers) => Ok(Some(Line::Remove(numbers))),
    }
}

/// The header of a finding.
pub fn header(alloc: Global, parts: &Parts<'_>) -> Result<Option<Line>, AllocError>
    ensures { IfOk result (λ line. line ≡ read_header parts.now) }
{
    match kind(parts.part(2)) {
        None => Ok(None),
        Some(kind) => match found(parts) {
            None => Ok(None),
            Some(found) => Ok(Some(Line::Header(
                Items::from_slice(alloc, parts.part(1))?,
                kind,
                found,
            ))),
        },
    }
}

/// The line of a size.
pub fn size(parts: &Parts<'_>) -> Option<Line>
    ensures { result ≡ then_read (read_number most_number (part_at parts.now 1)) (λ n. Some (Size n)) }
{
    match number(u32::MAX, parts.part(1)) {
        None => None,
        Some(size) => Some(Line::Size(size)),
    }
}

/// The line of a program status word.
pub fn psw(parts: &Parts<'_>) -> Option<Line>
    ensures { result ≡ read_psw parts.now }
{
    match mode(parts.part(1)) {
        None => None,
        Some(mode) => match number(u32::MAX, parts.part(2)) {
            None => None,
            Some(p) => match number(u32::MAX, parts.part(3)) {
                None => None,
                Some(l) => match number(u32::MAX, parts.part(4)) {
                    None => None,
                    Some(b) => Some(Line::Psw(Psw { mode, p, l, b })),
                },
            },
        },
    }
}

/// Whether a colon is the last byte.
pub fn ends_in_colon(part: &[u8]) -> bool
    ensures { result ≡ (last_byte part.now == 58) }
{
    if part.is_empty() {
        return false;
    }
    part[part.len() - 1] == b':'
}

/// All bytes but the last.
pub fn but_last(part: &[u8]) -> &[u8]
    ensures { result.now ≡ but_last part.now }
{
    if part.is_empty() {
        return part;
    }
    &part[..part.len() - 1]
}

/// The line of cells.
pub fn cells(alloc: Global, w: u32, parts: &Parts<'_>) -> Result<Option<Line>, AllocError>
    requires bytes { w % 8 ≡ 0 }
    requires most { w ≤ 64 }
    ensures { IfOk result (λ line. line ≡ read_cells w parts.now) }
{
    match number(u32::MAX, but_last(parts.part(0))) {
        None => Ok(None),
        Some(first) => match words(alloc, w, parts, 1)? {
            None => Ok(None),
            Some(words) => Ok(Some(Line::Cells(first, words))),
        },
    }
}

/// What the parts of a line are read as, for words of `w` bits: the line whose parts they are, where there is one.
#[tactic(auto, unfolding(crate::specs::Reading::read_parts))]
pub fn line_of(alloc: Global, w: u32, parts: &Parts<'_>) -> Result<Option<Line>, AllocError>
    requires bytes { w % 8 ≡ 0 }
    requires most { w ≤ 64 }
    ensures { IfOk result (λ line. line ≡ read_parts w parts.now) }
{
    let head = parts.part(0);
    if ends_in_colon(head) {
        return cells(alloc, w, parts);
    }
    if is_same(head, b"s") {
        return step(alloc, parts);
    }
    if is_same(head, b"d") {
        return removal(alloc, parts);
    }
    if is_same(head, b"finding") {
        return header(alloc, parts);
    }
    if is_same(head, b"size") {
        return Ok(size(parts));
    }
    if is_same(head, b"psw") {
        return Ok(psw(parts));
    }
    if is_same(head, b"end") {
        return Ok(Some(Line::End));
    }
    match heading(parts) {
        None => Ok(None),
        Some(heading) => Ok(Some(Line::First(heading))),
    }
}
