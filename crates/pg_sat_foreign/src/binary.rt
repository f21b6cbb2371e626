//! Binary proofs, DRAT alone.
//!
//! A record is a byte `a` for a clause that is added, or `d` for one that is removed, its literals, and a byte 0. A literal is the
//! number 2 v for variable v and 2 v + 1 for its negation, seven bits a byte, the low ones first, with the highest bit set in each
//! byte but the last.

ghost use Rattle.std.specs.Prelude.{◌<◌, ◌≤◌, length, OnSome};

use crate::bytes::Bytes;
use crate::fault::ForeignFault;
use crate::record::{Act, Place, Record, RecordList};
use crate::words::literal_of;
use pg_proof::LitList;
use std::alloc::{AllocError, Global};

/// The records of a binary proof.
pub fn read_binary(alloc: Global, bytes: &[u8]) -> Result<RecordList, ForeignFault> {
    let mut records = RecordList::new(alloc);
    let mut bytes = Bytes { left: bytes };
    let mut number = 0u64;
    while let Some(first) = bytes.byte() {
        number = number.saturating_add(1);
        let place = Place::Record(number);
        let literals = literals(alloc, &mut bytes)?.ok_or(ForeignFault::Malformed(place))?;
        let act = match first {
            b'a' => Act::Add(literals),
            b'd' => Act::Remove(literals),
            _ => return Err(ForeignFault::Malformed(place)),
        };
        records.push(Record { place, act })?;
    }
    Ok(records)
}

/// The literals up to the byte 0 that ends them, or none where they are none.
fn literals(alloc: Global, bytes: &mut Bytes<'_>) -> Result<Option<LitList>, AllocError>
    ensures rest { length bytes.new.left.now ≤ length bytes.old.left.now }
{
    let mut literals = LitList::new(alloc);
    while let Some(code) = code(bytes) {
        if code == 0 {
            return Ok(Some(literals));
        }
        match literal_of(number_of(code)) {
            Some(literal) => literals.push(literal)?,
            None => return Ok(None),
        }
    }
    Ok(None)
}

/// The number that a code of a literal stands for.
fn number_of(code: u64) -> i64 {
    let variable = (code / 2) as i64;
    if code % 2 == 1 { -variable } else { variable }
}

/// The code at the head of some bytes, below 2^35: none where they have no end of one.
fn code(bytes: &mut Bytes<'_>) -> Option<u64>
    ensures shorter { OnSome result (length bytes.new.left.now < length bytes.old.left.now) }
    ensures rest { length bytes.new.left.now ≤ length bytes.old.left.now }
{
    let mut code = 0;
    for place in 0..5u32 {
        let byte = bytes.byte()?;
        code |= u64::from(byte & 0x7f) << (7 * place);
        if byte < 0x80 {
            return Some(code);
        }
    }
    None
}
