//! Proofs that are texts: one record a line.
//!
//! A line of DRAT is `LITERALS 0` for a clause that is added, `d LITERALS 0` for one that is removed. One of LRAT is
//! `NUMBER LITERALS 0 HINTS 0`, or `NUMBER d NUMBERS 0`. What the first line is, all are. Hints are not kept: they are looked for
//! anew. Empty lines and comments, which begin with `c`, say nothing.

use crate::bytes::Bytes;
use crate::fault::ForeignFault;
use crate::record::{Act, IdList, Place, Record, RecordList};
use crate::words::{Numbers, literals_of, numbers_of, says_nothing, text_of};
use std::alloc::{AllocError, Global};

/// The records of a text.
pub fn read_text(alloc: Global, bytes: &[u8]) -> Result<RecordList, ForeignFault> {
    let mut reader = Reader {
        records: RecordList::new(alloc),
        last: 0,
    };
    let mut bytes = Bytes { left: bytes };
    let mut number = 0u64;
    while let Some(line) = bytes.line() {
        number = number.saturating_add(1);
        reader.read(alloc, Place::Line(number), line)?;
    }
    Ok(reader.records)
}

/// The records that were read, and the last number of a clause among them.
#[derive(Drop)]
struct Reader {
    records: RecordList,
    last: u64,
}

impl Reader {
    /// Reads a line.
    fn read(&mut self, alloc: Global, place: Place, line: &[u8]) -> Result<(), ForeignFault> {
        let text = text_of(line).ok_or(ForeignFault::Malformed(place))?;
        if says_nothing(text) {
            return Ok(());
        }
        let numbers = numbers_of(alloc, text)?.ok_or(ForeignFault::Malformed(place))?;
        let act = act_of(alloc, &numbers)?.ok_or(ForeignFault::Malformed(place))?;
        if !self.may_follow(&act) {
            return Err(ForeignFault::Malformed(place));
        }
        self.records.push(Record { place, act })?;
        Ok(())
    }

    /// Whether an act is of the form of the first one. The numbers that clauses get have to ascend.
    fn may_follow(&mut self, act: &Act) -> bool {
        let numbered = match act {
            Act::Add(_) | Act::Remove(_) => false,
            Act::AddNumbered(number, _) => {
                if *number <= self.last {
                    return false;
                }
                self.last = *number;
                true
            }
            Act::RemoveNumbered(_) => true,
        };
        match self.records.as_slice().first() {
            None => true,
            Some(record) => is_numbered(&record.act) == numbered,
        }
    }
}

/// Whether an act is of LRAT.
fn is_numbered(act: &Act) -> bool {
    match act {
        Act::Add(_) | Act::Remove(_) => false,
        Act::AddNumbered(..) | Act::RemoveNumbered(_) => true,
    }
}

/// The act that the numbers of a line are, or none.
fn act_of(alloc: Global, line: &Numbers) -> Result<Option<Act>, AllocError> {
    let [before @ .., 0] = line.numbers.as_slice() else {
        return Ok(None);
    };
    match line.removal {
        None => addition_of(alloc, before),
        Some(0) => Ok(literals_of(alloc, before)?.map(|lits| Act::Remove(lits))),
        Some(1) => match before {
            [_, ids @ ..] => Ok(ids_of(alloc, ids)?.map(|ids| Act::RemoveNumbered(ids))),
            [] => Ok(None),
        },
        Some(_) => Ok(None),
    }
}

/// The addition that the numbers before the last 0 are, or none.
fn addition_of(alloc: Global, numbers: &[i64]) -> Result<Option<Act>, AllocError> {
    let Some(end) = numbers.iter().position(|number| *number == 0) else {
        return Ok(literals_of(alloc, numbers)?.map(|lits| Act::Add(lits)));
    };
    if end >= numbers.len() {
        return Ok(None);
    }
    let (front, hints) = numbers.split_at(end);
    if !are_hints(&hints[1..]) {
        return Ok(None);
    }
    match front {
        [id, literals @ ..] if 0 < *id => {
            let id = id.unsigned_abs();
            Ok(literals_of(alloc, literals)?.map(|lits| Act::AddNumbered(id, lits)))
        }
        _ => Ok(None),
    }
}

/// Whether numbers may be hints: none is 0.
fn are_hints(numbers: &[i64]) -> bool {
    numbers.iter().all(|number| *number != 0)
}

/// The numbers of clauses that numbers are: none where one is not positive.
fn ids_of(alloc: Global, numbers: &[i64]) -> Result<Option<IdList>, AllocError> {
    let mut ids = IdList::new(alloc);
    for number in numbers {
        if *number <= 0 {
            return Ok(None);
        }
        ids.push(number.unsigned_abs())?;
    }
    Ok(Some(ids))
}
