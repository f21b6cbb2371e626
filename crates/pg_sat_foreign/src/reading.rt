//! A file, whatever its form.

use crate::answer::{is_answer, read_answer};
use crate::binary::read_binary;
use crate::fault::ForeignFault;
use crate::record::Foreign;
use crate::text::read_text;
use std::alloc::Global;

/// What a file says: a proof, or an assignment. The fault has the line or the record that is at fault first; of an assignment
/// without its end there is none.
pub fn read(alloc: Global, bytes: &[u8]) -> Result<Foreign, ForeignFault> {
    if bytes.iter().any(|byte| *byte == 0) {
        return Ok(Foreign::Proof(read_binary(alloc, bytes)?));
    }
    if is_answer(bytes) {
        return Ok(Foreign::Model(read_answer(alloc, bytes)?));
    }
    Ok(Foreign::Proof(read_text(alloc, bytes)?))
}
