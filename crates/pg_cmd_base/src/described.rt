//! Bytes to machines.
//!
//! `load_machine` calls `machine_of` with the bytes of a file. They are read (`pg_read`), and what is read is checked
//! (`pg_mach_ready`); the first fault of either becomes the line that tells of it, each the one of its name. The bytes are known
//! to keep the reader's limit, so its `Long` never comes. Lack of memory is no fault of the text, and has no line.

ghost use Rattle.std.specs.Prelude.{◌≡◌, ◌≤◌, length, IfOk, IfErr, IfSome, Ok, Err};
ghost use Rattle.pg_read.specs.Answer.{most_desc_bytes};
ghost use Rattle.pg_cmd_base.specs.Descriptions.{TextDue, told_of_reading, told_of_type};

use pg_lang_valid::TypeFault;
use pg_mach_ready::{Machine, check};
use pg_read::{DescFault, read_desc};
use pg_report::DescriptionLine;
use std::alloc::Global;

/// The machine that the bytes describe, or why they describe none; `None` where memory was refused.
pub(crate) fn machine_of(alloc: Global, bytes: &[u8]) -> Result<Machine, Option<DescriptionLine>>
    requires { length bytes.now ≤ most_desc_bytes }
    ensures ok { IfOk result (λ m. TextDue bytes.now (Ok m.desc)) }
    ensures refused { IfErr result (λ told. IfSome told (λ line. TextDue bytes.now (Err line))) }
{
    let desc = match read_desc(alloc, bytes) {
        Ok(desc) => desc,
        Err(fault) => return Err(told_of_reading(fault)),
    };
    match check(alloc, desc) {
        Ok(machine) => Ok(machine),
        Err((_desc, fault)) => Err(told_of_type(fault)),
    }
}

/// What is told of bytes that are not read; nothing of memory that was refused.
fn told_of_reading(fault: DescFault) -> Option<DescriptionLine>
    ensures { result ≡ told_of_reading fault }
{
    match fault {
        DescFault::Long => Some(DescriptionLine::Long),
        DescFault::Token(place) => Some(DescriptionLine::Token(place)),
        DescFault::Grammar(place) => Some(DescriptionLine::Grammar(place)),
        DescFault::Deep(place) => Some(DescriptionLine::Deep(place)),
        DescFault::Memory => None,
    }
}

/// What is told of a description that is not valid; nothing of memory that was refused.
fn told_of_type(fault: TypeFault) -> Option<DescriptionLine>
    ensures { result ≡ told_of_type fault }
{
    match fault {
        TypeFault::Shape => Some(DescriptionLine::Shape),
        TypeFault::Limit(limit, instr) => Some(DescriptionLine::Limit(limit, instr)),
        TypeFault::Twice(name) => Some(DescriptionLine::Twice(name)),
        TypeFault::Pattern(instr) => Some(DescriptionLine::Pattern(instr)),
        TypeFault::Overlap(first, second) => Some(DescriptionLine::Overlap(first, second)),
        TypeFault::Name(instr, name) => Some(DescriptionLine::Name(instr, name)),
        TypeFault::Width(instr, place, how) => Some(DescriptionLine::Width(instr, place, how)),
        TypeFault::Memory => None,
    }
}
