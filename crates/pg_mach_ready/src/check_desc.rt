//! The check of a description.
//!
//! `check` is the one way from a description to a `Machine`. It tests the classes of validity, and makes what a machine keeps
//! besides: the table of opcodes and decoders, when no pattern is longer than a word, the codes of the bodies, and a table of no
//! word. A description is taken by value and comes back with its fault, so that it is never copied.

ghost use Rattle.std.specs.Prelude.{◌≡◌, IfOk, IfErr, OnOk};
ghost use Rattle.pg_lang_valid.specs.declared.fault.TypeFault.TheVariants.{Memory};
ghost use Rattle.pg_lang_valid.specs.Valid.{IsValid};
ghost use Rattle.pg_lang_valid.specs.Verdicts.{IsFault};

use crate::DecodeTable;
use crate::machine::Machine;
use pg_ast::Desc;
use pg_lang_valid::{TypeFault, test_all};
use pg_mach_code::{Codes, WordTable};
use std::alloc::Global;

/// Tests a description. A valid one becomes a machine; of any other, which comes back, the fault is that of the first class
/// that has one. Memory that is refused is a fault of its own, which says nothing of the description.
pub fn check(alloc: Global, desc: Desc) -> Result<Machine, (Desc, TypeFault)>
    ensures ok { IfOk result (λ machine. machine.desc ≡ desc) }
    ensures valid { OnOk result (IsValid desc) }
    ensures refused { IfErr result (λ refused. (refused.0 ≡ desc) × IsFault desc refused.1) }
    ensures only_memory { IsValid desc → IfErr result (λ refused. refused.1 ≡ Memory) }
{
    match test_all(alloc, &desc) {
        Err(fault) => Err((desc, fault)),
        Ok(()) => match DecodeTable::of(alloc, desc.instrs.as_slice()) {
            Err(_) => Err((desc, TypeFault::Memory)),
            Ok(table) => match Codes::of(alloc, &desc, table.decoders.as_slice()) {
                Err(_) => Err((desc, TypeFault::Memory)),
                Ok(codes) => Ok(Machine::of(desc, table, codes, WordTable::new(alloc))),
            },
        },
    }
}
