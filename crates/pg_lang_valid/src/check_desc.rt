//! The test of a description for validity.
//!
//! `test_all` tests the seven classes of `Valid` in their order, each over the whole description before the next: the fault
//! that comes is that of the first class that has one, as the definition of that class names it. A class may rest on those
//! before it, as the widths on names that mean something. `pg_mach_ready`, above, makes a machine of what passes.

ghost use Rattle.std.specs.Prelude.{◌≡◌, None, IfErr, OnOk};
ghost use Rattle.pg_lang_valid.specs.Valid.{IsValid};
ghost use Rattle.pg_lang_valid.specs.Verdicts.{IsFaultOf, IsFault, part_fault};

use crate::classes::{
    test_limits, test_names_known, test_names_once, test_overlaps, test_patterns, test_shape,
    test_widths,
};
use crate::fault::TypeFault;
use pg_ast::Desc;
use std::alloc::Global;

/// Tests each class of validity over the whole description before the next. The error is the fault of the first class that
/// has one, or out of memory.
pub fn test_all(alloc: Global, desc: &Desc) -> Result<(), TypeFault>
    ensures valid { OnOk result (IsValid desc.now) }
    ensures fault { IfErr result (λ fault. IsFault desc.now fault) }
{
    match test_shape(desc) {
        Err(fault) => return Err(fault),
        Ok(()) => {}
    }
    match test_limits(desc) {
        Err(fault) => return Err(fault),
        Ok(()) => {}
    }
    match test_names_once(alloc, desc) {
        Err(fault) => return Err(fault),
        Ok(()) => {}
    }
    match test_parts(alloc, desc) {
        Err(fault) => Err(fault),
        Ok(()) => Ok(()),
    }
}

/// Tests the last four classes, of patterns and of bodies. The error is the fault of the first of them that has one, or out
/// of memory.
fn test_parts(alloc: Global, desc: &Desc) -> Result<(), TypeFault>
    ensures ok { OnOk result (part_fault desc.now ≡ None) }
    ensures err { IfErr result (λ fault. IsFaultOf (part_fault desc.now) fault) }
{
    match test_patterns(desc) {
        Err(fault) => return Err(fault),
        Ok(()) => {}
    }
    match test_overlaps(desc) {
        Err(fault) => return Err(fault),
        Ok(()) => {}
    }
    match test_names_known(alloc, desc) {
        Err(fault) => return Err(fault),
        Ok(()) => {}
    }
    match test_widths(alloc, desc) {
        Err(fault) => Err(fault),
        Ok(()) => Ok(()),
    }
}
