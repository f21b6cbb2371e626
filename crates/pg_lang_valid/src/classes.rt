//! The tests of the seven classes of validity.
//!
//! One public function a class, in their order, which `check_desc` calls. Each asks the module of its class for the
//! first break and makes a `TypeFault` of it: an `Ok` says that the class has no fault, and an error is the fault that
//! `Valid` names, or `Memory`, which says nothing of the description. The classes of the head, of limits, of patterns
//! and of overlaps take no memory. A name goes into a fault as a copy, since the fault outlives the loan of the
//! description.

ghost use Rattle.std.specs.Prelude.{◌≡◌, ◌+◌, ◌*◌, nat_le, None, [], OnOk, IfErr};
ghost use Rattle.pg_word.specs.Shape.{bits_above};
ghost use Rattle.pg_lang_valid.specs.Twice.{first_twice, instr_names, let_twice_among};
ghost use Rattle.pg_lang_valid.specs.Valid.{has_shape, shape_fault, limit_fault, as_twice, twice_fault, pattern_fault, overlap_fault, name_fault, width_fault};
ghost use Rattle.pg_lang_valid.specs.Verdicts.{IsFaultOf};

use crate::fault::TypeFault;
use crate::limits::limit_broken;
use crate::overlaps::overlap;
use crate::scopes::name_unknown;
use crate::table::NameTable;
use crate::twice::let_twice_among;
use crate::well_formed::pattern_broken;
use crate::widths::{below_power, width_broken};
use pg_ast::{Desc, Instr};
use sqlite_items::Items;
use std::alloc::Global;

/// Whether a word of so many bits holds the mode, P, l and b, and a cause where causes are on.
fn psw_fits(word: u64, address: u64, causes: bool) -> bool
    ensures { result ≡ nat_le (3 * address + bits_above causes) word }
{
    let above = if causes { 3 } else { 1 };
    u128::from(address) * 3 + above <= u128::from(word)
}

/// Whether the numbers of a head are those of a machine that there can be.
fn has_shape(word: u64, address: u64, size: u64, causes: bool) -> bool
    ensures { result ≡ has_shape word address size causes }
{
    word % 8 == 0
        && 16 <= word
        && word <= 64
        && 4 <= address
        && address <= 20
        && psw_fits(word, address, causes)
        && 4 <= size
        && below_power(size, address)
}

/// Tests the numbers of the head. The fault is `Shape`.
pub fn test_shape(desc: &Desc) -> Result<(), TypeFault>
    ensures ok { OnOk result (shape_fault desc.now ≡ None) }
    ensures err { IfErr result (λ fault. IsFaultOf (shape_fault desc.now) fault) }
{
    if has_shape(desc.word, desc.address, desc.size, desc.causes) {
        Ok(())
    } else {
        Err(TypeFault::Shape)
    }
}

/// Tests how much is held. The fault is `Limit`.
pub fn test_limits(desc: &Desc) -> Result<(), TypeFault>
    ensures ok { OnOk result (limit_fault desc.now ≡ None) }
    ensures err { IfErr result (λ fault. IsFaultOf (limit_fault desc.now) fault) }
{
    match limit_broken(desc.instrs.as_slice()) {
        None => Ok(()),
        Some((limit, k)) => Err(TypeFault::Limit(limit, k)),
    }
}

/// Tests the names of instructions. The fault is `Twice` or `Memory`.
#[tactic(auto, unfolding(crate::specs::Twice::first_twice))]
fn test_instr_names(alloc: Global, instrs: &[Instr]) -> Result<(), TypeFault>
    ensures ok { OnOk result (as_twice (first_twice [] (instr_names instrs.now)) ≡ None) }
    ensures err { IfErr result (λ fault. IsFaultOf (as_twice (first_twice [] (instr_names instrs.now))) fault) }
{
    let mut table = NameTable::new(alloc);
    for instr in instrs {
        match table.insert(alloc, instr.name.as_bytes()) {
            Err(_) => return Err(TypeFault::Memory),
            Ok(true) => {}
            Ok(false) => match Items::from_slice(alloc, instr.name.as_bytes()) {
                Err(_) => return Err(TypeFault::Memory),
                Ok(name) => return Err(TypeFault::Twice(name)),
            },
        }
    }
    Ok(())
}

/// Tests the names of lets. The fault is `Twice` or `Memory`.
fn test_lets(alloc: Global, instrs: &[Instr]) -> Result<(), TypeFault>
    ensures ok { OnOk result (as_twice (let_twice_among instrs.now) ≡ None) }
    ensures err { IfErr result (λ fault. IsFaultOf (as_twice (let_twice_among instrs.now)) fault) }
{
    match let_twice_among(alloc, instrs) {
        Err(_) => Err(TypeFault::Memory),
        Ok(None) => Ok(()),
        Ok(Some(name)) => match Items::from_slice(alloc, name) {
            Err(_) => Err(TypeFault::Memory),
            Ok(name) => Err(TypeFault::Twice(name)),
        },
    }
}

/// Tests the names of instructions, and after them those of lets. The fault is `Twice` or `Memory`.
#[tactic(auto, using(crate::proofs::FaultLemmas::twice_rules))]
pub fn test_names_once(alloc: Global, desc: &Desc) -> Result<(), TypeFault>
    ensures ok { OnOk result (twice_fault desc.now ≡ None) }
    ensures err { IfErr result (λ fault. IsFaultOf (twice_fault desc.now) fault) }
{
    match test_instr_names(alloc, desc.instrs.as_slice()) {
        Err(fault) => return Err(fault),
        Ok(()) => {}
    }
    match test_lets(alloc, desc.instrs.as_slice()) {
        Err(fault) => Err(fault),
        Ok(()) => Ok(()),
    }
}

/// Tests the form of each pattern. The fault is `Pattern`.
pub fn test_patterns(desc: &Desc) -> Result<(), TypeFault>
    ensures ok { OnOk result (pattern_fault desc.now ≡ None) }
    ensures err { IfErr result (λ fault. IsFaultOf (pattern_fault desc.now) fault) }
{
    match pattern_broken(desc.word, desc.instrs.as_slice()) {
        None => Ok(()),
        Some(k) => Err(TypeFault::Pattern(k)),
    }
}

/// Tests that no two patterns match one word. The fault is `Overlap`.
pub fn test_overlaps(desc: &Desc) -> Result<(), TypeFault>
    ensures ok { OnOk result (overlap_fault desc.now ≡ None) }
    ensures err { IfErr result (λ fault. IsFaultOf (overlap_fault desc.now) fault) }
{
    match overlap(desc.instrs.as_slice()) {
        None => Ok(()),
        Some((k, j)) => Err(TypeFault::Overlap(k, j)),
    }
}

/// Tests that each name means something. The fault is `Name` or `Memory`.
pub fn test_names_known(alloc: Global, desc: &Desc) -> Result<(), TypeFault>
    ensures ok { OnOk result (name_fault desc.now ≡ None) }
    ensures err { IfErr result (λ fault. IsFaultOf (name_fault desc.now) fault) }
{
    match name_unknown(alloc, desc.instrs.as_slice()) {
        Err(_) => Err(TypeFault::Memory),
        Ok(None) => Ok(()),
        Ok(Some((k, name))) => match Items::from_slice(alloc, name) {
            Err(_) => Err(TypeFault::Memory),
            Ok(name) => Err(TypeFault::Name(k, name)),
        },
    }
}

/// Tests the widths of expressions. The fault is `Width` or `Memory`.
pub fn test_widths(alloc: Global, desc: &Desc) -> Result<(), TypeFault>
    ensures ok { OnOk result (width_fault desc.now ≡ None) }
    ensures err { IfErr result (λ fault. IsFaultOf (width_fault desc.now) fault) }
{
    match width_broken(alloc, desc) {
        Err(_) => Err(TypeFault::Memory),
        Ok(None) => Ok(()),
        Ok(Some((k, (place, how)))) => Err(TypeFault::Width(k, place, how)),
    }
}
