//! A plan of two states, tried.

ghost use Rattle.std.specs.Prelude.{◌≡◌, ◌+◌, ◌<◌, ◌≤◌, IsTrue, IfOk, IfSome, length, slice_get, Some};
ghost use Rattle.pg_ast.specs.declared.tree.Instr.{Instr};
ghost use Rattle.pg_lang_meaning.specs.States.{IsState};
ghost use Rattle.pg_type.specs.Listed.{state_of};
ghost use Rattle.pg_out_pair.specs.Readable.{IsPlain, IsReadable};

use crate::frame::{Extent, Frame};
use crate::touched::touched;
use crate::words::{CELLS, Words};
use pg_mach_ready::Machine;
use pg_replay::replay;
use pg_type::{Kind, placed};
use pg_word::{Psw, Sparse, window_len};
use std::alloc::{AllocError, Global};

/// What two states are to show: a kind of an instruction.
#[derive(Clone, Copy)]
pub(crate) struct Aim<'m> {
    /// Where memory comes from.
    pub alloc: Global,
    /// The machine.
    pub machine: &'m Machine,
    /// The number of the instruction.
    pub instr: usize,
    /// The kind.
    pub kind: Kind,
    pub ghost there: { instr < length machine.now.desc.instrs },
}

/// Two states that are to be tried.
#[derive(Clone, Copy, Debug)]
pub(crate) struct Plan {
    /// Their numbers.
    pub frame: Frame,
    /// The words of their window.
    pub words: Words,
}

/// Two states that show a kind, laid out for a reader.
#[derive(Debug, Drop)]
pub struct ReadablePair {
    /// The first.
    pub first: Sparse,
    /// The second.
    pub second: Sparse,
}

/// The words of a window that are not zero, beside their addresses.
fn listed(alloc: Global, words: &Words) -> Result<Vec<(u32, u64)>, AllocError> {
    let mut cells = Vec::new(alloc);
    for (at, word) in words.iter().enumerate() {
        if let (Ok(address), true) = (u32::try_from(at), *word != 0) {
            cells.push((address, *word))?;
        }
    }
    Ok(cells)
}

/// The state of these numbers with these words in its window.
fn state(alloc: Global, cells: &[(u32, u64)], extent: Extent) -> Result<Sparse, AllocError> {
    let usable = window_len(extent.psw, extent.size);
    placed(alloc, cells, usable, extent.size, extent.psw)
}

/// Whether a state has few cells.
fn is_small(s: &Sparse) -> bool
    ensures { IsTrue result → s.now.size ≤ 24 }
{
    s.size as usize <= CELLS
}

/// Whether the instruction stands behind the cells of status words.
fn is_behind(psw: Psw) -> bool
    ensures { IsTrue result → 2 ≤ psw.l + psw.p }
{
    u64::from(psw.l) + u64::from(psw.p) >= 2
}

/// Whether a state has few cells, and the instruction stands behind those of status words.
fn is_plain(s: &Sparse) -> bool
    ensures { IsTrue result → IsPlain (state_of s.now) }
{
    if !is_small(s) {
        return false;
    }
    is_behind(s.psw)
}

/// Whether two states show the kind, and both are plain.
fn is_readable(aim: &Aim<'_>, first: &Sparse, second: &Sparse) -> bool
    ensures { IsTrue result → (i : Instr) → slice_get aim.now.machine.now.desc.instrs aim.now.instr ≡ Some i →
        IsReadable aim.now.machine.now.desc i aim.now.kind (state_of first.now) (state_of second.now) }
{
    if !is_plain(first) {
        return false;
    }
    if !is_plain(second) {
        return false;
    }
    replay(aim.machine, aim.instr, aim.kind, first, second)
}

/// The two states of a plan, where they show the kind and are plain.
pub(crate) fn pair_of(aim: &Aim<'_>, plan: &Plan) -> Result<Option<ReadablePair>, AllocError>
    ensures { IfOk result (λ found. IfSome found (λ pair. (i : Instr) → slice_get aim.now.machine.now.desc.instrs aim.now.instr ≡ Some i →
        IsReadable aim.now.machine.now.desc i aim.now.kind (state_of pair.first) (state_of pair.second))) }
{
    let cells = listed(aim.alloc, &plan.words)?;
    let first = state(aim.alloc, cells.as_slice(), plan.frame.first)?;
    let second = state(aim.alloc, cells.as_slice(), plan.frame.second)?;
    if is_readable(aim, &first, &second) {
        Ok(Some(ReadablePair { first, second }))
    } else {
        Ok(None)
    }
}

/// How many cells both steps touch, beside those of the instruction; none where the plan does not show the kind, or these cells are not
/// others than those of the instruction and of status words.
pub(crate) fn score(aim: &Aim<'_>, plan: &Plan) -> Result<Option<u32>, AllocError> {
    match pair_of(aim, plan)? {
        None => Ok(None),
        Some(pair) => Ok(touched_by(aim, &pair)),
    }
}

/// The same of two states that show the kind.
fn touched_by(aim: &Aim<'_>, pair: &ReadablePair) -> Option<u32>
    requires { (i : Instr) → slice_get aim.now.machine.now.desc.instrs aim.now.instr ≡ Some i →
        IsReadable aim.now.machine.now.desc i aim.now.kind (state_of pair.now.first) (state_of pair.now.second) }
{
    let first = touched(aim.machine, &pair.first)?;
    let second = touched(aim.machine, &pair.second)?;
    Some(first.count_ones().saturating_add(second.count_ones()))
}
