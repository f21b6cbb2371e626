//! Which plans are tried, and which of them is taken.
//!
//! A plan has its operands at addresses that count upwards behind P, and each cell there holds the address of one that is not used yet.
//! So an operand that names a cell which names another leads to three cells. Where that does not show the kind, words and fields are
//! exchanged for others at random. Of the plans that show it, the one is taken whose steps touch the most cells.

ghost use Rattle.std.specs.Prelude.{◌≡◌, ◌<◌, IfOk, IfSome, length, slice_get, Some};
ghost use Rattle.pg_ast.specs.declared.tree.Instr.{Instr};
ghost use Rattle.pg_type.specs.Listed.{state_of};
ghost use Rattle.pg_out_pair.specs.Readable.{IsReadable};

use crate::dice::Dice;
use crate::frame::{Frame, PLACES, Place, frame_of};
use crate::touched::word_at;
use crate::trying::{Aim, Plan, ReadablePair, pair_of, score};
use crate::words::{CELLS, Values, Words, counted, values_of, word_of};
use pg_mach_ready::Machine;
use pg_type::Kind;
use pg_word::{Mode, Sparse};
use std::alloc::{AllocError, Global};

/// How many plans are tried.
const TRIES: u32 = 3_000;

/// How many are tried behind the last that was better.
const PATIENCE: u32 = 600;

/// Two states that are known to show the kind, as far as they lead the search.
#[derive(Clone, Copy)]
struct Hint<'a> {
    /// The pattern of the instruction.
    pattern: &'a [u8],
    /// The bits that a word has.
    mask: u64,
    /// The first of the states.
    first: &'a Sparse,
    /// The values of the fields of its instruction.
    values: Values,
}

/// A plan that shows the kind, and how many cells it touches.
#[derive(Clone, Copy)]
struct Found {
    plan: Plan,
    score: u32,
}

/// Two states of at most 24 cells that show a kind of an instruction, of a number below `count()`, and in which the word of the
/// instruction, its operands, and the cells of status words are different cells; none where none is found. `first` is the first of two
/// states that show the kind; nothing is asked of it.
///
/// # Errors
/// Only for lack of memory.
pub fn readable(
    alloc: Global,
    machine: &Machine,
    instr: usize,
    kind: Kind,
    first: &Sparse,
) -> Result<Option<ReadablePair>, AllocError>
    requires { instr < length machine.now.desc.instrs }
    ensures { IfOk result (λ found. IfSome found (λ pair. (i : Instr) → slice_get machine.now.desc.instrs instr ≡ Some i →
        IsReadable machine.now.desc i kind (state_of pair.first) (state_of pair.second))) }
{
    let aim = Aim {
        alloc,
        machine,
        instr,
        kind,
    };
    match best(&aim, first)? {
        None => Ok(None),
        Some(plan) => pair_of(&aim, &plan),
    }
}

/// The best plan that is found, made plain.
fn best(aim: &Aim<'_>, first: &Sparse) -> Result<Option<Plan>, AllocError> {
    let Some(found) = aim.machine.desc.instrs.as_slice().get(aim.instr) else {
        return Ok(None);
    };
    let pattern = found.pattern.as_bytes();
    let word = word_at(first, first.psw.p).unwrap_or(0);
    let values = values_of(pattern, word);
    let hint = Hint {
        pattern,
        mask: mask(aim.machine.shape().w),
        first,
        values,
    };
    match searched(aim, &hint)? {
        None => Ok(None),
        Some(found) => Ok(Some(plainer(aim, found)?)),
    }
}

/// The lowest bits, so many as a word has.
fn mask(w: u32) -> u64 {
    u64::MAX
        .checked_shr(64u32.saturating_sub(w))
        .unwrap_or(u64::MAX)
}

/// The best of the plans that are tried.
fn searched(aim: &Aim<'_>, hint: &Hint<'_>) -> Result<Option<Found>, AllocError> {
    let mut dice = Dice::new();
    let mut best: Option<Found> = None;
    let mut left = PATIENCE;
    for number in 0..TRIES {
        let plan = planned(aim, hint, number, &mut dice);
        if let Some(score) = score(aim, &plan)? {
            if is_better(&best, score) {
                best = Some(Found { plan, score });
                left = PATIENCE;
            }
        }
        left = left.saturating_sub(1);
        if left == 0 && best.is_some() {
            return Ok(best);
        }
    }
    Ok(best)
}

/// Whether a number of cells is greater than that of the best plan so far.
fn is_better(best: &Option<Found>, score: u32) -> bool {
    match best {
        None => true,
        Some(found) => found.score < score,
    }
}

/// The plan of a number: the places and the modes in turn, plain words first.
fn planned(aim: &Aim<'_>, hint: &Hint<'_>, number: u32, dice: &mut Dice) -> Plan {
    let place = PLACES[(number % 3) as usize];
    let mode = if number / 3 % 2 == 0 {
        hint.first.psw.mode
    } else {
        other(hint.first.psw.mode)
    };
    let is_plain = number < 6;
    let frame = frame_of(aim.machine.shape(), aim.kind, mode, place, CELLS as u32);
    let words = words_at(hint, &frame, place, is_plain, dice);
    Plan { frame, words }
}

/// The other mode.
fn other(mode: Mode) -> Mode {
    match mode {
        Mode::S => Mode::U,
        Mode::U => Mode::S,
    }
}

/// The words of a plan: the instruction at P, and behind it cells that name others.
fn words_at(
    hint: &Hint<'_>,
    frame: &Frame,
    place: Place,
    is_plain: bool,
    dice: &mut Dice,
) -> Words {
    let base = u64::from(place.p) + 2;
    let (tidy, next) = counted(hint.pattern, base);
    let step = next.saturating_sub(base).max(1);
    let length = u64::from(frame.first.psw.b);
    let mut words = [0; CELLS];
    for (at, word) in words.iter_mut().enumerate() {
        let address = at as u64;
        *word = if address == u64::from(place.p) {
            word_of(hint.pattern, &picked(hint, &tidy, is_plain, length, dice))
        } else if address < length && (address >= base || !is_plain) {
            cell(hint, address.saturating_add(step), is_plain, length, dice) & hint.mask
        } else {
            0
        };
    }
    words
}

/// The values of the fields: those that count upwards, or some of them others.
fn picked(hint: &Hint<'_>, tidy: &Values, is_plain: bool, length: u64, dice: &mut Dice) -> Values {
    let mut values = *tidy;
    if is_plain {
        return values;
    }
    for (value, known) in values.iter_mut().zip(hint.values.iter()) {
        match dice.below(6) {
            0 => *value = dice.number(),
            1 => *value = dice.below(length),
            2 => *value = *known,
            _ => {}
        }
    }
    values
}

/// The word of a cell: the address that it names, or another word.
fn cell(hint: &Hint<'_>, named: u64, is_plain: bool, length: u64, dice: &mut Dice) -> u64 {
    let address = if named < length { named } else { 0 };
    if is_plain {
        return address;
    }
    match dice.below(6) {
        0 => dice.number(),
        1 => address | dice.number() << 5,
        2 => dice.below(length),
        3 => word_of_hint(hint, dice),
        _ => address,
    }
}

/// A word of the states that are known.
fn word_of_hint(hint: &Hint<'_>, dice: &mut Dice) -> u64 {
    let cells = hint.first.cells.as_slice();
    let place = dice.below(cells.len() as u64) as usize;
    match cells.get(place) {
        None => 0,
        Some(cell) => cell.1,
    }
}

/// A plan made plain: shorter, with fewer words and bits, as long as it touches as many cells.
fn plainer(aim: &Aim<'_>, found: Found) -> Result<Plan, AllocError> {
    let mut plan = shorter(aim, found)?;
    for at in (0..CELLS).rev() {
        plan = cleared(aim, found.score, plan, at)?;
    }
    Ok(plan)
}

/// The plan with the shortest window that is tried.
fn shorter(aim: &Aim<'_>, found: Found) -> Result<Plan, AllocError> {
    let first = found.plan.frame.first.psw;
    let begin = first.l.min(found.plan.frame.second.psw.l);
    let place = Place { begin, p: first.p };
    let words = found.plan.words;
    for cells in 2..CELLS as u32 {
        let plan = Plan {
            frame: frame_of(aim.machine.shape(), aim.kind, first.mode, place, cells),
            words,
        };
        if keeps(aim, found.score, &plan)? {
            return Ok(plan);
        }
    }
    Ok(found.plan)
}

/// Whether a plan shows the kind, and touches at least so many cells.
fn keeps(aim: &Aim<'_>, least: u32, plan: &Plan) -> Result<bool, AllocError> {
    match score(aim, plan)? {
        None => Ok(false),
        Some(score) => Ok(score >= least),
    }
}

/// The plan with the bits of a word cleared that are not wanted, the highest first.
fn cleared(aim: &Aim<'_>, least: u32, plan: Plan, at: usize) -> Result<Plan, AllocError>
    requires { at < 24 }
{
    let mut best = plan;
    for place in 0u32..64 {
        let bit = (1u64 << 63) >> place;
        let mut words = best.words;
        if words[at] & bit != 0 {
            words[at] &= !bit;
            let next = Plan {
                frame: best.frame,
                words,
            };
            if keeps(aim, least, &next)? {
                best = next;
            }
        }
    }
    Ok(best)
}
