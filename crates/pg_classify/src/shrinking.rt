//! Which changes are tried, in which order, and how often.
//!
//! A round tries user mode, where the kind does not ask for another; all words but that at P to be zero; each word to be zero,
//! or with fewer bits; and each number to be less. Rounds follow one another until one of them changes nothing: then none of
//! these changes shows the kind any more.

ghost use Rattle.std.specs.Prelude.{◌≡◌, ◌<◌, ◌≤◌, length, slice_get, Some};
ghost use Rattle.pg_ast.specs.declared.tree.Instr.{Instr};
ghost use Rattle.pg_type.specs.Kinds.{Shows};
ghost use Rattle.pg_type.specs.Listed.{state_of};
ghost use Rattle.pg_classify.specs.Trying.{IsShown};

use crate::extent::{Lever, Number, Whose};
use crate::pair::{Aim, Pair};
use crate::trying::tried;
use crate::words::Words;
use pg_mach_ready::Machine;
use pg_type::Kind;
use pg_word::{Mode, Sparse};
use std::alloc::Global;

/// The most rounds that are made; three or four are. A round tries at most 22 steps of each lever, of which there are at most
/// ten, and for each listed word zero and the 126 blocks of its bits. A solver names at most 17 words: that at P, and one for each
/// of the eight accesses of a run.
const ROUNDS: usize = 16;

/// The levers of a kind whose states are one, but for the mode.
static OF_ONE_STATE: [Lever; 4] = [
    Lever {
        number: Number::Relocation,
        whose: Whose::Both,
    },
    Lever {
        number: Number::P,
        whose: Whose::Both,
    },
    Lever {
        number: Number::Bound,
        whose: Whose::Both,
    },
    Lever {
        number: Number::Size,
        whose: Whose::Both,
    },
];

/// The levers of a kind whose states have their windows at two places.
static OF_TWO_PLACES: [Lever; 6] = [
    Lever {
        number: Number::Relocation,
        whose: Whose::First,
    },
    Lever {
        number: Number::Relocation,
        whose: Whose::Second,
    },
    Lever {
        number: Number::Relocation,
        whose: Whose::Both,
    },
    Lever {
        number: Number::P,
        whose: Whose::Both,
    },
    Lever {
        number: Number::Bound,
        whose: Whose::Both,
    },
    Lever {
        number: Number::Size,
        whose: Whose::Both,
    },
];

/// The levers of a kind whose states have two bounds.
static OF_TWO_BOUNDS: [Lever; 10] = [
    Lever {
        number: Number::Place,
        whose: Whose::Both,
    },
    Lever {
        number: Number::Relocation,
        whose: Whose::Both,
    },
    Lever {
        number: Number::P,
        whose: Whose::Both,
    },
    Lever {
        number: Number::Length,
        whose: Whose::Both,
    },
    Lever {
        number: Number::Bound,
        whose: Whose::First,
    },
    Lever {
        number: Number::Bound,
        whose: Whose::Second,
    },
    Lever {
        number: Number::Bound,
        whose: Whose::Both,
    },
    Lever {
        number: Number::Size,
        whose: Whose::First,
    },
    Lever {
        number: Number::Size,
        whose: Whose::Second,
    },
    Lever {
        number: Number::Size,
        whose: Whose::Both,
    },
];

/// The levers of a kind.
fn levers(kind: Kind) -> &'static [Lever] {
    match kind {
        Kind::Privileged | Kind::Control | Kind::ModeDep | Kind::UControl => &OF_ONE_STATE,
        Kind::Location | Kind::ULocation => &OF_TWO_PLACES,
        Kind::Bound | Kind::UBound => &OF_TWO_BOUNDS,
    }
}

/// Whether a kind may be shown in user mode and in supervisor mode.
fn is_of_any_mode(kind: Kind) -> bool {
    match kind {
        Kind::Control | Kind::Location | Kind::Bound => true,
        _ => false,
    }
}

/// Tries user mode, and says whether it was taken.
fn tries_user(aim: &Aim<'_>, pair: &mut Pair) -> bool
    requires { IsShown aim.now pair.old }
    ensures { IsShown aim.now pair.new }
{
    if !is_of_any_mode(aim.kind) || pair.first.psw.mode == Mode::U {
        return false;
    }
    let change = pair.in_user();
    tried(aim, pair, &change)
}

/// Tries all words but that at P to be zero, where there are others, and says whether it was taken.
fn tries_alone(aim: &Aim<'_>, pair: &mut Pair) -> bool
    requires { IsShown aim.now pair.old }
    ensures { IsShown aim.now pair.new }
{
    if pair.first.cells.as_slice().len() < 2 {
        return false;
    }
    let change = pair.with_words(Words::Only(pair.first.psw.p));
    tried(aim, pair, &change)
}

/// Tries to lower a number by a step, and says whether it was taken.
fn tries_step(aim: &Aim<'_>, pair: &mut Pair, lever: Lever, step: u32) -> bool
    requires { IsShown aim.now pair.old }
    ensures { IsShown aim.now pair.new }
{
    if step == 0 || step > pair.extents().room(lever) {
        return false;
    }
    let change = pair.lowered(lever, step);
    tried(aim, pair, &change)
}

/// Tries to lower a number: as far as it goes, then to its half, then by steps each of which is half the one before. Says
/// whether one was taken.
fn tries_lever(aim: &Aim<'_>, pair: &mut Pair, lever: Lever) -> bool
    requires { IsShown aim.now pair.old }
    ensures { IsShown aim.now pair.new }
{
    let (room, half) = (pair.extents().room(lever), pair.extents().half(lever));
    let mut less = tries_step(aim, pair, lever, room);
    let mut step = half;
    while step > 0 {
        less |= tries_step(aim, pair, lever, step);
        step /= 2;
    }
    less
}

/// Tries to lower each number, and says whether one was lowered.
fn tries_levers(aim: &Aim<'_>, pair: &mut Pair) -> bool
    requires { IsShown aim.now pair.old }
    ensures { IsShown aim.now pair.new }
{
    let mut less = false;
    for lever in levers(aim.kind) {
        less |= tries_lever(aim, pair, *lever);
    }
    less
}

/// Blocks of bits of a word, one beside the other: how many bits each has, and the lowest one.
#[derive(Clone, Copy, Debug)]
struct Blocks {
    width: u32,
    lowest: u64,
}

/// The blocks that are cleared: two of 32 bits, then four of 16, and so on to the single bits.
const BLOCKS: [Blocks; 6] = [
    Blocks {
        width: 32,
        lowest: 0xffff_ffff,
    },
    Blocks {
        width: 16,
        lowest: 0xffff,
    },
    Blocks {
        width: 8,
        lowest: 0xff,
    },
    Blocks {
        width: 4,
        lowest: 0xf,
    },
    Blocks {
        width: 2,
        lowest: 3,
    },
    Blocks {
        width: 1,
        lowest: 1,
    },
];

/// Tries to clear each of such blocks of the word of an address, the highest first, so that of the bits of which one has to stay
/// the lowest does, and gives the word that is left. A block that has all bits of the word is not tried.
fn clears(aim: &Aim<'_>, pair: &mut Pair, at: u32, word: u64, blocks: Blocks) -> u64
    requires { IsShown aim.now pair.old }
    ensures { IsShown aim.now pair.new }
{
    let mut left = word;
    for place in 0..64 {
        let shift = 63 - place;
        let kept = left & !(blocks.lowest << shift);
        if blocks.starts(shift) && kept != 0 && kept != left {
            let change = pair.with_words(Words::With(at, kept));
            if tried(aim, pair, &change) {
                left = kept;
            }
        }
    }
    left
}

impl Blocks {
    /// Whether a block begins with this bit.
    fn starts(self, bit: u32) -> bool {
        bit.checked_rem(self.width) == Some(0)
    }
}

/// Tries to clear blocks of bits of the word of an address, the largest first, and says whether one was cleared.
fn tries_bits(aim: &Aim<'_>, pair: &mut Pair, at: u32, word: u64) -> bool
    requires { IsShown aim.now pair.old }
    ensures { IsShown aim.now pair.new }
{
    let mut left = word;
    for blocks in BLOCKS.iter() {
        left = clears(aim, pair, at, left, *blocks);
    }
    left != word
}

/// Tries the word at a place of the list to be zero, or with fewer bits, and says whether one of these was taken.
fn tries_word(aim: &Aim<'_>, pair: &mut Pair, place: usize) -> bool
    requires { IsShown aim.now pair.old }
    ensures { IsShown aim.now pair.new }
{
    let Some((at, word)) = pair.word(place) else {
        return false;
    };
    let change = pair.with_words(Words::With(at, 0));
    tried(aim, pair, &change) || tries_bits(aim, pair, at, word)
}

/// The same of each listed word, from the last one on, and whether one of them is less.
fn tries_words(aim: &Aim<'_>, pair: &mut Pair) -> bool
    requires { IsShown aim.now pair.old }
    ensures { IsShown aim.now pair.new }
{
    let mut less = false;
    for place in (0..pair.first.cells.as_slice().len()).rev() {
        less |= tries_word(aim, pair, place);
    }
    less
}

/// One round of tries, and whether one was taken.
fn tries_round(aim: &Aim<'_>, pair: &mut Pair) -> bool
    requires { IsShown aim.now pair.old }
    ensures { IsShown aim.now pair.new }
{
    let user = tries_user(aim, pair);
    let alone = tries_alone(aim, pair);
    let words = tries_words(aim, pair);
    let numbers = tries_levers(aim, pair);
    user || alone || words || numbers
}

/// Rounds of tries, until one changes nothing.
fn tries_rounds(aim: &Aim<'_>, pair: &mut Pair)
    requires { IsShown aim.now pair.old }
    ensures { IsShown aim.now pair.new }
{
    for _ in 0..ROUNDS {
        if !tries_round(aim, pair) {
            return;
        }
    }
}

/// Two states that show a kind of an instruction, of a number below `count()`, made small: the storage, the relocation-bounds
/// register and P are as low as they go, words are zero where they can be, and have few bits else, and the mode is user mode where
/// the kind allows it. The two still show the kind.
///
/// Each try is of some words, however large the storage is, and takes memory for them. Where it is refused the states are those
/// that were found so far.
pub fn small(
    alloc: Global,
    machine: &Machine,
    instr: usize,
    kind: Kind,
    first: Sparse,
    second: Sparse,
) -> (Sparse, Sparse)
    requires there { instr < length machine.now.desc.instrs }
    requires shown { (i : Instr) → slice_get machine.now.desc.instrs instr ≡ Some i → Shows machine.now.desc i kind (state_of first) (state_of second) }
    ensures { (i : Instr) → slice_get machine.now.desc.instrs instr ≡ Some i → Shows machine.now.desc i kind (state_of result.0) (state_of result.1) }
{
    let aim = Aim {
        alloc,
        machine,
        instr,
        kind,
    };
    let mut pair = Pair { first, second };
    tries_rounds(&aim, &mut pair);
    (pair.first, pair.second)
}
