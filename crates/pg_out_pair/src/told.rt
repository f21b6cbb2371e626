//! Two states that show a kind, told.

ghost use Rattle.std.specs.Prelude.{◌≡◌, ◌<◌, ◌↔◌, length, slice_get, Some, IsSome, IsTrue, IfOk, IfSome};
ghost use Rattle.pg_ast.specs.declared.tree.Instr.{Instr as Instrs};
ghost use Rattle.pg_lang_meaning.specs.States.{IsState, window, in_user};
ghost use Rattle.pg_type.specs.Kinds.{Shows};
ghost use Rattle.pg_type.specs.Listed.{state_of};
ghost use Rattle.pg_out_pair.specs.Explaining.{IsTold, IsExplained, IsShownPair, WordsPart};

use crate::differences::{Difference, differences};
use crate::seen::{Seen, word_at};
use pg_mach_ready::Machine;
use pg_replay::{after, replay};
use pg_type::Kind;
use pg_word::{Cause, CellList, Mode, Psw, Sparse};
use std::alloc::{AllocError, Global};

/// What one step makes of a state.
#[derive(Debug, Drop)]
pub struct Told {
    /// The word at P.
    pub word: u64,
    /// Why the step traps; none where it is done.
    pub cause: Option<Cause>,
    /// The state that follows.
    pub after: Sparse,
}

/// Two states that show a kind, with one step each.
#[derive(Debug, Drop)]
pub struct Explained {
    /// What the step makes of the first.
    pub first: Told,
    /// What it makes of the second.
    pub second: Told,
    /// What it makes of the first in user mode.
    pub user: Told,
    /// Where the windows that were open before the steps hold different words behind them: each such address once.
    pub differences: Vec<Difference>,
}

/// What one step makes of a state whose P is usable.
fn tell(alloc: Global, m: &Machine, s: &Sparse) -> Result<Told, AllocError>
    requires state { IsState m.now.desc (state_of s.now) }
    requires usable { IsSome (slice_get (window (state_of s.now)) s.now.psw.p) }
    ensures { IfOk result (IsTold m.now.desc (state_of s.now)) }
{
    let (cause, next) = after(alloc, m, s)?;
    let word = word_of(s);
    Ok(Told {
        word,
        cause,
        after: next,
    })
}

/// The word at P, which is usable.
fn word_of(s: &Sparse) -> u64
    requires { IsSome (slice_get (window (state_of s.now)) s.now.psw.p) }
    ensures { slice_get (window (state_of s.now)) s.now.psw.p ≡ Some result }
{
    match word_at(
        &Seen {
            psw: s.psw,
            state: s,
        },
        s.psw.p,
    ) {
        Some(word) => word,
        None => unreachable!(),
    }
}

/// The same state in user mode.
fn in_user(alloc: Global, s: &Sparse) -> Result<Sparse, AllocError>
    ensures { IfOk result (λ u. state_of u ≡ in_user (state_of s.now)) }
{
    let cells = Vec::from_slice(alloc, s.cells.as_slice())?;
    let psw = Psw {
        mode: Mode::U,
        p: s.psw.p,
        l: s.psw.l,
        b: s.psw.b,
    };
    Ok(Sparse::new(s.size, psw, CellList::from_vec(cells)))
}

/// The storage behind the step from a state, seen through the window that was open before it.
fn seen<'a>(s: &Sparse, told: &'a Told) -> Seen<'a>
    ensures psw { result.psw ≡ s.now.psw }
    ensures state { result.state.now ≡ told.now.after }
{
    Seen {
        psw: s.psw,
        state: &told.after,
    }
}

/// Both states of a pair, told.
fn tell_both(alloc: Global, m: &Machine, s: &Sparse, t: &Sparse) -> Result<Explained, AllocError>
    requires { IsShownPair m.now.desc (state_of s.now) (state_of t.now) }
    ensures { IfOk result (IsExplained m.now.desc (state_of s.now) (state_of t.now)) }
{
    let first = tell(alloc, m, s)?;
    let second = tell(alloc, m, t)?;
    let user = tell(alloc, m, &in_user(alloc, s)?)?;
    let differences = differences(alloc, &seen(s, &first), &seen(t, &second))?;
    Ok(Explained {
        first,
        second,
        user,
        differences,
    })
}

/// What the steps from two states come to that show a kind of an instruction, of a number below `count()`; `None` exactly where
/// they do not show it. Nothing is asked of the states, which may be of no machine; then they show nothing.
///
/// # Errors
/// Only for lack of memory.
pub fn explain(
    alloc: Global,
    m: &Machine,
    instr: usize,
    kind: Kind,
    s: &Sparse,
    t: &Sparse,
) -> Result<Option<Explained>, AllocError>
    requires there { instr < length m.now.desc.instrs }
    ensures shown { IfOk result (λ found. (i : Instrs) → slice_get m.now.desc.instrs instr ≡ Some i →
        (IsSome found ↔ Shows m.now.desc i kind (state_of s.now) (state_of t.now))) }
    ensures told { IfOk result (λ found. IfSome found (IsExplained m.now.desc (state_of s.now) (state_of t.now))) }
{
    if !replay(m, instr, kind, s, t) {
        return Ok(None);
    }
    Ok(Some(tell_both(alloc, m, s, t)?))
}

/// Whether two pairs tell that some words of a pattern trap in user mode and others do not: the second state of the first pair is
/// done, and the first state of the second pair, taken in user mode, traps with another word.
pub fn words_part(broken: &Explained, other: &Explained) -> bool
    ensures { IsTrue result ↔ WordsPart broken.now other.now }
{
    if broken.second.cause.is_some() {
        return false;
    }
    if other.user.cause.is_none() {
        return false;
    }
    broken.second.word != other.user.word
}
