//! An instruction executed at a state, and what is observed of it.

ghost use Rattle.std.specs.Prelude.{◌≡◌, ◌↔◌, IsTrue, List, All, slice_get, ℕ};
ghost use Rattle.pg_ast.specs.declared.tree.Instr.{Instr as Instrs};
ghost use Rattle.pg_ast.specs.declared.tree.Desc.{Desc as Descs};
ghost use Rattle.pg_lang_meaning.specs.States.{State, window};
ghost use Rattle.pg_interp.specs.Writes.{written};
ghost use Rattle.pg_type.specs.Kinds.{IsAt, IsDone, IsTrap, IsNoMemTrap, ChangesControl, course_at, observation};
ghost use Rattle.pg_type.specs.Listed.{state_of};
ghost use Rattle.pg_replay.specs.Running.{IsOf, Stands, IsRun, HasOtherControl, SameEffect};

use crate::same::same_mode;
use crate::state::is_state;
use crate::window::window_of;
use pg_ast::Instr;
use pg_interp::{Cells, Effect, Outcome, Overlay, Write, execute};
use pg_lang_meaning::matches;
use pg_mach_ready::Machine;
use pg_word::{Psw, Sparse};

/// Whether P is usable at a state, and the word there matches the instruction's pattern.
fn is_at(i: &Instr, s: &Sparse) -> bool
    ensures { IsTrue result ↔ IsAt i.now (state_of s.now) }
{
    match window_of(s).cell(s.psw.p) {
        None => false,
        Some(word) => matches(i.pattern.as_bytes(), word),
    }
}

/// Whether a state is one of the machine, with the instruction at P.
pub fn stands(m: &Machine, i: &Instr, s: &Sparse) -> bool
    ensures { IsTrue result ↔ Stands m.now.desc i.now (state_of s.now) }
{
    if !is_state(m, s) {
        return false;
    }
    is_at(i, s)
}

/// Executes the instruction at a state, where it stands.
pub fn run(m: &Machine, i: &Instr, s: &Sparse) -> Outcome
    requires of { IsOf m.now.desc i.now }
    requires stands { Stands m.now.desc i.now (state_of s.now) }
    ensures { IsRun m.now.desc i.now (state_of s.now) result }
{
    execute(m, &window_of(s), s.psw)
}

/// Whether the instruction was done.
pub fn is_done(o: &Outcome) -> bool
    ensures { (d : Descs) (i : Instrs) (s : State) → IsRun d i s o.now → (IsTrue result ↔ IsDone (course_at d i s)) }
{
    match o {
        Outcome::Done(_) => true,
        _ => false,
    }
}

/// Whether it trapped, but for a memory trap.
pub fn is_trap(o: &Outcome) -> bool
    ensures { (d : Descs) (i : Instrs) (s : State) → IsRun d i s o.now → (IsTrue result ↔ IsTrap (course_at d i s)) }
{
    match o {
        Outcome::Trap => true,
        _ => false,
    }
}

/// Whether it made no memory trap.
pub fn is_no_mem_trap(o: &Outcome) -> bool
    ensures { (d : Descs) (i : Instrs) (s : State) → IsRun d i s o.now → (IsTrue result ↔ IsNoMemTrap (course_at d i s)) }
{
    match o {
        Outcome::MemTrap => false,
        _ => true,
    }
}

/// Whether a program status word has another mode or another relocation-bounds register than the one before.
fn has_other_control(old: &Psw, psw: &Psw) -> bool
    ensures { IsTrue result ↔ HasOtherControl old.now psw.now }
{
    if !same_mode(psw.mode, old.mode) {
        return true;
    }
    psw.l != old.l || psw.b != old.b
}

/// Whether the instruction was done and left another mode or another relocation-bounds register than the one before.
pub fn changes_control(old: &Psw, o: &Outcome) -> bool
    ensures { (d : Descs) (i : Instrs) (s : State) → IsRun d i s o.now → (IsTrue result ↔ ChangesControl old.now (course_at d i s)) }
{
    match o {
        Outcome::Done(effect) => has_other_control(old, &effect.psw),
        _ => false,
    }
}

/// Whether a window after some stores has, at the addresses of stores, the cells that it has after others.
fn agree_at(s: &Sparse, at: &[Write], xs: &[Write], ys: &[Write]) -> bool
    ensures { IsTrue result ↔ All (λ w. slice_get (written xs.now (window (state_of s.now))) w.at ≡ slice_get (written ys.now (window (state_of s.now))) w.at) at.now }
{
    let window = window_of(s);
    let first = Overlay {
        cells: &window,
        writes: xs,
    };
    let second = Overlay {
        cells: &window,
        writes: ys,
    };
    at.iter().all(|w| first.cell(w.at) == second.cell(w.at))
}

/// Whether a window is the same after some stores and after others: only where something is stored can it differ.
fn same_after(s: &Sparse, xs: &[Write], ys: &[Write]) -> bool
    ensures { IsTrue result ↔ (written xs.now (window (state_of s.now)) ≡ written ys.now (window (state_of s.now))) }
{
    if !agree_at(s, xs, xs, ys) {
        return false;
    }
    agree_at(s, ys, xs, ys)
}

/// Whether two effects leave the same window and the same P.
fn same_effect(s: &Sparse, x: &Effect, y: &Effect) -> bool
    ensures { IsTrue result ↔ SameEffect (window (state_of s.now)) x.now y.now }
{
    if x.psw.p != y.psw.p {
        return false;
    }
    same_after(s, x.writes.as_slice(), y.writes.as_slice())
}

/// Whether the same is observed of two runs in the same window, which is that of a state.
pub fn same_observation(s: &Sparse, x: &Outcome, y: &Outcome) -> bool
    ensures { (d : Descs) (i : Instrs) (u v : State) → IsRun d i u x.now → IsRun d i v y.now → window u ≡ window (state_of s.now) → window v ≡ window (state_of s.now) → (IsTrue result ↔ (observation d i u ≡ observation d i v)) }
{
    match x {
        Outcome::MemTrap => match y {
            Outcome::MemTrap => true,
            _ => false,
        },
        Outcome::Trap => match y {
            Outcome::Trap => true,
            _ => false,
        },
        Outcome::NoPattern => false,
        Outcome::Done(effect) => match y {
            Outcome::Done(other) => same_effect(s, effect, other),
            _ => false,
        },
    }
}
