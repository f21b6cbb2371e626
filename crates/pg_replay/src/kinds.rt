//! Whether two states show a kind, kind by kind.

ghost use Rattle.std.specs.Prelude.{◌≡◌, ◌↔◌, ◌<◌, IsTrue, length, slice_get, Some};
ghost use Rattle.pg_ast.specs.declared.tree.Instr.{Instr as Instrs};
ghost use Rattle.pg_lang_meaning.specs.States.{window};
ghost use Rattle.pg_type.specs.Kinds.{Shows, IsModePair, BreaksPrivilege, ShowsControl, ShowsMode, ShowsLocation, ShowsBound};
ghost use Rattle.pg_type.specs.Listed.{state_of};
ghost use Rattle.pg_replay.specs.Running.{IsOf, AreAlike, Differ};

use crate::observe::{
    changes_control, is_done, is_no_mem_trap, is_trap, run, same_observation, stands,
};
use crate::same::{is_in_user, is_same, same_mode, same_size, same_window};
use pg_ast::Instr;
use pg_mach_ready::Machine;
use pg_type::Kind;
use pg_word::{Mode, Sparse};

/// Whether two states show a kind of an instruction, of a number below `count()`: exactly where they do, by the definition
/// of *Shows*. Nothing is asked of the states, which may be of no machine; then they show nothing.
pub fn replay(m: &Machine, instr: usize, kind: Kind, s: &Sparse, t: &Sparse) -> bool
    requires { instr < length m.now.desc.instrs }
    ensures { (i : Instrs) → slice_get m.now.desc.instrs instr ≡ Some i → (IsTrue result ↔ Shows m.now.desc i kind (state_of s.now) (state_of t.now)) }
{
    shows(m, &m.desc.instrs.as_slice()[instr], kind, s, t)
}

/// The same of an instruction of the machine.
fn shows(m: &Machine, i: &Instr, kind: Kind, s: &Sparse, t: &Sparse) -> bool
    requires { IsOf m.now.desc i.now }
    ensures { IsTrue result ↔ Shows m.now.desc i.now kind (state_of s.now) (state_of t.now) }
{
    match kind {
        Kind::Privileged => breaks_privilege(m, i, s, t),
        Kind::Control => shows_control(m, i, s, t),
        Kind::ModeDep => shows_mode(m, i, s, t),
        Kind::Location => shows_location(m, i, s, t),
        Kind::Bound => shows_bound(m, i, s, t),
        Kind::UControl => shows_control(m, i, s, t) && same_mode(s.psw.mode, Mode::U),
        Kind::ULocation => shows_location(m, i, s, t) && same_mode(s.psw.mode, Mode::U),
        Kind::UBound => shows_bound(m, i, s, t) && same_mode(s.psw.mode, Mode::U),
    }
}

/// Whether the first is a supervisor state, the second the same in user mode, and the instruction stands at both.
fn is_mode_pair(m: &Machine, i: &Instr, s: &Sparse, t: &Sparse) -> bool
    ensures { IsTrue result ↔ IsModePair m.now.desc i.now (state_of s.now) (state_of t.now) }
{
    if !same_mode(s.psw.mode, Mode::S) {
        return false;
    }
    if !is_in_user(s, t) {
        return false;
    }
    if !stands(m, i, s) {
        return false;
    }
    stands(m, i, t)
}

/// Whether two states show that the instruction is not privileged.
fn breaks_privilege(m: &Machine, i: &Instr, s: &Sparse, t: &Sparse) -> bool
    requires { IsOf m.now.desc i.now }
    ensures { IsTrue result ↔ BreaksPrivilege m.now.desc i.now (state_of s.now) (state_of t.now) }
{
    if !is_mode_pair(m, i, s, t) {
        return false;
    }
    let user = run(m, i, t);
    if is_done(&user) {
        return true;
    }
    if !is_no_mem_trap(&user) {
        return false;
    }
    is_trap(&run(m, i, s))
}

/// Whether a state, given twice, shows that the instruction is control sensitive.
fn shows_control(m: &Machine, i: &Instr, s: &Sparse, t: &Sparse) -> bool
    requires { IsOf m.now.desc i.now }
    ensures { IsTrue result ↔ ShowsControl m.now.desc i.now (state_of s.now) (state_of t.now) }
{
    if !is_same(s, t) {
        return false;
    }
    if !stands(m, i, s) {
        return false;
    }
    changes_control(&s.psw, &run(m, i, s))
}

/// Whether two states show that the instruction is sensitive to the mode.
fn shows_mode(m: &Machine, i: &Instr, s: &Sparse, t: &Sparse) -> bool
    requires { IsOf m.now.desc i.now }
    ensures { IsTrue result ↔ ShowsMode m.now.desc i.now (state_of s.now) (state_of t.now) }
{
    if !is_mode_pair(m, i, s, t) {
        return false;
    }
    let user = run(m, i, t);
    if !is_done(&user) {
        return false;
    }
    !same_observation(s, &run(m, i, s), &user)
}

/// Whether two states have the same mode, P and window.
fn are_alike(s: &Sparse, t: &Sparse) -> bool
    ensures { IsTrue result ↔ AreAlike (state_of s.now) (state_of t.now) }
{
    if s.psw.p != t.psw.p {
        return false;
    }
    if !same_mode(s.psw.mode, t.psw.mode) {
        return false;
    }
    same_window(s, t)
}

/// Whether the instruction, standing at both of two states of one window, is done at one at least and differently observed.
fn differ(m: &Machine, i: &Instr, s: &Sparse, t: &Sparse) -> bool
    requires of { IsOf m.now.desc i.now }
    requires same_window { window (state_of s.now) ≡ window (state_of t.now) }
    ensures { IsTrue result ↔ Differ m.now.desc i.now (state_of s.now) (state_of t.now) }
{
    if !stands(m, i, s) {
        return false;
    }
    if !stands(m, i, t) {
        return false;
    }
    let (first, second) = (run(m, i, s), run(m, i, t));
    if !is_done(&first) && !is_done(&second) {
        return false;
    }
    !same_observation(s, &first, &second)
}

/// Whether two states show that the instruction is sensitive to the place of its window.
fn shows_location(m: &Machine, i: &Instr, s: &Sparse, t: &Sparse) -> bool
    requires { IsOf m.now.desc i.now }
    ensures { IsTrue result ↔ ShowsLocation m.now.desc i.now (state_of s.now) (state_of t.now) }
{
    if s.psw.b != t.psw.b || s.psw.l == t.psw.l {
        return false;
    }
    if !same_size(s, t) {
        return false;
    }
    if !are_alike(s, t) {
        return false;
    }
    differ(m, i, s, t)
}

/// Whether two states show that the instruction is sensitive to the bound.
fn shows_bound(m: &Machine, i: &Instr, s: &Sparse, t: &Sparse) -> bool
    requires { IsOf m.now.desc i.now }
    ensures { IsTrue result ↔ ShowsBound m.now.desc i.now (state_of s.now) (state_of t.now) }
{
    if s.psw.l != t.psw.l || s.psw.b == t.psw.b {
        return false;
    }
    if !are_alike(s, t) {
        return false;
    }
    differ(m, i, s, t)
}
