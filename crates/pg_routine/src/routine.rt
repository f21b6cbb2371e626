//! One step of a guest's machine, interpreted.

ghost use Rattle.std.specs.Prelude.{◌≡◌, ◌+◌, ◌<◌, ◌≤◌, ◌^◌, length, take, drop, All, true, false};
ghost use Rattle.pg_word.specs.Psw.{cause_number};
ghost use Rattle.pg_lang_meaning.specs.States.{IsState};
ghost use Rattle.pg_lang_meaning.specs.Steps.{step, trapped};
ghost use Rattle.pg_hw.specs.Bursts.{traps};
ghost use Rattle.pg_hw.specs.Serving.{IsServed, IsServedWord};
ghost use Rattle.pg_interp.specs.Writes.{written};
ghost use Rattle.pg_routine.specs.Granting.{guest_at, GrantPoked};

use crate::window::{Span, Window, span_of};
use pg_hw::Hardware;
use pg_interp::{Ended, Frame, Write, overlaid, step_in};
use pg_mach_ready::Machine;
use pg_word::{Cause, NEW_PSW_CELL, OLD_PSW_CELL, Psw, pack_trap, unpack};

/// What is told of an interpreted step.
#[derive(Clone, Copy, Debug, PartialEq, Eq)]
pub struct Emulated {
    /// Whether it trapped, by whatever cause.
    pub trapped: bool,
    /// Whether it left the guest's state as it was, so that every later step does.
    pub still: bool,
}

/// One step of a guest's machine.
///
/// The guest is the `size` cells of the hardware from `base` on, with the program status word `psw`. They become what
/// *Step* makes of them, by at most 8 pokes; the hardware's own program status word is not touched, and it does no step.
pub fn emulate<H: Hardware>(m: &Machine, hw: &mut H, base: u32, size: u32, psw: &mut Psw)
    requires served { IsServed (H.serves (H.fixed hw.old)) m.now.desc }
    requires addressable { base + size < 2 ^ 32 }
    requires within { base + size ≤ length (H.machinery hw.old).state.cells }
    requires guest { IsState m.now.desc (guest_at (H.machinery hw.old).state.cells base size psw.old) }
    ensures grant { let guest = guest_at (H.machinery hw.old).state.cells base size psw.old in
        GrantPoked base (step m.now.desc guest).cells 8 (H.machinery hw.old) (H.machinery hw.new) }
    ensures psw { psw.new ≡ (step m.now.desc (guest_at (H.machinery hw.old).state.cells base size psw.old)).psw }
    ensures fixed { H.fixed hw.new ≡ H.fixed hw.old }
{
    let mut frame = Frame::new();
    emulate_told(m, hw, base, size, psw, &mut frame);
}

/// One step of a guest's machine, as `emulate` does it; whether it trapped, by whatever cause. It is done in a frame that is
/// made once for many steps; what the frame has before means nothing.
pub fn emulate_told<H: Hardware>(
    m: &Machine,
    hw: &mut H,
    base: u32,
    size: u32,
    psw: &mut Psw,
    frame: &mut Frame,
) -> bool
    requires served { IsServed (H.serves (H.fixed hw.old)) m.now.desc }
    requires addressable { base + size < 2 ^ 32 }
    requires within { base + size ≤ length (H.machinery hw.old).state.cells }
    requires guest { IsState m.now.desc (guest_at (H.machinery hw.old).state.cells base size psw.old) }
    ensures grant { let guest = guest_at (H.machinery hw.old).state.cells base size psw.old in
        GrantPoked base (step m.now.desc guest).cells 8 (H.machinery hw.old) (H.machinery hw.new) }
    ensures psw { psw.new ≡ (step m.now.desc (guest_at (H.machinery hw.old).state.cells base size psw.old)).psw }
    ensures told { result ≡ traps m.now.desc (guest_at (H.machinery hw.old).state.cells base size psw.old) }
    ensures fixed { H.fixed hw.new ≡ H.fixed hw.old }
{
    emulate_seen(m, hw, base, size, psw, frame).trapped
}

/// One step of a guest's machine, as `emulate_told` does it; whether it trapped, and whether it left the state as it was. The latter
/// costs a comparison, but where P is what it was.
pub fn emulate_seen<H: Hardware>(
    m: &Machine,
    hw: &mut H,
    base: u32,
    size: u32,
    psw: &mut Psw,
    frame: &mut Frame,
) -> Emulated
    requires served { IsServed (H.serves (H.fixed hw.old)) m.now.desc }
    requires addressable { base + size < 2 ^ 32 }
    requires within { base + size ≤ length (H.machinery hw.old).state.cells }
    requires guest { IsState m.now.desc (guest_at (H.machinery hw.old).state.cells base size psw.old) }
    ensures grant { let guest = guest_at (H.machinery hw.old).state.cells base size psw.old in
        GrantPoked base (step m.now.desc guest).cells 8 (H.machinery hw.old) (H.machinery hw.new) }
    ensures psw { psw.new ≡ (step m.now.desc (guest_at (H.machinery hw.old).state.cells base size psw.old)).psw }
    ensures trapped { result.trapped ≡ traps m.now.desc (guest_at (H.machinery hw.old).state.cells base size psw.old) }
    ensures still { let guest = guest_at (H.machinery hw.old).state.cells base size psw.old in
        result.still ≡ true → step m.now.desc guest ≡ guest }
    ensures moves { let guest = guest_at (H.machinery hw.old).state.cells base size psw.old in
        result.still ≡ false → step m.now.desc guest ≡ guest → ⊥ }
    ensures fixed { H.fixed hw.new ≡ H.fixed hw.old }
{
    let span = span_of(*psw, base, size);
    let ended = step_in(m, &Window { hw, span }, *psw, frame);
    match ended {
        Ended::MemTrap => trap(m, hw, base, size, psw, Cause::Memory),
        Ended::Trap => trap(m, hw, base, size, psw, Cause::Trap),
        Ended::NoPattern => trap(m, hw, base, size, psw, Cause::NoPattern),
        Ended::Done => {
            let writes = frame.writes.as_slice();
            let still = leaves(hw, span, *psw, frame.next, writes);
            store(hw, span, writes);
            *psw = frame.next;
            Emulated {
                trapped: false,
                still,
            }
        }
    }
}

/// Whether a step that is done leaves the guest's state as it is: `next` follows `psw`, and the stores are made in order into the
/// cells of a span. P is looked at first, since there most steps differ.
#[inline(always)]
fn leaves<H: Hardware>(hw: &H, span: Span, psw: Psw, next: Psw, writes: &[Write]) -> bool
    requires addressable { span.from + span.len < 2 ^ 32 }
    requires within { span.from + span.len ≤ length (H.machinery hw.now).state.cells }
    requires inside { All (λ x. x.at < span.len) writes.now }
    ensures psw { result ≡ true → next ≡ psw }
    ensures kept { let seen = take span.len (drop span.from (H.machinery hw.now).state.cells) in
        result ≡ true → written writes.now seen ≡ seen }
    ensures moved { let seen = take span.len (drop span.from (H.machinery hw.now).state.cells) in
        result ≡ false → next ≡ psw → written writes.now seen ≡ seen → ⊥ }
{
    if next.p != psw.p {
        return false;
    }
    next == psw && keep(hw, span, writes)
}

/// Whether stores, made in order into the cells of a span, leave every cell as it is.
///
/// It looks at all of them for each, so it is for where this is likely.
#[inline(never)]
fn keep<H: Hardware>(hw: &H, span: Span, writes: &[Write]) -> bool
    requires addressable { span.from + span.len < 2 ^ 32 }
    requires within { span.from + span.len ≤ length (H.machinery hw.now).state.cells }
    requires inside { All (λ x. x.at < span.len) writes.now }
    ensures kept { let seen = take span.len (drop span.from (H.machinery hw.now).state.cells) in
        result ≡ true → written writes.now seen ≡ seen }
    ensures changed { let seen = take span.len (drop span.from (H.machinery hw.now).state.cells) in
        result ≡ false → written writes.now seen ≡ seen → ⊥ }
{
    for write in writes {
        let held = hw.peek(span.from + write.at);
        if overlaid(writes, write.at, held) != held {
            return false;
        }
    }
    true
}

/// Makes stores in order into the cells of a span, by a poke each.
fn store<H: Hardware>(hw: &mut H, span: Span, writes: &[Write])
    requires addressable { span.from + span.len < 2 ^ 32 }
    requires within { span.from + span.len ≤ length (H.machinery hw.old).state.cells }
    requires inside { All (λ x. x.at < span.len) writes.now }
    requires words { All (λ x. IsServedWord (H.serves (H.fixed hw.old)) x.cell) writes.now }
    ensures grant { let seen = take span.len (drop span.from (H.machinery hw.old).state.cells) in
        GrantPoked span.from (written writes.now seen) (length writes.now) (H.machinery hw.old) (H.machinery hw.new) }
    ensures fixed { H.fixed hw.new ≡ H.fixed hw.old }
{
    for write in writes {
        hw.poke(span.from + write.at, write.cell);
    }
}

/// The trap of a guest's machine: it stores the guest's program status word in the guest's cell 0 with its cause, and
/// loads the one that the guest's cell 1 held.
fn trap<H: Hardware>(
    m: &Machine,
    hw: &mut H,
    base: u32,
    size: u32,
    psw: &mut Psw,
    cause: Cause,
) -> Emulated
    requires served { IsServed (H.serves (H.fixed hw.old)) m.now.desc }
    requires addressable { base + size < 2 ^ 32 }
    requires within { base + size ≤ length (H.machinery hw.old).state.cells }
    requires guest { IsState m.now.desc (guest_at (H.machinery hw.old).state.cells base size psw.old) }
    ensures grant { let guest = guest_at (H.machinery hw.old).state.cells base size psw.old in
        GrantPoked base (trapped m.now.desc guest (cause_number cause)).cells 8 (H.machinery hw.old) (H.machinery hw.new) }
    ensures psw { psw.new ≡ (trapped m.now.desc (guest_at (H.machinery hw.old).state.cells base size psw.old) (cause_number cause)).psw }
    ensures trapped { result.trapped ≡ true }
    ensures still { let guest = guest_at (H.machinery hw.old).state.cells base size psw.old in
        result.still ≡ true → trapped m.now.desc guest (cause_number cause) ≡ guest }
    ensures moves { let guest = guest_at (H.machinery hw.old).state.cells base size psw.old in
        result.still ≡ false → trapped m.now.desc guest (cause_number cause) ≡ guest → ⊥ }
    ensures fixed { H.fixed hw.new ≡ H.fixed hw.old }
{
    let shape = m.shape();
    let loaded = unpack(shape, hw.peek(base + NEW_PSW_CELL));
    let word = pack_trap(shape, *psw, cause.number());
    let still = swaps_nothing(loaded, *psw, hw.peek(base + OLD_PSW_CELL), word);
    hw.poke(base + OLD_PSW_CELL, word);
    *psw = loaded;
    Emulated {
        trapped: true,
        still,
    }
}

/// Whether a trap loads the program status word that is there, and stores the word that its cell holds.
#[inline(always)]
fn swaps_nothing(loaded: Psw, psw: Psw, held: u64, word: u64) -> bool
    ensures loads { result ≡ true → loaded ≡ psw }
    ensures stores { result ≡ true → held ≡ word }
    ensures swaps { result ≡ false → loaded ≡ psw → held ≡ word → ⊥ }
{
    loaded == psw && held == word
}
