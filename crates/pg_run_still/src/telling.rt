//! The text of guests that ran until they were still.

ghost use Rattle.std.specs.Prelude.{◌≡◌, ◌+◌, ◌<◌, ◌≤◌, ◌^◌, [], ◌∷◌, ◌++◌, All, codes, length};
ghost use Rattle.std.specs.Fmt.{decimal};
ghost use Rattle.pg_edge.specs.Sink.{Puts};
ghost use Rattle.pg_mon_control.specs.Guests.{virtual, virtuals};
ghost use Rattle.pg_run_guests.specs.Telling.{AreWithin};
ghost use Rattle.pg_lang_meaning.specs.States.{IsState};
ghost use Rattle.pg_run_still.specs.Bare.{stood_text};
ghost use Rattle.pg_run_still.specs.Running.{head_text, rest_said, rests_text, still_text};
ghost use Rattle.pg_run_still.specs.Views.{AreViewsOf, guest_text};

use crate::rounds::Rest;
use crate::running::Rested;
use crate::view::View;
use crate::viewing::put_views;
use pg_edge::{Failed, Sink};
use pg_hw::Hardware;
use pg_image::{Line, push};
use pg_mach_ready::Machine;
use pg_mon_control::Guest;
use pg_report::{put_state, put_steps};
use pg_text::dec;

/// Puts the text of guests that ran: of each its number, what is told of it, and what the views show of its state, or its whole state
/// where there is no view; in order, and then the counts of turns, how many they had and how many of these the hardware executed
/// untrapped. It takes no memory, and the time grows with the cells that are told.
///
/// # Errors
/// `Failed` where not all of the text went through. A front of it may have.
pub fn put_rested<S: Sink, H: Hardware>(
    out: &mut S,
    machine: &Machine,
    ran: &Rested<'_>,
    views: &[View],
    hw: &H,
) -> Result<(), Failed>
    requires count { length ran.now.rests.items ≡ length ran.now.monitor.guests }
    requires words { All (λ cell. cell < 2 ^ machine.now.desc.word) (H.machinery hw.now).state.cells }
    requires within { AreWithin (H.machinery hw.now).state ran.now.monitor.guests }
    requires views { All (λ guest. AreViewsOf guest.size views.now) ran.now.monitor.guests }
    ensures { Puts (S.written out.old) (S.written out.new) (S.faults out.old) (S.faults out.new)
        (still_text machine.now.desc.word views.now (virtuals (H.machinery hw.now).state.cells ran.now.monitor.guests) ran.now.rests.items
        ran.now.turns ran.now.direct) result }
{
    match put_guests(out, machine, ran.guests(), ran.rests(), views, hw) {
        Ok(()) => put_steps(out, ran.turns(), ran.direct()),
        Err(failed) => Err(failed),
    }
}

/// Puts the text of a bare machine that did `most` steps at most, and is at the state that the hardware holds: behind how many steps it
/// is still, or how many it did; and what the views show of the state, or all of it where there is no view.
///
/// # Errors
/// `Failed` where not all of the text went through. A front of it may have.
pub fn put_stood<S: Sink, H: Hardware>(
    out: &mut S,
    machine: &Machine,
    most: u64,
    still: Option<u64>,
    views: &[View],
    hw: &H,
) -> Result<(), Failed>
    requires state { IsState machine.now.desc (H.machinery hw.now).state }
    requires views { AreViewsOf (length (H.machinery hw.now).state.cells) views.now }
    ensures { Puts (S.written out.old) (S.written out.new) (S.faults out.old) (S.faults out.new)
        (stood_text machine.now.desc.word views.now most still (H.machinery hw.now).state) result }
{
    let whole = Guest {
        base: 0,
        size: hw.size(),
        psw: hw.psw(),
    };
    put_one(out, machine, whole, said_of(most, still), views, hw)
}

/// Puts what is told of each guest.
fn put_guests<S: Sink, H: Hardware>(
    out: &mut S,
    machine: &Machine,
    guests: &[Guest],
    rests: &[Rest],
    views: &[View],
    hw: &H,
) -> Result<(), Failed>
    requires count { length rests.now ≡ length guests.now }
    requires words { All (λ cell. cell < 2 ^ machine.now.desc.word) (H.machinery hw.now).state.cells }
    requires within { AreWithin (H.machinery hw.now).state guests.now }
    requires views { All (λ guest. AreViewsOf guest.size views.now) guests.now }
    ensures { Puts (S.written out.old) (S.written out.new) (S.faults out.old) (S.faults out.new)
        (rests_text machine.now.desc.word views.now 0 (virtuals (H.machinery hw.now).state.cells guests.now) rests.now) result }
{
    for k in 0..guests.len() {
        match put_one(out, machine, guests[k], head_of(k, rests[k]), views, hw) {
            Ok(()) => {}
            Err(failed) => return Err(failed),
        }
    }
    Ok(())
}

/// Puts the lines before what is told of a guest's cells, and what is told of them.
fn put_one<S: Sink, H: Hardware>(
    out: &mut S,
    machine: &Machine,
    guest: Guest,
    head: Line,
    views: &[View],
    hw: &H,
) -> Result<(), Failed>
    requires within { guest.base + guest.size ≤ length (H.machinery hw.now).state.cells }
    requires words { All (λ cell. cell < 2 ^ machine.now.desc.word) (virtual (H.machinery hw.now).state.cells guest).cells }
    requires views { AreViewsOf guest.size views.now }
    ensures { Puts (S.written out.old) (S.written out.new) (S.faults out.old) (S.faults out.new)
        (head.items ++ guest_text machine.now.desc.word views.now (virtual (H.machinery hw.now).state.cells guest)) result }
{
    match out.put(head.as_slice()) {
        Ok(()) => put_guest(out, machine, guest, views, hw),
        Err(failed) => Err(failed),
    }
}

/// Puts what the views show of a guest, or its whole state where there is no view.
fn put_guest<S: Sink, H: Hardware>(
    out: &mut S,
    machine: &Machine,
    guest: Guest,
    views: &[View],
    hw: &H,
) -> Result<(), Failed>
    requires within { guest.base + guest.size ≤ length (H.machinery hw.now).state.cells }
    requires words { All (λ cell. cell < 2 ^ machine.now.desc.word) (virtual (H.machinery hw.now).state.cells guest).cells }
    requires views { AreViewsOf guest.size views.now }
    ensures { Puts (S.written out.old) (S.written out.new) (S.faults out.old) (S.faults out.new)
        (guest_text machine.now.desc.word views.now (virtual (H.machinery hw.now).state.cells guest)) result }
{
    let shape = machine.shape();
    if views.is_empty() {
        put_state(out, shape, hw, guest.base, guest.size, guest.psw)
    } else {
        put_views(out, shape, views, guest, hw)
    }
}

/// The lines before what is told of a guest's cells: its number, and behind how many steps it is still, or how many it had.
#[tactic(auto, unfolding(crate::specs::Running::head_text))]
fn head_of(number: usize, rest: Rest) -> Line
    ensures { result.items ≡ head_text number rest }
{
    match rest.still {
        Some(steps) => head_with(number, b"still after ", steps),
        None => head_with(number, b"after ", rest.turns),
    }
}

/// The lines of a guest of which these words and so many steps are told.
fn head_with(number: usize, words: &[u8], steps: u64) -> Line
    requires { length words.now ≤ 12 }
    ensures { result.items ≡ codes "guest " ++ decimal number ++ 10 ∷ [] ++ (words.now ++ decimal steps ++ codes " steps" ++ 10 ∷ []) }
{
    let mut line = Line::new();
    push(&mut line, b"guest ");
    push(&mut line, dec(number as u64).as_slice());
    line.push(b'\n');
    push(&mut line, said_with(words, steps).as_slice());
    line
}

/// The line that tells of a bare machine: behind how many steps it is still, or how many it did.
fn said_of(most: u64, still: Option<u64>) -> Line
    ensures { result.items ≡ rest_said most still }
{
    match still {
        Some(steps) => said_with(b"still after ", steps),
        None => said_with(b"after ", most),
    }
}

/// These words and so many steps, in a line.
fn said_with(words: &[u8], steps: u64) -> Line
    requires { length words.now ≤ 12 }
    ensures items { result.items ≡ words.now ++ decimal steps ++ codes " steps" ++ 10 ∷ [] }
    ensures short { length result.items ≤ 39 }
{
    let mut line = Line::new();
    push(&mut line, words);
    push(&mut line, dec(steps).as_slice());
    push(&mut line, b" steps");
    line.push(b'\n');
    line
}
