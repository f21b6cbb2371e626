//! `pg_go`: images as guests under a monitor, each until it is still; or one on a bare machine.
//!
//!     pg_go DESC CERT IMAGE.. --grant G [--steps N] [--slice K] [--show A..B].. [--text A..B[:BITS]]..
//!     pg_go --bare DESC IMAGE --grant G [--steps N] [--show A..B].. [--text A..B[:BITS]]..
//!
//! Each image runs as a guest, as under `pgv run`, but not for so many steps: until it is *still*. A guest is still where its next step
//! leaves its state as it is, as a jump to itself does, or a trap that stores and loads what is there already: every later state is
//! that one. It has the rest of its slice, and no turn after. The run ends when each guest is still, or has had all its steps.
//!
//! For each guest stands its number, then `still after N steps`, N the first number of steps behind which it is still, and its state.
//! With `--steps N` a guest that was not found still in so many steps ends there; it is told as `after N steps`. The last line has the
//! turns of all guests, and how many of them the hardware executed untrapped.
//!
//! - `--grant G`: how many cells each guest is granted, 2 to 1,048,575. `--slice K`: how many steps a guest does before the next has its
//!   turn, 1 to 1,000,000; 1,000 where it is left out.
//! - `--steps N`: how many steps each guest does at most, 0 to 144,115,188,075,855,872, which is 2^57, and what it is where it is left
//!   out.
//! - `--show A..B`: in place of the states the words of cells are told, from address A of a guest's storage on up to B, B not among
//!   them, A below B and B at most G; eight on a line, each line begun by its first address, and lines of zeros too.
//! - `--text A..B[:BITS]`: in place of the states the BITS low bits of each of these cells are told, as bytes, the low byte first; a
//!   line feed stands behind them. BITS is 8, 16, 24, 32, 40, 48, 56 or 64; 8 where it is left out.
//!
//! The last two may stand 16 times in all; of each guest all that they name is told, in their order.
//!
//! With `--bare` one image runs on a bare machine of so many cells, without a monitor and so without a certificate. Behind how many steps
//! it is still is told in the same words, then its state, or what is to be shown of it. There is no line of turns.
//!
//! Words that are not taken are answered by the usage (3). The other refusals have the lines and statuses of `pgv run`, in its order:
//! the description (4), the room (7), the images (5), the certificate (6), a verdict that does not accept the machine (1, 2). Those of
//! a bare machine are of `pgv bare`. The status is 8 where a file cannot be read, 9 where the output cannot be written, 10 where memory
//! is refused, and 11 where a file is not there. No file is saved. What each status means is a clause (`run`, `carry_go`, `carry_bare`).
//!
//! - `request`: the words. `preparing`: the files, to a `plan`, a run that can be done. `carry`: the run and its text. `bare`: all of
//!   these of a bare machine.
#![tactic(auto)]

ghost use Rattle.std.specs.Prelude.{◌≡◌, None};
ghost use Rattle.pg_cmd_base.specs.Able.{IsAble};
ghost use Rattle.pg_cmd_base.specs.World.{Keeps, around};
ghost use Rattle.pg_prog_go.specs.Calls.{Goes, GoesBy};

mod bare;
mod carry;
mod plan;
mod preparing;
mod request;

pub use bare::carry_bare;
pub use carry::carry_go;
use pg_cmd_base::{Status, StopWatcher, tell_usage};
use pg_edge::{Shelf, Sink};
use pg_hw::Settling;
use pg_run_guests::RunWatcher;
pub use request::{Asked, BareGoWords, GoWords, MOST_STEPS, StepsAtMost, asked_by};
use std::alloc::Global;

/// How the program is called.
pub const USAGE: &[u8] =
    b"usage: pg_go DESC CERT IMAGE.. --grant G [--steps N] [--slice K] [--show A..B].. [--text A..B[:BITS]]..\n       pg_go --bare DESC IMAGE --grant G [--steps N] [--show A..B].. [--text A..B[:BITS]]..\n";

/// Runs what the words ask for, the program's name first, and gives the number of the status. Words that are not taken are answered by
/// how the program is called, and nothing is touched.
pub fn run<F: Shelf, S: Sink, H: Settling, W: StopWatcher + RunWatcher>(
    alloc: Global,
    words: &[String],
    shelf: &mut F,
    out: &mut S,
    hw: &mut H,
    watcher: &mut W,
) -> u8
    requires able { IsAble H.Hardware hw.old }
    ensures goes { GoesBy (around F.Shelf S.Sink H.Hardware shelf.old out.old hw.old)
        (around F.Shelf S.Sink H.Hardware shelf.new out.new hw.new) result }
    ensures keeps { Keeps None (around F.Shelf S.Sink H.Hardware shelf.old out.old hw.old)
        (around F.Shelf S.Sink H.Hardware shelf.new out.new hw.new) }
    ensures fixed { H.fixed hw.new ≡ H.fixed hw.old }
{
    go(alloc, words, shelf, out, hw, watcher).code()
}

/// Runs what the words ask for.
fn go<F: Shelf, S: Sink, H: Settling, W: StopWatcher + RunWatcher>(
    alloc: Global,
    words: &[String],
    shelf: &mut F,
    out: &mut S,
    hw: &mut H,
    watcher: &mut W,
) -> Status
    requires able { IsAble H.Hardware hw.old }
    ensures goes { Goes (around F.Shelf S.Sink H.Hardware shelf.old out.old hw.old)
        (around F.Shelf S.Sink H.Hardware shelf.new out.new hw.new) result }
    ensures keeps { Keeps None (around F.Shelf S.Sink H.Hardware shelf.old out.old hw.old)
        (around F.Shelf S.Sink H.Hardware shelf.new out.new hw.new) }
    ensures fixed { H.fixed hw.new ≡ H.fixed hw.old }
{
    match asked_by(alloc, words) {
        Err(_) => Status::Memory,
        Ok(None) => tell_usage(out, USAGE),
        Ok(Some(Asked::Guests(words))) => carry_go(alloc, &words, shelf, out, hw, watcher),
        Ok(Some(Asked::Bare(words))) => carry_bare(alloc, &words, shelf, out, hw, watcher),
    }
}
