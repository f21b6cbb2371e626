//! `replay`: the states that a certificate shows, and what one step makes of each.
//!
//! The description is loaded, and then the certificate. Then the text is put, a state at a time: the state behind a step takes
//! memory, so that lack of memory may leave a front of the text.

ghost use Rattle.std.specs.Prelude.{None};
ghost use Rattle.pg_cmd_base.specs.Commands.{Carries};
ghost use Rattle.pg_cmd_base.specs.World.{Keeps, around};
ghost use Rattle.pg_cmd_check.specs.Replay.{replay_command};

use pg_cert::Family;
use pg_cli_table::ReplayWords;
use pg_cmd_base::{Status, StopWatcher, stopped};
use pg_cmd_certs::load_judged;
use pg_edge::{Shelf, Sink};
use pg_hw::Hardware;
use pg_report::{ReplayFault, put_replay};
use std::alloc::Global;

/// Carries out `replay`. The hardware is lent, and stays as it is.
pub fn carry_replay<F: Shelf, S: Sink, H: Hardware, W: StopWatcher>(
    alloc: Global,
    words: &ReplayWords,
    shelf: &mut F,
    out: &mut S,
    hw: &H,
    watcher: &mut W,
) -> Status
    ensures carries { Carries (replay_command words.now) (around F.Shelf S.Sink H.Hardware shelf.old out.old hw.now)
        (around F.Shelf S.Sink H.Hardware shelf.new out.new hw.now) result }
    ensures keeps { Keeps None (around F.Shelf S.Sink H.Hardware shelf.old out.old hw.now)
        (around F.Shelf S.Sink H.Hardware shelf.new out.new hw.now) }
{
    let judged = match load_judged(alloc, Family::Plain, &words.desc, &words.cert, shelf) {
        Ok(judged) => judged,
        Err(stop) => return stopped(&stop, out, watcher),
    };
    match put_replay(alloc, out, &judged.machine, &judged.report) {
        Ok(()) => Status::Done,
        Err(ReplayFault::Failed) => Status::WriteFault,
        Err(ReplayFault::Memory) => Status::Memory,
    }
}
