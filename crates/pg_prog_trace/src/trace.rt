//! What the words ask for, as text, as JSON or as a value change dump.

ghost use Rattle.std.specs.Prelude.{◌≡◌};
ghost use Rattle.pg_cmd_base.specs.Able.{IsAble};
ghost use Rattle.pg_cmd_base.specs.Answering.{OnlyReads};
ghost use Rattle.pg_cmd_base.specs.World.{around};
ghost use Rattle.pg_prog_trace.specs.Calls.{Traced, TracedBy, TracesAsked};

use crate::carry::carry;
use crate::json::carry_json;
use crate::request::{TraceWords, Written, asked_by};
use crate::vcd::carry_vcd;
use pg_cmd_base::{Status, StopWatcher, tell_usage};
use pg_edge::{Shelf, Sink};
use pg_hw::Hardware;
use std::alloc::Global;

/// How the program is called.
pub const USAGE: &[u8] =
    b"usage: pg_trace DESC IMAGE --grant G --steps N [--until E] [--cert CERT] [--only-traps] [--counts] [--json | --vcd]\n";

/// Runs what the words ask for, the program's name first, and gives the number of the status. Words that are not taken are answered by
/// how the program is called, and nothing is touched.
pub fn run<F: Shelf, S: Sink, H: Hardware, W: StopWatcher>(
    alloc: Global,
    words: &[String],
    shelf: &mut F,
    out: &mut S,
    hw: &mut H,
    watcher: &mut W,
) -> u8
    requires able { IsAble H.Hardware hw.old }
    ensures traced { TracedBy (around F.Shelf S.Sink H.Hardware shelf.old out.old hw.old)
        (around F.Shelf S.Sink H.Hardware shelf.new out.new hw.new) result }
    ensures reads { OnlyReads F.Shelf shelf.old shelf.new }
{
    trace(alloc, words, shelf, out, hw, watcher).code()
}

/// Runs what the words ask for.
fn trace<F: Shelf, S: Sink, H: Hardware, W: StopWatcher>(
    alloc: Global,
    words: &[String],
    shelf: &mut F,
    out: &mut S,
    hw: &mut H,
    watcher: &mut W,
) -> Status
    requires able { IsAble H.Hardware hw.old }
    ensures traced { Traced (around F.Shelf S.Sink H.Hardware shelf.old out.old hw.old)
        (around F.Shelf S.Sink H.Hardware shelf.new out.new hw.new) result }
    ensures reads { OnlyReads F.Shelf shelf.old shelf.new }
{
    match asked_by(alloc, words) {
        Err(_) => Status::Memory,
        Ok(None) => tell_usage(out, USAGE),
        Ok(Some(words)) => carry_asked(alloc, &words, shelf, out, hw, watcher),
    }
}

/// Runs what words ask for that are taken, and writes it as what they want it written.
fn carry_asked<F: Shelf, S: Sink, H: Hardware, W: StopWatcher>(
    alloc: Global,
    words: &TraceWords,
    shelf: &mut F,
    out: &mut S,
    hw: &mut H,
    watcher: &mut W,
) -> Status
    requires able { IsAble H.Hardware hw.old }
    ensures traces { TracesAsked words.now.form words.now (around F.Shelf S.Sink H.Hardware shelf.old out.old hw.old)
        (around F.Shelf S.Sink H.Hardware shelf.new out.new hw.new) result }
    ensures reads { OnlyReads F.Shelf shelf.old shelf.new }
{
    match words.form {
        Written::Text => carry(alloc, words, shelf, out, hw, watcher),
        Written::Json => carry_json(alloc, words, shelf, out, hw, watcher),
        Written::Vcd => carry_vcd(alloc, words, shelf, out, hw, watcher),
    }
}
