//! How a command stops before its work.
//!
//! Whatever stops a command is found before the hardware is touched or anything is put. A refusal is told, in a text of its own
//! or by its status alone; of a read that failed, and of memory, nothing is. Each command calls `stopped` and answers what it
//! answers.

ghost use Rattle.std.specs.Prelude.{◌≡◌, ◌≤◌};
ghost use Rattle.pg_cmd_base.specs.Classes.{class_of};
ghost use Rattle.pg_cmd_base.specs.Answering.{Stops, SaysRefusal};
ghost use Rattle.pg_cmd_base.specs.Refusals.{line_status};
ghost use Rattle.pg_cmd_base.specs.World.{output};

use crate::refusal::{Refusal, Stop};
use crate::status::Status;
use crate::watching::StopWatcher;
use pg_edge::Sink;
use pg_report::{RefusalLine, put_refusal, put_usage};

/// Says why a command stops, where that is told, and answers with which status. The watcher is told first.
pub fn stopped<S: Sink, W: StopWatcher>(stop: &Stop, out: &mut S, watcher: &mut W) -> Status
    ensures stops { Stops stop.now (output S.Sink out.old) (output S.Sink out.new) result }
    ensures later { S.faults out.old ≤ S.faults out.new }
{
    watcher.stops(stop);
    match stop {
        Stop::Refused(why) => refuse(why, out),
        Stop::ReadFault => Status::ReadFault,
        Stop::Memory => Status::Memory,
    }
}

/// Puts the text of a refusal; of a file that is missing nothing is put.
fn refuse<S: Sink>(why: &Refusal, out: &mut S) -> Status
    ensures told { SaysRefusal why.now (output S.Sink out.old) (output S.Sink out.new)
        result (class_of result) }
    ensures later { S.faults out.old ≤ S.faults out.new }
{
    match why {
        Refusal::Missing => Status::Missing,
        Refusal::Words => match put_usage(out) {
            Ok(()) => Status::Words,
            Err(_) => Status::WriteFault,
        },
        Refusal::Line(line) => match put_refusal(out, line) {
            Ok(()) => status_of(line),
            Err(_) => Status::WriteFault,
        },
    }
}

/// The status of a refusal that is told in a line.
fn status_of(line: &RefusalLine) -> Status
    ensures { result ≡ line_status line.now }
{
    match line {
        RefusalLine::Description(_) => Status::Description,
        RefusalLine::Image(..) => Status::Image,
        RefusalLine::Certificate(_) => Status::Certificate,
        RefusalLine::Room(..) => Status::Room,
        RefusalLine::Source(_) => Status::Source,
        RefusalLine::Saved(_) => Status::Saved,
    }
}
