//! What the words ask for, as text or as JSON; and what is said on standard error.

ghost use Rattle.std.specs.Prelude.{◌≡◌, ◌≤◌, ◌<◌};
ghost use Rattle.pg_hw.specs.Machinery.{Machinery};
ghost use Rattle.pg_cmd_certs.specs.Judged.{verdict_on, verdict_status};
ghost use Rattle.pg_cmd_certs.specs.Views.{judged};
ghost use Rattle.pg_cmd_base.specs.Answering.{OnlyReads};
ghost use Rattle.pg_cmd_base.specs.Classes.{class_of};
ghost use Rattle.pg_cmd_base.specs.Codes.{code_of};
ghost use Rattle.pg_cmd_base.specs.Commands.{Carries};
ghost use Rattle.pg_cmd_base.specs.World.{SavesOnly, output};
ghost use Rattle.pg_prog_explain.specs.Calls.{ExplainedBy, JsonLeaves, TakenBy};
ghost use Rattle.pg_prog_explain.specs.Explaining.{HaltTold, PutAs, SavesAtMostOne, beside, explain_command, explain_words, stated_as};

use crate::found::{Found, Halt, find};
use crate::json::put_json;
use crate::request::{Request, asked_by};
use crate::source::source_saved;
use pg_cli_says::{Lacking, WordsWatcher};
use pg_cmd_base::{Status, StopWatcher, stopped, tell_usage};
use pg_cmd_certs::status_of;
use pg_edge::{Failed, Shelf, Sink};
use pg_io_host::telling::tell as say;
use pg_out_guarded::Layout;
use pg_prog_base::ended;
use pg_report::put_text;
use std::alloc::Global;
use std::io::Write;
use std::rt::Files;

/// How the program is called.
pub const USAGE: &[u8] =
    b"usage: pg_explain DESC CERT [INSTR [KIND] | --json] [--budget K] [--mend FILE] [--readable]\n";

/// What the lines on standard error begin with.
const PROGRAM: &str = "pg_explain";

/// Puts why the machine is refused that the words name, the program's name first, and gives the status of the verdict; else puts a
/// line, and gives another status. `layout` becomes that of the mended description, where one is saved. Words that are not taken are
/// answered by how the program is called, and nothing is touched.
pub fn run<F: Shelf, S: Sink, W: StopWatcher + WordsWatcher>(
    alloc: Global,
    words: &[String],
    shelf: &mut F,
    out: &mut S,
    layout: &mut Option<Layout>,
    watcher: &mut W,
) -> u8
    ensures explained { (hw : Machinery) → ExplainedBy (beside F.Shelf S.Sink hw shelf.old out.old) (beside F.Shelf S.Sink hw shelf.new out.new) result }
    ensures files { SavesAtMostOne (F.files shelf.old) (F.files shelf.new) }
{
    match asked_by(words) {
        None => tell_usage(out, USAGE).code(),
        Some(request) => carry_asked(alloc, &request, shelf, out, layout, watcher),
    }
}

/// The same for words that are taken.
fn carry_asked<F: Shelf, S: Sink, W: StopWatcher + WordsWatcher>(
    alloc: Global,
    request: &Request<'_>,
    shelf: &mut F,
    out: &mut S,
    layout: &mut Option<Layout>,
    watcher: &mut W,
) -> u8
    ensures taken { (hw : Machinery) → TakenBy (beside F.Shelf S.Sink hw shelf.old out.old) (beside F.Shelf S.Sink hw shelf.new out.new) result }
    ensures files { SavesOnly (explain_words request.now).mend (F.files shelf.old) (F.files shelf.new) }
{
    if request.is_json {
        carry_json(alloc, request, shelf, out, layout, watcher)
    } else {
        carry(alloc, request, shelf, out, layout, watcher).code()
    }
}

/// The status where a file that the words name to be read is the one that they name to be saved, which is told on standard error;
/// else none.
pub fn refused<R: Files, W: Write>(files: &R, error: &mut W, words: &[String]) -> Option<u8> {
    let source = source_saved(files, &asked_by(words)?)?;
    let _ = say(error, PROGRAM, source.sentence());
    Some(Status::WriteFault.code())
}

/// Tells on standard error where the layout of a mended description is not that of the description.
pub fn say_layout<W: Write>(error: &mut W, layout: Option<Layout>) {
    if layout == Some(Layout::Printed) {
        let _ = say(
            error,
            PROGRAM,
            "the mended description has the layout of pgv print",
        );
    }
}

/// Puts what is told of the machine that is asked for, as text, and saves the mended description where that is asked for.
fn carry<F: Shelf, S: Sink, W: StopWatcher + WordsWatcher>(
    alloc: Global,
    request: &Request<'_>,
    shelf: &mut F,
    out: &mut S,
    layout: &mut Option<Layout>,
    watcher: &mut W,
) -> Status
    ensures carries { (hw : Machinery) → Carries (explain_command (explain_words request.now)) (beside F.Shelf S.Sink hw shelf.old out.old)
        (beside F.Shelf S.Sink hw shelf.new out.new) result }
    ensures files { SavesOnly (explain_words request.now).mend (F.files shelf.old) (F.files shelf.new) }
    ensures reads { F.reads shelf.old ≤ F.reads shelf.new }
    ensures saves { F.saves shelf.old ≤ F.saves shelf.new }
    ensures later { S.faults out.old ≤ S.faults out.new }
{
    match find(alloc, request, shelf, layout) {
        Ok(found) => put_found(&found, out),
        Err(halt) => halted(&halt, out, watcher),
    }
}

/// Puts what is told, and answers with the status of the verdict.
fn put_found<S: Sink>(found: &Found, out: &mut S) -> Status
    ensures told { PutAs found.now.told.text.items (verdict_status (verdict_on (judged found.now.judged)))
        (output S.Sink out.old) (output S.Sink out.new) result (class_of result) }
    ensures later { S.faults out.old ≤ S.faults out.new }
{
    stated(
        out.put(found.told.text.as_slice()),
        status_of(found.judged.report.verdict()),
    )
}

/// Says why nothing is told, where that has a line, and answers with which status.
fn halted<S: Sink, W: StopWatcher + WordsWatcher>(
    halt: &Halt,
    out: &mut S,
    watcher: &mut W,
) -> Status
    ensures told { HaltTold halt.now (output S.Sink out.old) (output S.Sink out.new) result }
    ensures later { S.faults out.old ≤ S.faults out.new }
{
    match halt {
        Halt::Stopped(stop) => stopped(stop, out, watcher),
        Halt::Lacking => {
            watcher.lacks(Lacking::Instr);
            stated(put_text(out, USAGE), Status::Words)
        }
        Halt::Unsaved => Status::WriteFault,
    }
}

/// A status, or that of output where its text could not be put.
fn stated(put: Result<(), Failed>, due: Status) -> Status
    ensures { result ≡ stated_as put due }
{
    match put {
        Ok(()) => due,
        Err(Failed) => Status::WriteFault,
    }
}

/// The same as JSON; why nothing is told is said as beside the text.
fn carry_json<F: Shelf, S: Sink, W: StopWatcher + WordsWatcher>(
    alloc: Global,
    request: &Request<'_>,
    shelf: &mut F,
    out: &mut S,
    layout: &mut Option<Layout>,
    watcher: &mut W,
) -> u8
    ensures files { SavesOnly (explain_words request.now).mend (F.files shelf.old) (F.files shelf.new) }
    ensures leaves { (hw : Machinery) → JsonLeaves (explain_words request.now) (beside F.Shelf S.Sink hw shelf.old out.old)
        (beside F.Shelf S.Sink hw shelf.new out.new) result }
{
    match find(alloc, request, shelf, layout) {
        Ok(found) => put_found_json(alloc, request, &found, shelf, out, watcher),
        Err(halt) => halted(&halt, out, watcher).code(),
    }
}

/// Puts what is told as JSON, and answers with the status of the verdict; else puts a line, and answers with another status.
fn put_found_json<F: Shelf, S: Sink, W: StopWatcher + WordsWatcher>(
    alloc: Global,
    request: &Request<'_>,
    found: &Found,
    shelf: &mut F,
    out: &mut S,
    watcher: &mut W,
) -> u8
    ensures told { result < 3 → result ≡ code_of (verdict_status (verdict_on (judged found.now.judged))) }
    ensures reads { OnlyReads F.Shelf shelf.old shelf.new }
{
    match put_json(alloc, request, &found.judged, &found.told, shelf, out) {
        Ok(()) => status_of(found.judged.report.verdict()).code(),
        Err(stop) => ended(alloc, USAGE, Err(stop), out, watcher),
    }
}
