//! The programs beside `pgv`, in one: each is meant by its name.
//!
//!     pg_explain, pg_trace, pg_go, pg_dimacs, pg_solve, pg_import, pg_export WORDS..
//!     pg_side NAME WORDS..
//!
//! The name that is called says which one is meant, where its last part, behind every `/`, is one of the seven; else the first
//! word does. Where neither does, a line on standard error names the seven, and the status is 3. `--help` and `--version` as the first
//! word behind the name are answered on standard output.
//!
//! Here it is found which program is meant (`words`), and that one is called. `side` has the programs and their names, `form` and
//! `table` how each takes its words, `complaining` what is wrong with words that are not taken. Why a machine is refused is in `pg_prog_explain`, what each step of a run does in `pg_prog_trace`, runs that end in `pg_prog_go`, and what is
//! for other solvers and checkers, or from them, in `pg_prog_proofs`.
//!
//! A program beside these is a variant of `Side` and a `run` of its own. Nothing that `pgv` does stands on any of them.
#![tactic(auto)]

mod complaining;
mod form;
mod side;
mod table;
mod words;

use crate::complaining::complaint;
use crate::side::{Call, Side};
use crate::table::named_by;
use crate::words::{Asked, asks_for, called, own};
use pg_cli_says::{WordsWatcher, say_no_text, say_why, words};
use pg_cli_version::VERSION;
use pg_cli_watch::{Beside, Ended, Holding, LastRead, Lines, Reading, Seen, Ticker, Watching};
use pg_cmd_base::{Status, StopWatcher};
use pg_edge::{Failed, Shelf, Sink};
use pg_io_host::streams::write_whole;
use pg_io_host::{DirShelf, Progress, StdSink};
use pg_prog_proofs::{dimacs, export, import, solve};
use pg_report::put_text;
use pg_rig::Rig;
use pg_run_guests::RunWatcher;
use std::cell::RefCell;
use std::io::IsTerminal;
use std::process::ExitCode;

/// Runs the program that is meant, and ends with its status.
fn main(rt: HostRuntime) -> ExitCode {
    match called(&rt) {
        Some(call) => ExitCode::from(run(&rt, call)),
        None => {
            let _ = eprintln!(rt;
                "usage: pg_side pg_explain|pg_trace|pg_go|pg_dimacs|pg_solve|pg_import|pg_export WORDS.."
            );
            ExitCode::from(3)
        }
    }
}

/// Runs a program on the words of the command line, and gives its status.
fn run(rt: &HostRuntime, call: Call) -> u8 {
    match words(rt) {
        Ok(words) => answer(rt, call.side, own(call, words.as_slice())),
        Err(_) => starved(rt, call.side),
    }
}

/// The status of a program for whose words there is no memory.
fn starved(rt: &HostRuntime, side: Side) -> u8 {
    match side {
        Side::Solve => solve::starved(rt),
        Side::Explain | Side::Trace | Side::Go | Side::Dimacs | Side::Import | Side::Export => {
            say_why(&mut rt.stderr(), side.program(), Status::Memory, None, None);
            Status::Memory.code()
        }
    }
}

/// Tells how a program is called, or its version, where its own words ask for that, with status 0, or 9 where it could not be
/// put; else runs it on them.
fn answer(rt: &HostRuntime, side: Side, words: &[String]) -> u8 {
    let told = match asks_for(words) {
        Some(Asked::Help) => usage(side),
        Some(Asked::Version) => VERSION,
        None => return run_on(rt, side, words),
    };
    let line = RefCell::new(Progress::new(rt.stderr(), false));
    let mut out = StdSink::new(Beside::new(rt.stdout(), &line));
    match put_text(&mut out, told) {
        Ok(()) => 0,
        Err(Failed) => {
            let failed = out.writer().failed();
            say_why(
                &mut rt.stderr(),
                side.program(),
                Status::WriteFault,
                failed,
                None,
            );
            Status::WriteFault.code()
        }
    }
}

/// How a program is called.
fn usage(side: Side) -> &'static [u8] {
    match side {
        Side::Explain => pg_prog_explain::USAGE,
        Side::Trace => pg_prog_trace::USAGE,
        Side::Go => pg_prog_go::USAGE,
        Side::Dimacs => dimacs::USAGE,
        Side::Solve => solve::USAGE,
        Side::Import => import::USAGE,
        Side::Export => export::USAGE,
    }
}

/// Runs a program on its own words, its name first, and says on standard error what is to be said.
fn run_on(rt: &HostRuntime, side: Side, words: &[String]) -> u8 {
    if words.is_empty() {
        say_no_text(rt, &mut rt.stderr(), side.program());
    }
    let status = match unwatched(rt, side, words) {
        Some(status) => status,
        None => run_watched(rt, side, words),
    };
    if status == Status::Words.code() {
        say_complaint(rt, side, words);
    }
    status
}

/// The status of a program that needs no watcher: one that reads no description, and one whose words would have it write over what it
/// reads. None of any other.
fn unwatched(rt: &HostRuntime, side: Side, words: &[String]) -> Option<u8> {
    match side {
        Side::Solve => Some(solve::run(rt, words)),
        Side::Explain => pg_prog_explain::refused(rt, &mut rt.stderr(), words),
        Side::Trace | Side::Go | Side::Dimacs | Side::Import | Side::Export => None,
    }
}

/// Runs a program on its own words: on real files and standard output, and on a hardware in memory.
fn run_watched(rt: &HostRuntime, side: Side, words: &[String]) -> u8 {
    let alloc = rt.alloc();
    let is_terminal = rt.stderr().is_terminal();
    let line = RefCell::new(Progress::new(rt.stderr(), is_terminal));
    let lines = Lines {
        program: side.program(),
        line: &line,
        is_terminal,
        error: rt.stderr(),
    };
    let ticker = RefCell::new(Ticker::new(alloc, rt, lines));
    let held = RefCell::new(LastRead::new(alloc));
    let files = Reading::new(DirShelf::new(rt), &ticker);
    let mut shelf = Holding::new(alloc, files, &held);
    let mut out = StdSink::new(Beside::new(rt.stdout(), &line));
    let seen = Seen {
        files: rt,
        ticker: &ticker,
        held: &held,
    };
    let named = named_by(side, words);
    let mut watching = Watching::new(
        alloc,
        seen,
        (rt.stderr(), rt.stderr()),
        side.program(),
        named,
    );
    let status = carry(rt, side, words, &mut shelf, &mut out, &mut watching);
    watching.ends(&Ended {
        status: told_status(status),
        output: out.writer().failed().filter(|_| out.faults() > 0),
        refused: shelf.shelf().shelf().refused(),
        last: out.writer().last(),
        saved: shelf.saved(),
    });
    status
}

/// Carries out a program: files are of the shelf, its text goes to the sink, and the hardware is one in memory.
fn carry<F: Shelf, S: Sink, W: StopWatcher + WordsWatcher + RunWatcher>(
    rt: &HostRuntime,
    side: Side,
    words: &[String],
    shelf: &mut F,
    out: &mut S,
    watcher: &mut W,
) -> u8 {
    let alloc = rt.alloc();
    match side {
        Side::Explain => {
            let mut layout = None;
            let status = pg_prog_explain::run(alloc, words, shelf, out, &mut layout, watcher);
            pg_prog_explain::say_layout(&mut rt.stderr(), layout);
            status
        }
        Side::Trace => {
            let mut hw = Rig::new(alloc);
            pg_prog_trace::run(alloc, words, shelf, out, &mut hw, watcher)
        }
        Side::Go => {
            let mut hw = Rig::new(alloc);
            pg_prog_go::run(alloc, words, shelf, out, &mut hw, watcher)
        }
        Side::Dimacs => dimacs::run(alloc, words, shelf, out, watcher),
        Side::Solve => solve::run(rt, words),
        Side::Import => import::run(alloc, words, shelf, out, watcher),
        Side::Export => export::run(alloc, words, shelf, out, watcher),
    }
}

/// Says what is wrong with words that are not taken.
fn say_complaint(rt: &HostRuntime, side: Side, words: &[String]) {
    if let Ok(Some(line)) = complaint(rt.alloc(), side, words) {
        let _ = write_whole(&mut rt.stderr(), line.as_slice());
    }
}

/// The status of a program as that of `pgv`, where it is one of which standard error says something; else that of a program that is
/// done.
fn told_status(status: u8) -> Status {
    match status {
        1 => Status::Refused,
        2 => Status::Unsettled,
        8 => Status::ReadFault,
        9 => Status::WriteFault,
        10 => Status::Memory,
        11 => Status::Missing,
        _ => Status::Done,
    }
}
