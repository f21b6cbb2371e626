//! The program: real files and standard output below, and the command line above.
//!
//! All that the program means stands in the crates below, over the traits `Shelf`, `Sink` and `Hardware`. Here their real
//! forms are made, of `pg_io_host` and `pg_rig`, and lent to `tool_watched`. Where there is no memory for the words, it is not
//! called, and the program ends with the same status, 10, as it does where the call has none.
//!
//! What standard error says is of `pg_cli_says` and `pg_cli_watch`, but for what is wrong with the words (`complaining`): why the
//! program ends so, where a refused file is at fault, which question is next, what is to be done, and a warning where the
//! certificate could not be saved. What the words name for that stands in `naming`.
#![tactic(auto)]

mod complaining;
mod naming;

use complaining::say_complaint;
use naming::named_by;
use pg_cli_parse::request;
use pg_cli_says::{Program, say_no_text, say_why, words};
use pg_cli_watch::{Beside, Ended, Holding, LastRead, Lines, Reading, Seen, Ticker, Watching};
use pg_io_host::{DirShelf, Progress, StdSink};
use pg_rig::Rig;
use pg_tool::{Status, tool_watched};
use std::cell::RefCell;
use std::io::IsTerminal;
use std::process::ExitCode;

/// Runs the command that the words ask for on real files, standard output and a hardware in memory, and ends with the
/// number of its status.
fn main(rt: HostRuntime) -> ExitCode {
    match words(&rt) {
        Ok(words) => ExitCode::from(run(&rt, &words).code()),
        Err(_) => {
            say_why(&mut rt.stderr(), Program::Pgv, Status::Memory, None, None);
            ExitCode::from(Status::Memory.code())
        }
    }
}

/// Runs the command that the words ask for, and says on standard error what is to be said.
fn run(rt: &HostRuntime, words: &[String]) -> Status {
    let is_terminal = rt.stderr().is_terminal();
    let line = RefCell::new(Progress::new(rt.stderr(), is_terminal));
    let lines = Lines {
        program: Program::Pgv,
        line: &line,
        is_terminal,
        error: rt.stderr(),
    };
    let ticker = RefCell::new(Ticker::new(rt.alloc(), rt, lines));
    let held = RefCell::new(LastRead::new(rt.alloc()));
    let files = Reading::new(DirShelf::new(rt), &ticker);
    let mut shelf = Holding::new(rt.alloc(), files, &held);
    let mut out = StdSink::new(Beside::new(rt.stdout(), &line));
    let mut hw = Rig::new(rt.alloc());
    let seen = Seen {
        files: rt,
        ticker: &ticker,
        held: &held,
    };
    let asked = request(rt.alloc(), words).ok();
    let errors = (rt.stderr(), rt.stderr());
    let named = named_by(asked.as_ref());
    let mut watching = Watching::new(rt.alloc(), seen, errors, Program::Pgv, named);
    let status = tool_watched(
        rt.alloc(),
        words,
        &mut shelf,
        &mut out,
        &mut hw,
        &mut watching,
    );
    watching.ends(&Ended {
        status,
        output: out.writer().failed().filter(|_| out.faults() > 0),
        refused: shelf.shelf().shelf().refused(),
        last: out.writer().last(),
        saved: shelf.saved(),
    });
    if status == Status::Words {
        complain(rt, words);
    }
    status
}

/// Says what is wrong with words that are not taken.
fn complain(rt: &HostRuntime, words: &[String]) {
    if words.is_empty() {
        say_no_text(rt, &mut rt.stderr(), Program::Pgv);
    } else {
        say_complaint(rt.alloc(), &mut rt.stderr(), words);
    }
}
