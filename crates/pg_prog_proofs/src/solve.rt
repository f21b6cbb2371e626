//! Solves a formula of a file in the format DIMACS CNF, and checks the log of its steps where that is asked.
//!
//!     pg_solve FILE [BUDGET] [--check]
//!
//! `pg_sat_search` solves: each of its two searches learns at most BUDGET clauses, beside the empty one; the checker of `pg_proof` takes
//! the log. What is written is what solvers write, so that this one can be run beside others.
//!
//! Why there is no answer is said on standard error.
//!
//! - `request`: the words. `formula`: the file. `log`: the log, handed to the checker.

mod formula;
mod log;
mod request;

use crate::solve::formula::{DimacsFault, read};
use crate::solve::log::is_taken;
use crate::solve::request::{Request, asked_by};
use pg_cli_says::Program;
use pg_cnf::Cnf;
use pg_io_host::telling::tell_refused;
use pg_io_host::{Cause, Deed, Refused};
use pg_proof::Step;
use pg_sat::{Answer, Counts};
use pg_sat_search::solve_counted;
use std::alloc::{AllocError, Global};
use std::fmt::Write;
use std::fs;
use std::io::ErrorKind;
use thiserror::Error;

/// How the program is called.
pub const USAGE: &[u8] = b"usage: pg_solve FILE [BUDGET] [--check]\n";

/// Why there is no answer, or not all of it is written.
#[derive(Debug, Drop, Error)]
enum Fault {
    /// The words behind the program's name are others.
    #[error("usage: pg_solve FILE [BUDGET] [--check]")]
    Usage,
    /// No file has the name.
    #[error("no such file")]
    Missing,
    /// The file could not be read.
    #[error("the file could not be read")]
    Unread(ErrorKind),
    /// The file is not UTF-8.
    #[error("the file is no text")]
    NoText,
    /// The text is no formula.
    #[error("{0}")]
    Text(DimacsFault),
    /// The log is not closed.
    #[error("the log is refused")]
    Refused,
    /// Memory ran out.
    #[error("out of memory")]
    Memory,
    /// A line could not be written.
    #[error("standard output could not be written")]
    Output(ErrorKind),
}

impl From<AllocError> for Fault {
    fn from(_error: AllocError) -> Fault {
        Fault::Memory
    }
}

impl From<DimacsFault> for Fault {
    fn from(fault: DimacsFault) -> Fault {
        match fault {
            DimacsFault::Memory => Fault::Memory,
            other => Fault::Text(other),
        }
    }
}

/// Writes the answer, and gives the status 10 where the formula can be true, 20 where it cannot, and 0 where the budget was too
/// small to know; else 1, and a line on standard error. The program's name is the first word.
pub fn run(rt: &HostRuntime, words: &[String]) -> u8 {
    match asked_by(words) {
        Some(asked) => told(rt, asked.file, solve(rt, &asked)),
        None => told(rt, "", Err(Fault::Usage)),
    }
}

/// The status of the program where there is no memory for its words.
pub fn starved(rt: &HostRuntime) -> u8 {
    told(rt, "", Err(Fault::Memory))
}

/// The status, or 1 and a line on standard error, where the file of this name was asked for.
fn told(rt: &HostRuntime, file: &str, answer: Result<u8, Fault>) -> u8 {
    match answer {
        Ok(status) => return status,
        Err(Fault::Missing) => say_refused(rt, Deed::Read, Cause::Missing, file),
        Err(Fault::Unread(kind)) => say_refused(rt, Deed::Read, Cause::System(kind), file),
        Err(Fault::Output(ErrorKind::BrokenPipe)) => {}
        Err(Fault::Output(kind)) => {
            say_refused(rt, Deed::Save, Cause::System(kind), "standard output")
        }
        Err(fault) => {
            let _ = eprintln!(rt; "pg_solve: {fault}");
        }
    }
    1
}

/// Says what was not done, and why, as `pgv` says it.
fn say_refused(rt: &HostRuntime, deed: Deed, cause: Cause, name: &str) {
    let refused = Refused::new(deed, cause, name);
    let _ = tell_refused(&mut rt.stderr(), Program::Solve.name(), &refused);
}

/// Solves the formula of the file that the words name, writes the answer, and gives the status.
fn solve(rt: &HostRuntime, asked: &Request<'_>) -> Result<u8, Fault> {
    let cnf = load(rt, asked.file)?;
    answer(rt, &cnf, asked)
}

/// The formula of a file.
fn load(rt: &HostRuntime, file: &str) -> Result<Cnf, Fault> {
    let text = match fs::read_to_string(rt, file) {
        Ok(text) => text,
        Err(error) if error.kind() == ErrorKind::NotFound => return Err(Fault::Missing),
        Err(error) if error.kind() == ErrorKind::OutOfMemory => return Err(Fault::Memory),
        Err(error) if error.kind() == ErrorKind::InvalidData => return Err(Fault::NoText),
        Err(error) => return Err(Fault::Unread(error.kind())),
    };
    match read(rt.alloc(), text.as_str()) {
        Ok(cnf) => Ok(cnf),
        Err(fault) => Err(Fault::from(fault)),
    }
}

/// Solves a formula, writes the answer, and gives the status.
fn answer(rt: &HostRuntime, cnf: &Cnf, asked: &Request<'_>) -> Result<u8, Fault> {
    let (answer, counts) = solve_counted(rt.alloc(), cnf, asked.budget)?;
    show_counts(rt, counts)?;
    match answer {
        Answer::Sat(assignment) => {
            show(rt, "s SATISFIABLE")?;
            show(rt, values(rt.alloc(), assignment.as_slice())?.as_str())?;
            Ok(10)
        }
        Answer::Unsat(steps) => {
            check(rt, cnf, steps.as_slice(), asked, true)?;
            show(rt, "s UNSATISFIABLE")?;
            Ok(20)
        }
        Answer::Spent(steps) => {
            check(rt, cnf, steps.as_slice(), asked, false)?;
            show(rt, "s UNKNOWN")?;
            Ok(0)
        }
    }
}

/// Writes what the search took.
fn show_counts(rt: &HostRuntime, counts: Counts) -> Result<(), Fault> {
    println!(rt;
        "c conflicts {} propagations {}",
        counts.conflicts, counts.set
    )
    .map_err(|error| Fault::Output(error.kind()))
}

/// Lets a checker take the steps, where that is asked: it has to take all, and to be closed or not by them.
fn check(
    rt: &HostRuntime,
    cnf: &Cnf,
    steps: &[Step],
    asked: &Request<'_>,
    closed: bool,
) -> Result<(), Fault> {
    if !asked.check {
        return Ok(());
    }
    if is_taken(rt.alloc(), cnf, steps, closed)? {
        show(rt, "c checked")
    } else {
        Err(Fault::Refused)
    }
}

/// The lines of an assignment: a literal for each variable, and a 0 at the end.
fn values(alloc: Global, assignment: &[bool]) -> Result<String, Fault> {
    let mut text = String::from_str(alloc, "v")?;
    let mut variable = 0u64;
    for &value in assignment {
        variable = variable.saturating_add(1);
        let sign = if value { "" } else { "-" };
        write!(text, " {sign}{variable}").map_err(|_| Fault::Memory)?;
        if variable % 10 == 0 {
            write!(text, "\nv").map_err(|_| Fault::Memory)?;
        }
    }
    write!(text, " 0").map_err(|_| Fault::Memory)?;
    Ok(text)
}

/// Writes a line.
fn show(rt: &HostRuntime, line: &str) -> Result<(), Fault> {
    println!(rt; "{line}").map_err(|error| Fault::Output(error.kind()))
}
