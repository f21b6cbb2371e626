//! Why a program goes no further: the line that tells it, and the status. Those of files are those of `pgv`.

ghost use Rattle.std.specs.Prelude.{◌≡◌, ◌≤◌, IfOk, OnErr};

use crate::fault::ProofFault;
use pg_cli_says::{Lacking, WordsWatcher};
use pg_cmd_base::{StopWatcher, stopped};
use pg_edge::{Failed, Sink};
use pg_report::put_text;
use pg_sat_foreign::{ForeignFault, RupFault};
use std::alloc::{AllocError, Global};

/// Why a program goes no further.
#[derive(Drop)]
pub enum Stop {
    /// The words are none that the program takes.
    Words,
    /// They name an instruction that the description has not, or a kind that the certificate has not.
    Lacking(Lacking),
    /// The words ask for a log that the certificate has not: two states show the kind.
    Shown,
    /// The same: the question is open.
    Open,
    /// A file is not there, is not read or is refused, as `pgv` tells it.
    Told(pg_cmd_base::Stop),
    /// What another solver wrote is refused.
    Proof(ProofFault),
    /// Memory was refused.
    Memory,
    /// A text could not be put or saved.
    Output,
}

impl From<AllocError> for Stop {
    fn from(_error: AllocError) -> Stop {
        Stop::Memory
    }
}

impl From<ForeignFault> for Stop {
    fn from(fault: ForeignFault) -> Stop {
        match fault {
            ForeignFault::Memory => Stop::Memory,
            other => Stop::Proof(ProofFault::Form(other)),
        }
    }
}

impl From<RupFault> for Stop {
    fn from(fault: RupFault) -> Stop {
        match fault {
            RupFault::Memory => Stop::Memory,
            other => Stop::Proof(ProofFault::Rup(other)),
        }
    }
}

/// The status that a program ends with: its own, or that of why it goes no further, which is told, and is 3 or more. `usage` is the
/// line for words that are not taken. The watcher is told of a stop of `pgv`'s, and of what words name that is not there.
pub fn ended<S: Sink, W: StopWatcher + WordsWatcher>(
    alloc: Global,
    usage: &[u8],
    answer: Result<u8, Stop>,
    out: &mut S,
    watcher: &mut W,
) -> u8
    ensures done { IfOk answer (λ status. result ≡ status) }
    ensures stopped { OnErr answer (3 ≤ result) }
{
    match answer {
        Ok(status) => status,
        Err(stop) => stop.tell(alloc, usage, out, watcher),
    }
}

impl Stop {
    /// Puts the line of the stop, where it has one, and gives the status: 3 for words, 6 for a refused proof, 10 for memory, 9 for
    /// output, and that of `pgv verify` for files; 9 too where the line could not be put.
    ///
    /// A finding without a log has 3 as well: the certificate is right, and the words ask for what it does not have, as those do
    /// that name no instruction.
    fn tell<S: Sink, W: StopWatcher + WordsWatcher>(
        &self,
        alloc: Global,
        usage: &[u8],
        out: &mut S,
        watcher: &mut W,
    ) -> u8
        ensures { 3 ≤ result }
    {
        match self {
            Stop::Words => status(put_text(out, usage), 3),
            Stop::Lacking(lacking) => {
                watcher.lacks(*lacking);
                status(put_text(out, usage), 3)
            }
            Stop::Shown => status(put_text(out, b"no log: the finding is shown\n"), 3),
            Stop::Open => status(put_text(out, b"no log: the finding is spent\n"), 3),
            Stop::Told(stop) => stopped(stop, out, watcher).code(),
            Stop::Proof(fault) => match fault.line(alloc) {
                Ok(line) => status(put_text(out, line.as_bytes()), 6),
                Err(AllocError) => 10,
            },
            Stop::Memory => 10,
            Stop::Output => 9,
        }
    }
}

/// A status, or 9 where its line could not be put.
fn status(put: Result<(), Failed>, due: u8) -> u8
    ensures { 3 ≤ due → 3 ≤ result }
{
    match put {
        Ok(()) => due,
        Err(Failed) => 9,
    }
}
