//! Counts what circuits hold: what `bench/run` shows of gates, and times.
//!
//!     pg_prog_gates [operations] [products] [bodies DESC]
//!
//! Each part is counted in its turn. `operations`: the nodes and clauses of three operations of 64 bits. `products`: those of a product
//! of products, of a million nodes. `bodies`: of each instruction of the description DESC, what two runs of its body over one storage
//! are as gates. The status is 0, or 1 with a line on standard error.
//!
//! - `operations`: circuits of operations. `bodies`: descriptions; `runs`: two runs as one circuit. `strings`: strings of gates.
//!
//! Nothing is asked of the circuits, and nothing that `pgv` does stands on this program.
#![tactic(auto)]

ghost use Rattle.std.specs.Prelude.{◌≤◌, length, IfOk};

mod bodies;
mod operations;
mod runs;
mod strings;

use crate::bodies::show_bodies;
use crate::operations::{show_operations, show_products};
use pg_lang_valid::TypeFault;
use pg_read::DescFault;
use std::alloc::AllocError;
use std::env;
use std::io::ErrorKind;
use std::process::ExitCode;
use thiserror::Error;

/// Why the counts are not written, or not all of them.
#[derive(Debug, Drop, Error)]
pub enum Fault {
    /// The words behind the program's name are others.
    #[error("usage: pg_prog_gates [operations] [products] [bodies DESC]")]
    Usage,
    /// No file has the name.
    #[error("no such file")]
    Missing,
    /// The file could not be read.
    #[error("the file could not be read")]
    Unread,
    /// The text is no description.
    #[error("{0}")]
    Text(DescFault),
    /// The description is not valid.
    #[error("{0}")]
    Invalid(TypeFault),
    /// Memory ran out.
    #[error("out of memory")]
    Memory,
    /// A line could not be written.
    #[error("standard output could not be written")]
    Output,
}

impl From<AllocError> for Fault {
    fn from(_error: AllocError) -> Fault {
        Fault::Memory
    }
}

/// Writes what the words ask for; else a line on standard error.
fn main(rt: HostRuntime) -> ExitCode {
    match show_all(&rt) {
        Ok(()) => ExitCode::from(0),
        Err(fault) => {
            let _ = eprintln!(rt; "pg_prog_gates: {fault}");
            ExitCode::from(1)
        }
    }
}

/// Writes what the words ask for.
fn show_all(rt: &HostRuntime) -> Result<(), Fault> {
    let words: Vec<String> = match env::args(rt) {
        Ok(args) => args.collect(rt.alloc())?,
        Err(error) if error.kind() == ErrorKind::OutOfMemory => return Err(Fault::Memory),
        Err(_) => return Err(Fault::Usage),
    };
    match words.as_slice() {
        [_, parts @ ..] if !parts.is_empty() => show_parts(rt, parts),
        _ => Err(Fault::Usage),
    }
}

/// Writes the counts of each part.
fn show_parts(rt: &HostRuntime, parts: &[String]) -> Result<(), Fault> {
    let mut left = parts;
    while let [part, behind @ ..] = left {
        left = show_part(rt, part.as_str(), behind)?;
    }
    Ok(())
}

/// Writes the counts of a part, whose own words stand behind it; what is left of these.
fn show_part<'a>(rt: &HostRuntime, part: &str, behind: &'a [String]) -> Result<&'a [String], Fault>
    ensures { IfOk result (λ left. length left.now ≤ length behind.now) }
{
    match (part, behind) {
        ("operations", _) => {
            show_operations(rt)?;
            Ok(behind)
        }
        ("products", _) => {
            show_products(rt)?;
            Ok(behind)
        }
        ("bodies", [desc, behind @ ..]) => {
            show_bodies(rt, desc.as_str())?;
            Ok(behind)
        }
        _ => Err(Fault::Usage),
    }
}
