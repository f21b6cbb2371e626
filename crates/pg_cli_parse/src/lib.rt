//! The command line of the program, read by `clap`.
//!
//! [`request`] says what the words of a command line ask for, as a [`Request`] with one variant a command.
//! Which words it takes is said by a description of the line alone, its commands and their arguments, under
//! the rules of `clap`: how options and values are written, in which order, how often, and which numbers
//! they may be. One refusal is added to those rules, that of more than 8 images after `run`, and nothing is taken away. The
//! line has no word for help or for a version, so a user who asks for either is refused like one who mistypes a command.
//!
//! A request is handed out only where the line takes the words and names no more images than may be, and a refusal only
//! where it does not. That a line which was taken has each argument that has to be there, one image at least, and numbers
//! within their bounds, is proved of `clap`'s rules and not tested again, so the only other answer is that there was no
//! memory.
//!
//! The line is built of the table of commands (`pg_cli_table`): a row of it is a command of the line, and each of its arguments a
//! rule. What its arguments ask for is a small module a command here, as `print`. A command more is such a module in the code
//! and in the definitions, each named in its list of modules; and a line in each place where commands are told apart: `asked_of`
//! (`entered.rt`, `specs/Asked.antt`), and two laws (`named_by` of `proofs/LineLaws.antt`, `all_ask` of `proofs/AskLaws.antt`).
//!
//! # Modules
//!
//! - `line`: the whole line. `entered`: the command that was named, and what it asks for.
//! - `bare`, `check`, `verify`, `replay`, `run`, `print`, `generating` (the command `gen`), `migrate`, `hcheck`, `hybrid`, `nest`,
//!   `asm`, `disasm`, `save`, `resume`: what each command asks for. `running`: what the arguments of commands that run images give.
//! - `arguments`: how `clap` is told of an argument, and how its value is read. `complaining`: what is wrong with a line, in words.
#![tactic(auto)]

ghost use Rattle.std.specs.Prelude.{◌≡◌, ◌≢◌, ◌↔◌, ◌⊎◌, IfOk, IsErrOf, Some, None, [], map, string_bytes};
ghost use Rattle.clap.specs.Faults.{fault_of};
ghost use Rattle.clap.specs.declared.error.kind.ErrorKind.TheVariants.{OutOfMemory};
ghost use Rattle.pg_cli_parse.specs.Asked.{NamesTooManyImages, request_of};
ghost use Rattle.pg_cli_parse.specs.Line.{line};
ghost use Rattle.pg_cli_table.specs.declared.ask.Fault.TheVariants.{Memory, Refused};

mod arguments;
mod asm;
mod bare;
mod check;
mod complaining;
mod disasm;
mod entered;
mod generating;
mod hcheck;
mod hybrid;
mod line;
mod migrate;
mod nest;
mod print;
mod replay;
mod resume;
mod run;
mod running;
mod save;
mod verify;

use clap::error::ErrorKind;
pub use complaining::complaint;
use entered::asked;
use line::command_line;
pub use pg_cli_table::{
    AsmWords, BareWords, Budget, CheckWords, Count, Depth, DisasmWords, Fault, FileName, GenWords,
    Grant, Images, MigrateWords, NestWords, PrintWords, ReplayWords, Request, ResumeWords,
    RunWords, SaveWords, Skip, Slice, Steps, VerifyWords,
};
use std::alloc::Global;

/// What the words ask for, of which the first is the program's name.
///
/// # Errors
/// `Refused` where the command line takes no such words, or a command that runs images is named with more than 8, and `Memory` where there
/// is no memory to read them.
pub fn request(alloc: Global, words: &[String]) -> Result<Request, Fault>
    ensures ok { IfOk result (λ r. request_of (map string_bytes words.now) ≡ Some r) }
    ensures refused { IsErrOf result Refused → request_of (map string_bytes words.now) ≡ None }
    // nothing is asked for exactly where the rules of `clap` refuse the line, or a command that runs images is named with more
    // than 8
    ensures faults { (request_of (map string_bytes words.now) ≡ None)
        ↔ ((fault_of line (map string_bytes words.now) ≢ []) ⊎ NamesTooManyImages (map string_bytes words.now)) }
{
    let command = match command_line(alloc) {
        Ok(command) => command,
        Err(_) => return Err(Fault::Memory),
    };
    let matches = match command.try_get_matches_from(words) {
        Ok(matches) => matches,
        Err(error) => return Err(cause(error.kind())),
    };
    match asked(alloc, &matches) {
        Ok(Some(request)) => Ok(request),
        Ok(None) => Err(Fault::Refused),
        Err(_) => Err(Fault::Memory),
    }
}

/// Why there is no request, where a parse failed in this way.
fn cause(kind: ErrorKind) -> Fault
    ensures memory { kind ≡ OutOfMemory → result ≡ Memory }
    ensures refused { kind ≢ OutOfMemory → result ≡ Refused }
{
    match kind {
        ErrorKind::OutOfMemory => Fault::Memory,
        _ => Fault::Refused,
    }
}
