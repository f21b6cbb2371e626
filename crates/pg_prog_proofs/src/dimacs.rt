//! Writes the clauses of a question about an instruction, for people with a solver of their own.
//!
//!     pg_dimacs DESC INSTR KIND
//!
//! KIND is `privileged`, `control`, `mode`, `location`, `bound`, `ucontrol`, `ulocation` or `ubound`. What is written is a
//! formula in the format DIMACS CNF, which can be true exactly where two states show the kind of the instruction (`pg_prog_base`).
//! Words that are not taken, or name no instruction of the description, are answered by the usage (3). The other refusals have the
//! lines and statuses of `pgv`. Where the status is 0 the clauses are written (*EndsDimacs*, `specs/Exported.antt`). The words are read
//! in `request`.

ghost use Rattle.std.specs.Prelude.{◌≡◌, ◌<◌, length, map, slice_get, string_bytes, Some, IfOk, OnOk};
ghost use Rattle.pg_ast.specs.declared.tree.Instr.{Instr as Instrs};
ghost use Rattle.pg_ask.specs.Question.{question};
ghost use Rattle.pg_prog_base.specs.Dimacs.{IsQuestionText};
ghost use Rattle.pg_cmd_base.specs.Answering.{OnlyReads};
ghost use Rattle.pg_prog_proofs.specs.Exported.{EndsDimacs, IsDimacs, IsOfMachine, PutsDimacs};

mod request;

use crate::dimacs::request::{Request, asked_by};
use pg_ask::ask;
use pg_cli_says::{Lacking, WordsWatcher};
use pg_cmd_base::StopWatcher;
use pg_edge::{Shelf, Sink};
use pg_mach_ready::Machine;
use pg_prog_base::files::{file_name, find, machine, put};
use pg_prog_base::{Stop, ended, text_of};
use std::alloc::{AllocError, Global};

/// How the program is called.
pub const USAGE: &[u8] = b"usage: pg_dimacs DESC INSTR KIND\n";

/// Puts the clauses of the question that the words ask for, the program's name first, and gives the status 0; else puts a line, and
/// gives another status.
pub fn run<F: Shelf, S: Sink, W: StopWatcher + WordsWatcher>(
    alloc: Global,
    words: &[String],
    shelf: &mut F,
    out: &mut S,
    watcher: &mut W,
) -> u8
    ensures done { result ≡ 0 → EndsDimacs (map string_bytes words.now) (F.files shelf.old) (S.written out.old) (S.written out.new) }
    ensures reads { OnlyReads F.Shelf shelf.old shelf.new }
{
    let Some(request) = asked_by(words) else {
        return ended(alloc, USAGE, Err(Stop::Words), out, watcher);
    };
    match show(alloc, &request, shelf, out) {
        Ok(()) => 0,
        Err(stop) => ended(alloc, USAGE, Err(stop), out, watcher),
    }
}

/// Puts the clauses of the question that is asked for.
fn show<F: Shelf, S: Sink>(
    alloc: Global,
    request: &Request<'_>,
    shelf: &mut F,
    out: &mut S,
) -> Result<(), Stop>
    ensures puts { OnOk result (PutsDimacs (F.files shelf.old) request.now (S.written out.old) (S.written out.new)) }
    ensures reads { OnlyReads F.Shelf shelf.old shelf.new }
{
    match load(alloc, shelf, request) {
        Ok(text) => put(out, text.as_slice()),
        Err(stop) => Err(stop),
    }
}

/// The question that is asked for, as text.
fn load<F: Shelf>(alloc: Global, shelf: &mut F, request: &Request<'_>) -> Result<Vec<u8>, Stop>
    ensures is_dimacs { IfOk result (λ text. IsDimacs (F.files shelf.old) request.now text.items) }
    ensures reads { OnlyReads F.Shelf shelf.old shelf.new }
{
    let name = file_name(alloc, request.names.file)?;
    match machine(alloc, shelf, &name) {
        Ok(machine) => written_of(alloc, &machine, request),
        Err(stop) => Err(stop),
    }
}

/// The same of a machine.
fn written_of(alloc: Global, machine: &Machine, request: &Request<'_>) -> Result<Vec<u8>, Stop>
    ensures { IfOk result (λ text. IsOfMachine machine.now.desc request.now text.items) }
{
    match find(machine, request.names.instr) {
        Some(instr) => Ok(written(alloc, machine, instr, request)?),
        None => Err(Stop::Lacking(Lacking::Instr)),
    }
}

/// The question of an instruction as text: lines of comment, and its clauses.
fn written(
    alloc: Global,
    machine: &Machine,
    instr: usize,
    request: &Request<'_>,
) -> Result<Vec<u8>, AllocError>
    requires { instr < length machine.now.desc.instrs }
    ensures { IfOk result (λ text. (i : Instrs) → slice_get machine.now.desc.instrs instr ≡ Some i → IsQuestionText (question machine.now.desc i request.now.kind) text.items) }
{
    let asked = ask(alloc, machine, instr, request.kind)?;
    text_of(alloc, &request.names, &asked)
}
