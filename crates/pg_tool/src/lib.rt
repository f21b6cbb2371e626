//! The top call: a command, from its words to its status.
//!
//! `tool` reads the words and does what they ask for: it loads the files that they name, works on the hardware that it is
//! given, and puts the text of it into the sink that it is given. It makes no file, stream or hardware itself: what it is
//! given is seen through the traits `Shelf`, `Sink` and `Hardware` alone. The program `pgv` makes one call, `tool_watched`, which
//! tells a watcher besides of each question that is asked, how far long work has come, why a command stops, and of a verdict that could
//! not be saved.
//!
//! What a command is, and how its steps join, stands in `pg_cmd_base`; the commands stand in families, crates of their own
//! (`pg_cmd_plain`, `pg_cmd_plain`, `pg_cmd_check`, `pg_cmd_run`, `pg_cmd_run`, `pg_cmd_gen`, `pg_cmd_save`). Here a command
//! has one line in each of three places: the definition (`command_of`, `specs/Asking.antt`), `carry` below, and the proof that it
//! comes to one thing (`proofs/OnlyOne.antt`).
//!
//! - `laws`: what is due for told files is one thing. `silent`: a watcher that says nothing.
#![tactic(auto)]

ghost use Rattle.std.specs.Prelude.{◌≡◌, ◌≤◌, Some, map, string_bytes};
ghost use Rattle.pg_ast.specs.declared.tree.Desc.{Desc};
ghost use Rattle.pg_edge.specs.Shelf.{Files};
ghost use Rattle.pg_mon_control.specs.Counting.{CanCount};
ghost use Rattle.pg_cmd_base.specs.Able.{IsAble};
ghost use Rattle.pg_cmd_base.specs.Commands.{Carries, Exactly};
ghost use Rattle.pg_cmd_base.specs.World.{Keeps, SavesOnly, around};
ghost use Rattle.pg_tool.specs.Asking.{command_for, command_of, stop_of_words};
ghost use Rattle.pg_lang_valid.specs.Valid.{IsValid};

pub mod laws;
mod silent;

use pg_cert::Family;
pub use pg_cert_migrate::ReadWatcher;
pub use pg_classify::{SearchWatcher, Watcher};
use pg_cli_parse::request;
use pg_cli_table::{Fault, Request};
use pg_cmd_base::stopped;
pub use pg_cmd_base::{Refusal, Status, Stop, StopWatcher};
pub use pg_cmd_certs::{JudgedMachine, VerdictWatcher};
use pg_cmd_check::{carry_check, carry_migrate, carry_replay, carry_verify};
use pg_cmd_gen::carry_gen;
use pg_cmd_plain::{carry_asm, carry_bare, carry_disasm, carry_print};
use pg_cmd_run::{carry_hybrid, carry_nest, carry_run};
use pg_cmd_save::{carry_resume, carry_save};
use pg_edge::{Shelf, Sink};
use pg_hw::Hardware;
pub use pg_type::Kind;
pub use silent::Silent;
use std::alloc::Global;

/// Does what the words ask for, of which the first is the program's name.
///
/// The hardware has to serve every machine, with room for 1,048,575 cells, and each of its counts below 2^62. It is
/// untouched where the command is refused, a file could not be read or a certificate not be saved. Where memory is refused no
/// step was done, and it is untouched but in one case: where a run was due, it may have been set up for that run, its storage
/// and program status word made and cells poked (of `nest` no clause says how). Every file is left as it was, but one that the
/// words name to be saved.
pub fn tool<F: Shelf, S: Sink, H: Hardware>(
    alloc: Global,
    words: &[String],
    shelf: &mut F,
    out: &mut S,
    hw: &mut H,
) -> Status
    requires serves { (d : Desc) → IsValid d → H.serves (H.fixed hw.old) d }
    requires room { 1048575 ≤ H.room (H.fixed hw.old) }
    requires counts { CanCount (H.machinery hw.old).tally }
    // What is left of files, sink and hardware, by the status.
    ensures carries { Carries (command_for (map string_bytes words.now)) (around F.Shelf S.Sink H.Hardware shelf.old out.old hw.old)
        (around F.Shelf S.Sink H.Hardware shelf.new out.new hw.new) result }

    // Where the files are told: a refusal that is due comes, and where work is due none does, but for faults and memory.
    ensures exactly { (files : Files) → F.files shelf.old ≡ Some files → Exactly (command_for (map string_bytes words.now))
        (around F.Shelf S.Sink H.Hardware shelf.old out.old hw.old)
        (around F.Shelf S.Sink H.Hardware shelf.new out.new hw.new) result }

    // On every status.
    ensures files { SavesOnly (command_for (map string_bytes words.now)).saved (F.files shelf.old) (F.files shelf.new) }
    ensures reads { F.reads shelf.old ≤ F.reads shelf.new }
    ensures saves { F.saves shelf.old ≤ F.saves shelf.new }
    ensures faults { S.faults out.old ≤ S.faults out.new }
    ensures fixed { H.fixed hw.new ≡ H.fixed hw.old }
{
    tool_watched(alloc, words, shelf, out, hw, &mut Silent)
}

/// As [`tool`], with a watcher, who is told of each question while a description is classified, and how far its search has come; how
/// far a certificate has been verified that is made anew; why a command goes no further; and of a verdict whose certificate could not
/// be saved. It answers nothing.
pub fn tool_watched<
    F: Shelf,
    S: Sink,
    H: Hardware,
    W: Watcher + ReadWatcher + StopWatcher + VerdictWatcher,
>(
    alloc: Global,
    words: &[String],
    shelf: &mut F,
    out: &mut S,
    hw: &mut H,
    watcher: &mut W,
) -> Status
    requires serves { (d : Desc) → IsValid d → H.serves (H.fixed hw.old) d }
    requires room { 1048575 ≤ H.room (H.fixed hw.old) }
    requires counts { CanCount (H.machinery hw.old).tally }
    // What is left of files, sink and hardware, by the status.
    ensures carries { Carries (command_for (map string_bytes words.now)) (around F.Shelf S.Sink H.Hardware shelf.old out.old hw.old)
        (around F.Shelf S.Sink H.Hardware shelf.new out.new hw.new) result }

    // Where the files are told: a refusal that is due comes, and where work is due none does, but for faults and memory.
    ensures exactly { (files : Files) → F.files shelf.old ≡ Some files → Exactly (command_for (map string_bytes words.now))
        (around F.Shelf S.Sink H.Hardware shelf.old out.old hw.old)
        (around F.Shelf S.Sink H.Hardware shelf.new out.new hw.new) result }

    // On every status.
    ensures files { SavesOnly (command_for (map string_bytes words.now)).saved (F.files shelf.old) (F.files shelf.new) }
    ensures reads { F.reads shelf.old ≤ F.reads shelf.new }
    ensures saves { F.saves shelf.old ≤ F.saves shelf.new }
    ensures faults { S.faults out.old ≤ S.faults out.new }
    ensures fixed { H.fixed hw.new ≡ H.fixed hw.old }
{
    match request(alloc, words) {
        Ok(request) => carry(alloc, &request, shelf, out, hw, watcher),
        Err(fault) => stopped(&stop_of_words(fault), out, watcher),
    }
}

/// Carries out what was asked for.
fn carry<F: Shelf, S: Sink, H: Hardware, W: Watcher + ReadWatcher + StopWatcher + VerdictWatcher>(
    alloc: Global,
    request: &Request,
    shelf: &mut F,
    out: &mut S,
    hw: &mut H,
    watcher: &mut W,
) -> Status
    requires able { IsAble H.Hardware hw.old }
    ensures carries { Carries (command_of request.now) (around F.Shelf S.Sink H.Hardware shelf.old out.old hw.old)
        (around F.Shelf S.Sink H.Hardware shelf.new out.new hw.new) result }
    ensures keeps { Keeps (command_of request.now).saved (around F.Shelf S.Sink H.Hardware shelf.old out.old hw.old)
        (around F.Shelf S.Sink H.Hardware shelf.new out.new hw.new) }
    ensures fixed { H.fixed hw.new ≡ H.fixed hw.old }
{
    match request {
        Request::Bare(words) => carry_bare(alloc, words, shelf, out, hw, watcher),
        Request::Check(words) => carry_check(alloc, Family::Plain, words, shelf, out, hw, watcher),
        Request::Verify(words) => carry_verify(alloc, words, shelf, out, hw, watcher),
        Request::Replay(words) => carry_replay(alloc, words, shelf, out, hw, watcher),
        Request::Run(words) => carry_run(alloc, words, shelf, out, hw, watcher),
        Request::Print(words) => carry_print(alloc, words, shelf, out, hw, watcher),
        Request::Gen(words) => carry_gen(alloc, words, shelf, out, hw, watcher),
        Request::Migrate(words) => carry_migrate(alloc, words, shelf, out, hw, watcher),
        Request::Hcheck(words) => carry_check(
            alloc,
            Family::Hybrid,
            words,
            shelf,
            out,
            hw,
            watcher,
        ),
        Request::Hybrid(words) => carry_hybrid(alloc, words, shelf, out, hw, watcher),
        Request::Nest(words) => carry_nest(alloc, words, shelf, out, hw, watcher),
        Request::Asm(words) => carry_asm(alloc, words, shelf, out, hw, watcher),
        Request::Disasm(words) => carry_disasm(alloc, words, shelf, out, hw, watcher),
        Request::Save(words) => carry_save(alloc, words, shelf, out, hw, watcher),
        Request::Resume(words) => carry_resume(alloc, words, shelf, out, hw, watcher),
    }
}

/// Why a command goes no further of whose words nothing was made.
fn stop_of_words(fault: Fault) -> Stop
    ensures { result ≡ stop_of_words fault }
{
    match fault {
        Fault::Refused => Stop::Refused(Refusal::Words),
        Fault::Memory => Stop::Memory,
    }
}
