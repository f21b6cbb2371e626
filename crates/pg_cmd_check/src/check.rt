//! `check` and `hcheck`: each question of a description, with evidence for what is found, and the verdict of it.
//!
//! They differ in the family of kinds that is asked about alone: those of Theorem 1, or those of Theorem 3.
//!
//! The description is loaded, and its certificate is found and its text made whole: memory is refused before any of it is
//! saved. Then the text is saved, and after that the text of the verdict is put. No more memory is taken for either.

ghost use Rattle.std.specs.Prelude.{IfOk};
ghost use Rattle.pg_cmd_certs.specs.Checked.{IsChecked};
ghost use Rattle.pg_cmd_base.specs.Answering.{Comes, OnlyReads};
ghost use Rattle.pg_cmd_base.specs.Commands.{Carries};
ghost use Rattle.pg_cmd_base.specs.World.{Keeps, around};
ghost use Rattle.pg_cmd_check.specs.Check.{CheckDue, check_command};

use crate::saving::save_and_tell;
use pg_cert::Family;
use pg_classify::Watcher;
use pg_cli_table::CheckWords;
use pg_cmd_base::{Status, Stop, StopWatcher, load_machine, stopped};
use pg_cmd_certs::{VerdictWatcher, WrittenCert, checked};
use pg_edge::{Shelf, Sink};
use pg_hw::Hardware;
use std::alloc::Global;

/// Carries out `check`, or over the kinds of Theorem 3 `hcheck`. The hardware is lent, and stays as it is. The watcher is told
/// of each question, why the command stops, and of a verdict that could not be saved.
pub fn carry_check<F: Shelf, S: Sink, H: Hardware, W: Watcher + StopWatcher + VerdictWatcher>(
    alloc: Global,
    family: Family,
    words: &CheckWords,
    shelf: &mut F,
    out: &mut S,
    hw: &H,
    watcher: &mut W,
) -> Status
    ensures carries { Carries (check_command family words.now) (around F.Shelf S.Sink H.Hardware shelf.old out.old hw.now)
        (around F.Shelf S.Sink H.Hardware shelf.new out.new hw.now) result }
    ensures keeps { Keeps (check_command family words.now).saved (around F.Shelf S.Sink H.Hardware shelf.old out.old hw.now)
        (around F.Shelf S.Sink H.Hardware shelf.new out.new hw.now) }
{
    match prepare_check(alloc, family, words, shelf, watcher) {
        Ok(found) => save_and_tell(shelf, out, hw, &words.cert, &found, watcher),
        Err(stop) => stopped(&stop, out, watcher),
    }
}

/// The certificate that is to be saved, and whose verdict is to be put; or why there is none.
fn prepare_check<F: Shelf, W: Watcher>(
    alloc: Global,
    family: Family,
    words: &CheckWords,
    shelf: &mut F,
    watcher: &mut W,
) -> Result<WrittenCert, Stop>
    ensures comes { Comes (λ p. p.judged.machine.desc) (CheckDue words.now (F.files shelf.old)) (F.reads shelf.old)
        (F.reads shelf.new) result }
    ensures checked { IfOk result (λ p. IsChecked p.judged.machine.desc family words.now.budget p.text.items p.judged.report) }
    ensures reads { OnlyReads F.Shelf shelf.old shelf.new }
{
    let machine = match load_machine(alloc, &words.desc, shelf) {
        Ok(machine) => machine,
        Err(stop) => return Err(stop),
    };
    match checked(alloc, machine, family, words.budget.clauses(), watcher) {
        Ok(found) => Ok(found),
        Err(_) => Err(Stop::Memory),
    }
}
