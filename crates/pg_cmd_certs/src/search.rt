//! A certificate is found for a machine, and its text made whole.

ghost use Rattle.std.specs.Prelude.{◌≡◌, ◌≤◌, IfOk};
ghost use Rattle.pg_cmd_certs.specs.Checked.{IsChecked};

use crate::JudgedMachine;
use crate::written::WrittenCert;
use pg_cert::{Family, report_of, write};
use pg_classify::{Watcher, classify_watched};
use pg_mach_ready::Machine;
use std::alloc::{AllocError, Global};

/// A certificate of a machine, found within a budget from 1 to 1,000,000: its text, and what is kept of it.
///
/// # Errors
/// Only for lack of memory.
pub fn checked<W: Watcher>(
    alloc: Global,
    machine: Machine,
    family: Family,
    budget: u32,
    watcher: &mut W,
) -> Result<WrittenCert, AllocError>
    requires least { 1 ≤ budget }
    requires most { budget ≤ 1000000 }
    ensures machine { IfOk result (λ p. p.judged.machine.desc ≡ machine.desc) }
    ensures checked { IfOk result (λ p. IsChecked p.judged.machine.desc family budget p.text.items p.judged.report) }
{
    let cert = classify_watched(alloc, &machine, family, budget, watcher)?;
    let report = report_of(alloc, &cert)?;
    let text = write(alloc, &machine, &cert)?;
    Ok(WrittenCert {
        judged: JudgedMachine { machine, report },
        text,
    })
}
