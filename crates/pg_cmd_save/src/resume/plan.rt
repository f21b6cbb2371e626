//! A saved guest that is to go on, made ready: what was tried on the way stands in its ghost fields, so nothing is tested again.

ghost use Rattle.pg_run_guests.specs.UnderMonitor.{state_run};
ghost use Rattle.pg_run_guests.specs.Setting.{CanRun};
ghost use Rattle.pg_cmd_save.specs.Save.{one_slice};
ghost use Rattle.pg_type.specs.Listed.{state_of};

use pg_cmd_certs::JudgedMachine;
use pg_move::Saved;

/// A saved guest under a monitor, and the certificate by which it may go on.
#[derive(Drop)]
pub(crate) struct ResumePlan {
    /// The machine, and what is kept of its certificate.
    pub(crate) judged: JudgedMachine,
    /// The guest: its state, and how many steps it has made.
    pub(crate) saved: Saved,
    /// How many cells are held before its own: at most 1,048,575.
    pub(crate) skip: u32,
    /// How many steps it does, exactly: at most 1,000,000.
    pub(crate) steps: u64,
    /// There is such a run.
    pub(crate) ghost can_run: { CanRun (state_run judged.machine skip (state_of saved.state) one_slice steps) },
}
