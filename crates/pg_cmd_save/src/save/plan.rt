//! A run that is to be saved, made ready: what was tried on the way stands in its ghost fields, so nothing is tested again.

ghost use Rattle.std.specs.Prelude.{◌≡◌, ◌≤◌, [], ◌∷◌, length};
ghost use Rattle.pg_run_guests.specs.Runs.{run_of};
ghost use Rattle.pg_run_guests.specs.Setting.{CanRun};
ghost use Rattle.pg_cmd_save.specs.Save.{one_slice};

use pg_cmd_certs::JudgedMachine;
use pg_image::Image;

/// A run of an image under a monitor, and the certificate by which it may be done.
#[derive(Drop)]
pub(crate) struct SavePlan {
    /// The machine, and what is kept of its certificate.
    pub(crate) judged: JudgedMachine,
    /// The words of the guest's cells when it is switched on.
    pub(crate) image: Image,
    /// How many cells the guest is granted: 2 to 1,048,575.
    pub(crate) grant: u32,
    /// How many steps it does, exactly: at most 1,000,000.
    pub(crate) steps: u32,
    /// There is such a run.
    pub(crate) ghost can_run: { CanRun (run_of judged.machine (image ∷ []) one_slice steps) },
    /// The image has the granted size.
    pub(crate) ghost filled: { length image ≡ grant },
    /// The steps are few.
    pub(crate) ghost few: { steps ≤ 1000000 },
}
