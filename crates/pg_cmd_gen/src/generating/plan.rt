//! A large input, made and classified, before any of its certificate is saved or put.

ghost use Rattle.pg_run_guests.specs.Runs.{run_of};
ghost use Rattle.pg_run_guests.specs.Setting.{CanRun};
ghost use Rattle.pg_cmd_gen.specs.Generating.{gen_slice, gen_steps};

use pg_cmd_certs::WrittenCert;
use pg_image::Image;
use sqlite_items::Items;

/// A machine and images of a number, and the certificate that was found of the machine.
#[derive(Drop)]
pub(crate) struct GenPlan {
    /// The machine and its certificate, with the text of that.
    pub(crate) cert: WrittenCert,
    /// The words of each guest's cells when it is switched on.
    pub(crate) images: Items<Image>,
    /// There is a run of the images.
    pub(crate) ghost can_run: { CanRun (run_of cert.judged.machine images gen_slice gen_steps) },
}
