//! The files of one guest, and what they hold.

ghost use Rattle.std.specs.Prelude.{◌≤◌};

use crate::machine::JudgedMachine;
use pg_cli_table::FileName;
use pg_image::Image;

/// The files of one guest, and the room that it wants.
#[derive(Drop)]
pub struct GuestSource<'a> {
    /// The name of the file with the description.
    pub desc: &'a FileName,
    /// The name of the file with the image.
    pub image: &'a FileName,
    /// The name of the file with the certificate, by which a monitor may run the machine.
    pub cert: &'a FileName,
    /// How many cells the guest is granted: 2 or more.
    pub grant: u32,
    /// How many cells monitors keep.
    pub kept: u32,
    /// How many steps the guest does.
    pub steps: u64,
    /// Two or more.
    pub ghost least: { 2 ≤ grant },
}

/// What the files of one guest hold.
#[derive(Drop)]
pub struct LoadedGuest {
    /// The machine, and what is kept of its certificate.
    pub judged: JudgedMachine,
    /// The words of the guest's cells when it is switched on.
    pub image: Image,
}
