//! The files of a run of guests, and what they hold.

ghost use Rattle.std.specs.Prelude.{◌≤◌, length};

use pg_cli_table::FileName;
use pg_cmd_certs::JudgedMachine;
use pg_image::Image;
use sqlite_items::Items;

/// The files of a run of guests, and the room that it wants.
#[derive(Drop)]
pub struct GuestFiles<'a> {
    /// The name of the file with the description.
    pub desc: &'a FileName,
    /// The names of the files with the images: 1 to 8.
    pub images: &'a [FileName],
    /// The name of the file with the certificate.
    pub cert: &'a FileName,
    /// How many cells each guest is granted: 2 to 1,048,575.
    pub grant: u32,
    /// How many cells monitors keep: at most 8.
    pub kept: u32,
    /// How many steps each guest does.
    pub steps: u64,
    /// There is one.
    pub ghost some: { 1 ≤ length images.now },
    /// There are few of them.
    pub ghost few: { length images.now ≤ 8 },
    /// An image has two cells.
    pub ghost least: { 2 ≤ grant },
    /// No machine has more.
    pub ghost most: { grant ≤ 1048575 },
}

/// What the files of a run hold.
#[derive(Drop)]
pub struct LoadedGuests {
    /// The machine, and what is kept of its certificate.
    pub judged: JudgedMachine,
    /// The words of each guest's cells when it is switched on.
    pub images: Items<Image>,
}
