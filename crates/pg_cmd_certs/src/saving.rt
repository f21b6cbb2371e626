//! A text is saved under a name. No memory is taken for it.

ghost use Rattle.std.specs.Prelude.{◌≡◌, ◌≤◌, OnOk, OnErr};
ghost use Rattle.pg_cmd_certs.specs.Saving.{HoldsAtMost, HoldsNow};
ghost use Rattle.pg_edge.specs.Count.{Rose};
ghost use Rattle.pg_edge.specs.Told.{BothTold};

use pg_cli_table::FileName;
use pg_edge::{Failed, Shelf};

/// Saves a text under a name.
///
/// # Errors
/// `Failed` where the save failed; the file then has what it had, or a front of the text.
pub fn save_text<F: Shelf>(shelf: &mut F, name: &FileName, text: &[u8]) -> Result<(), Failed>
    ensures saved { OnOk result (BothTold (F.files shelf.old) (F.files shelf.new) (HoldsNow name.now text.now)) }
    ensures whole { OnOk result (F.saves shelf.new ≡ F.saves shelf.old) }
    ensures left { OnErr result (BothTold (F.files shelf.old) (F.files shelf.new) (HoldsAtMost name.now text.now)) }
    ensures cause { OnErr result (Rose (F.saves shelf.old) (F.saves shelf.new)) }
    ensures later { F.saves shelf.old ≤ F.saves shelf.new }
    ensures reads { F.reads shelf.new ≡ F.reads shelf.old }
{
    match shelf.save(name.as_str(), text) {
        Ok(()) => Ok(()),
        Err(fault) => Err(fault),
    }
}
