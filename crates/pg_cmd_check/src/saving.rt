//! A certificate is saved, and its verdict told behind that. No memory is taken for either.

ghost use Rattle.std.specs.Prelude.{Some};
ghost use Rattle.pg_cmd_certs.specs.Saving.{SavedAs};
ghost use Rattle.pg_cmd_certs.specs.Views.{judged};
ghost use Rattle.pg_cmd_base.specs.Classes.{class_of};
ghost use Rattle.pg_cmd_base.specs.World.{Keeps, around};

use pg_cli_table::FileName;
use pg_cmd_base::Status;
use pg_cmd_certs::{VerdictWatcher, WrittenCert, save_text, tell_verdict};
use pg_edge::{Shelf, Sink};
use pg_hw::Hardware;

/// Saves the text of a certificate under a name, and then tells its verdict; the watcher alone where the save failed. The
/// hardware is lent, and stays as it is.
pub(crate) fn save_and_tell<F: Shelf, S: Sink, H: Hardware, W: VerdictWatcher>(
    shelf: &mut F,
    out: &mut S,
    hw: &H,
    name: &FileName,
    cert: &WrittenCert,
    watcher: &mut W,
) -> Status
    ensures saved { SavedAs name.now cert.now.text.items (judged cert.now.judged)
        (around F.Shelf S.Sink H.Hardware shelf.old out.old hw.now)
        (around F.Shelf S.Sink H.Hardware shelf.new out.new hw.now) result (class_of result) }
    ensures keeps { Keeps (Some name.now) (around F.Shelf S.Sink H.Hardware shelf.old out.old hw.now)
        (around F.Shelf S.Sink H.Hardware shelf.new out.new hw.now) }
{
    match save_text(shelf, name, cert.text.as_slice()) {
        Ok(()) => tell_verdict(out, &cert.judged),
        Err(_) => {
            watcher.unsaved(&cert.judged);
            Status::WriteFault
        }
    }
}
