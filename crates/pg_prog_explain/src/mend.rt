//! The mended description, saved.

ghost use Rattle.std.specs.Prelude.{◌≡◌, ◌≤◌, IfOk, IfErr, IfSome, OnOk, Some, option_copied};
ghost use Rattle.pg_edge.specs.Count.{Rose};
ghost use Rattle.pg_edge.specs.Shelf.{SameBut};
ghost use Rattle.pg_edge.specs.Told.{BothTold};
ghost use Rattle.pg_cmd_certs.specs.Views.{judged};
ghost use Rattle.pg_out_reasons.specs.Mending.{IsMendedBy};
ghost use Rattle.pg_prog_explain.specs.Explaining.{MendsOnly, UnsavedAt};
ghost use Rattle.pg_prog_explain.specs.Mended.{HoldsMended};

use crate::load::Loaded;
use crate::request::Request;
use pg_edge::{Failed, Shelf};
use pg_out_guarded::{Layout, mended_text};
use pg_out_reasons::{Mended, Reasons};
use std::alloc::{AllocError, Global};

/// Why a mended description is not saved.
#[derive(Clone, Copy)]
pub enum MendFault {
    /// Memory was refused for its text.
    Memory,
    /// The save failed.
    Unsaved,
}

impl From<AllocError> for MendFault {
    ghost use Rattle.pg_prog_explain.specs.declared.mend.MendFault.TheVariants.{Memory};

    ghost from_gives = { λ _ fault. fault ≡ Memory };

    fn from(_error: AllocError) -> MendFault {
        MendFault::Memory
    }
}

/// Saves the description that is mended, where there is one and a name for it, and gives its layout.
pub fn mend<F: Shelf>(
    alloc: Global,
    shelf: &mut F,
    request: &Request<'_>,
    loaded: &Loaded,
    told: &Reasons,
) -> Result<Option<Layout>, MendFault>
    requires { IfSome told.now.mended (λ g. IsMendedBy loaded.now.judged.machine.desc loaded.now.judged.report g.machine.desc) }
    ensures mends { OnOk result (MendsOnly (option_copied request.now.options.mend) (judged loaded.now.judged) (F.files shelf.old) (F.files shelf.new)) }
    ensures fails { IfErr result (UnsavedAt (option_copied request.now.options.mend) (F.files shelf.old) (F.files shelf.new) (F.saves shelf.old) (F.saves shelf.new)) }
    ensures saves { F.saves shelf.old ≤ F.saves shelf.new }
    ensures reads { F.reads shelf.new ≡ F.reads shelf.old }
{
    match (request.options.mend, &told.mended) {
        (Some(file), Some(mended)) => match save_mended(alloc, shelf, file, loaded, mended) {
            Ok(layout) => Ok(Some(layout)),
            Err(fault) => Err(fault),
        },
        _ => Ok(None),
    }
}

/// Saves the description that is mended, in the text of the description where that can be kept, and gives the layout.
#[tactic(auto, using(crate::proofs::MendedLemmas::saved_mended))]
fn save_mended<F: Shelf>(
    alloc: Global,
    shelf: &mut F,
    file: &str,
    loaded: &Loaded,
    mended: &Mended,
) -> Result<Layout, MendFault>
    requires { IsMendedBy loaded.now.judged.machine.desc loaded.now.judged.report mended.now.machine.desc }
    ensures saved { IfOk result (λ _. BothTold (F.files shelf.old) (F.files shelf.new)
        (λ _ files. HoldsMended loaded.now.judged.machine.desc loaded.now.judged.report file.now files)) }
    ensures others { OnOk result (BothTold (F.files shelf.old) (F.files shelf.new) (SameBut file.now)) }
    ensures fails { IfErr result (UnsavedAt (Some file.now) (F.files shelf.old) (F.files shelf.new) (F.saves shelf.old) (F.saves shelf.new)) }
    ensures saves { F.saves shelf.old ≤ F.saves shelf.new }
    ensures reads { F.reads shelf.new ≡ F.reads shelf.old }
{
    let text = mended_text(
        alloc,
        loaded.text.as_slice(),
        mended.marks.as_slice(),
        &mended.machine.desc,
    )?;
    match shelf.save(file, text.bytes.as_slice()) {
        Ok(()) => Ok(text.layout),
        Err(Failed) => Err(MendFault::Unsaved),
    }
}
