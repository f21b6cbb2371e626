//! The hardware, the hybrid monitor and its guests, before the first turn.

ghost use Rattle.std.specs.Prelude.{◌≡◌, ◌≤◌, [], IfOk, OnOk, OnErr};
ghost use Rattle.pg_hw.specs.Serving.{IsServed};
ghost use Rattle.pg_alloc.specs.Fit.{kept_cells};
ghost use Rattle.pg_hybrid.specs.Hybrids.{desc_of, kept_by};
ghost use Rattle.pg_run_guests.specs.Runs.{run_of, switched_on};
ghost use Rattle.pg_run_guests.specs.Setting.{HaveRoom, SetUp, loaded_for, loaded_from};
ghost use Rattle.pg_run_guests.specs.Begun.{HoldsNoMore, IsBegun, LoadedSome};

use pg_hw::Hardware;
use pg_hybrid::{GuestFault, Hybrid};
use pg_image::Image;
use pg_type::HybridAccepted;
use std::alloc::{AllocError, Global};

/// A hybrid monitor with a guest for each image, on the hardware, which is given the machine's greatest size for it.
pub(crate) fn start<'m, H: Hardware>(
    alloc: Global,
    accepted: HybridAccepted<'m>,
    images: &[Image],
    hw: &mut H,
) -> Result<Hybrid<'m>, AllocError>
    requires served { IsServed (H.serves (H.fixed hw.old)) accepted.machine.now.desc }
    requires room { accepted.machine.now.desc.size ≤ H.room (H.fixed hw.old) }
    requires fit { HaveRoom accepted.machine.now.desc kept_cells (switched_on images.now) }
    ensures machine { IfOk result (λ h. h.accepted.machine.now ≡ accepted.entry.machine.now) }
    ensures begun { IfOk result (λ h. IsBegun kept_cells (switched_on images.now) (kept_by h) (H.machinery hw.new)) }
    ensures made { OnOk result (H.machinery hw.new ≡ loaded_for accepted.entry.machine.now.desc kept_cells (switched_on images.now) (H.machinery hw.old)) }
    ensures set_up { OnErr result (SetUp (run_of accepted.entry.machine.now images.now 1 0) (H.machinery hw.old) (H.machinery hw.new)) }
    ensures fixed { H.fixed hw.new ≡ H.fixed hw.old }
{
    match hw.install(accepted.machine().shape().q) {
        Ok(()) => {}
        Err(refused) => return Err(refused),
    }
    let mut hybrid = match Hybrid::new(alloc, accepted, hw) {
        Ok(hybrid) => hybrid,
        Err(refused) => return Err(refused),
    };
    match load_all(&mut hybrid, images, hw) {
        Ok(()) => Ok(hybrid),
        Err(refused) => Err(refused),
    }
}

/// Loads each image as a guest, in order, into a hybrid monitor that has none.
fn load_all<H: Hardware>(
    hybrid: &mut Hybrid<'_>,
    images: &[Image],
    hw: &mut H,
) -> Result<(), AllocError>
    requires served { IsServed (H.serves (H.fixed hw.old)) (desc_of hybrid.old) }
    requires begun { IsBegun kept_cells [] (kept_by hybrid.old) (H.machinery hw.old) }
    requires no_more { HoldsNoMore (kept_by hybrid.old) }
    requires fit { HaveRoom (desc_of hybrid.old) kept_cells (switched_on images.now) }
    ensures begun { OnOk result (IsBegun kept_cells (switched_on images.now) (kept_by hybrid.new) (H.machinery hw.new)) }
    ensures made { OnOk result (H.machinery hw.new ≡ loaded_from kept_cells (switched_on images.now) (H.machinery hw.old)) }
    ensures refused { OnErr result (LoadedSome (switched_on images.now) (H.machinery hw.old) (H.machinery hw.new)) }
    ensures machine { hybrid.new.accepted.machine.now ≡ hybrid.old.accepted.machine.now }
    ensures fixed { H.fixed hw.new ≡ H.fixed hw.old }
{
    for image in images {
        match hybrid.load(hw, image) {
            Ok(_) => {}
            Err(GuestFault::Memory) => return Err(AllocError),
            Err(GuestFault::NoRoom) => unreachable!(),
        }
    }
    Ok(())
}
