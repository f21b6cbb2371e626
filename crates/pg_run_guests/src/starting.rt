//! The hardware, the monitor and its guests, before the first turn.

ghost use Rattle.std.specs.Prelude.{◌≡◌, ◌+◌, ◌≤◌, [], ◌∷◌, IfOk, OnOk, OnErr};
ghost use Rattle.pg_hw.specs.Serving.{IsServed};
ghost use Rattle.pg_alloc.specs.Fit.{kept_cells};
ghost use Rattle.pg_run_guests.specs.HaveRun.{holding};
ghost use Rattle.pg_run_guests.specs.UnderMonitor.{state_run};
ghost use Rattle.pg_monitor.specs.Monitors.{desc_of, kept_by};
ghost use Rattle.pg_run_guests.specs.Runs.{GuestRun, run_of, switched_on};
ghost use Rattle.pg_run_guests.specs.Setting.{HaveRoom, SetUp, loaded_for, loaded_from, taken_for};
ghost use Rattle.pg_run_guests.specs.Begun.{HoldsNoMore, IsBegun, LoadedSome};
ghost use Rattle.pg_type.specs.Listed.{state_of};

use pg_hw::Hardware;
use pg_image::Image;
use pg_monitor::{GuestFault, Monitor};
use pg_type::Accepted;
use pg_word::Sparse;
use std::alloc::{AllocError, Global};

/// A monitor with a guest for each image, on the hardware, which is given the machine's greatest size for it. Each is switched on,
/// and none has had a turn.
///
/// # Errors
/// Only for lack of memory: the hardware is as it was, installed, or some images are loaded.
pub fn start<'m, H: Hardware>(
    alloc: Global,
    accepted: Accepted<'m>,
    images: &[Image],
    hw: &mut H,
) -> Result<Monitor<'m>, AllocError>
    requires served { IsServed (H.serves (H.fixed hw.old)) accepted.machine.now.desc }
    requires room { accepted.machine.now.desc.size ≤ H.room (H.fixed hw.old) }
    requires fit { HaveRoom accepted.machine.now.desc kept_cells (switched_on images.now) }
    ensures machine { IfOk result (λ m. m.accepted.machine.now ≡ accepted.entry.machine.now) }
    ensures begun { IfOk result (λ m. IsBegun kept_cells (switched_on images.now) (kept_by m) (H.machinery hw.new)) }
    ensures made { OnOk result (H.machinery hw.new ≡ loaded_for accepted.entry.machine.now.desc kept_cells
        (switched_on images.now) (H.machinery hw.old)) }
    ensures set_up { OnErr result (SetUp (run_of accepted.entry.machine.now images.now 1 0) (H.machinery hw.old) (H.machinery hw.new)) }
    ensures fixed { H.fixed hw.new ≡ H.fixed hw.old }
{
    let mut monitor = match begin(alloc, accepted, hw) {
        Ok(monitor) => monitor,
        Err(refused) => return Err(refused),
    };
    match load_all(&mut monitor, images, hw) {
        Ok(()) => Ok(monitor),
        Err(refused) => Err(refused),
    }
}

/// A monitor with a guest at a state, behind so many cells that are held, on the hardware, which is given the machine's greatest
/// size for it.
pub(crate) fn start_state<'m, H: Hardware>(
    alloc: Global,
    accepted: Accepted<'m>,
    skip: u32,
    state: &Sparse,
    hw: &mut H,
) -> Result<Monitor<'m>, AllocError>
    requires served { IsServed (H.serves (H.fixed hw.old)) accepted.machine.now.desc }
    requires room { accepted.machine.now.desc.size ≤ H.room (H.fixed hw.old) }
    requires fit { HaveRoom accepted.machine.now.desc (kept_cells + skip) (state_of state.now ∷ []) }
    ensures machine { IfOk result (λ m. m.accepted.machine.now ≡ accepted.entry.machine.now) }
    ensures begun { IfOk result (λ m. IsBegun (kept_cells + skip) (state_of state.now ∷ []) (kept_by m) (H.machinery hw.new)) }
    ensures made { OnOk result (H.machinery hw.new ≡ loaded_for accepted.entry.machine.now.desc (kept_cells + skip)
        (state_of state.now ∷ []) (H.machinery hw.old)) }
    ensures set_up { OnErr result (SetUp (state_run accepted.entry.machine.now skip (state_of state.now) 1 0)
        (H.machinery hw.old) (H.machinery hw.new)) }
    ensures fixed { H.fixed hw.new ≡ H.fixed hw.old }
{
    let mut monitor = match begin(alloc, accepted, hw) {
        Ok(monitor) => monitor,
        Err(refused) => return Err(refused),
    };
    match load_behind(&mut monitor, skip, state, hw) {
        Ok(()) => Ok(monitor),
        Err(refused) => Err(refused),
    }
}

/// A monitor without guests on the hardware, which is given the machine's greatest size for it.
fn begin<'m, H: Hardware>(
    alloc: Global,
    accepted: Accepted<'m>,
    hw: &mut H,
) -> Result<Monitor<'m>, AllocError>
    requires served { IsServed (H.serves (H.fixed hw.old)) accepted.machine.now.desc }
    requires room { accepted.machine.now.desc.size ≤ H.room (H.fixed hw.old) }
    ensures machine { IfOk result (λ m. m.accepted.machine.now ≡ accepted.entry.machine.now) }
    ensures begun { IfOk result (λ m. IsBegun kept_cells [] (kept_by m) (H.machinery hw.new)) }
    ensures no_more { IfOk result (λ m. HoldsNoMore (kept_by m)) }
    ensures made { OnOk result (H.machinery hw.new ≡ taken_for accepted.entry.machine.now.desc (H.machinery hw.old)) }
    ensures set_up { OnErr result ((r : GuestRun) → r.desc ≡ accepted.entry.machine.now.desc → SetUp r (H.machinery hw.old)
        (H.machinery hw.new)) }
    ensures fixed { H.fixed hw.new ≡ H.fixed hw.old }
{
    match hw.install(accepted.machine().shape().q) {
        Ok(()) => {}
        Err(refused) => return Err(refused),
    }
    match Monitor::new(alloc, accepted, hw) {
        Ok(monitor) => Ok(monitor),
        Err(refused) => Err(refused),
    }
}

/// Loads each image as a guest, in order, into a monitor that has none.
fn load_all<H: Hardware>(
    monitor: &mut Monitor<'_>,
    images: &[Image],
    hw: &mut H,
) -> Result<(), AllocError>
    requires served { IsServed (H.serves (H.fixed hw.old)) (desc_of monitor.old) }
    requires begun { IsBegun kept_cells [] (kept_by monitor.old) (H.machinery hw.old) }
    requires no_more { HoldsNoMore (kept_by monitor.old) }
    requires fit { HaveRoom (desc_of monitor.old) kept_cells (switched_on images.now) }
    ensures begun { OnOk result (IsBegun kept_cells (switched_on images.now) (kept_by monitor.new) (H.machinery hw.new)) }
    ensures made { OnOk result (H.machinery hw.new ≡ loaded_from kept_cells (switched_on images.now) (H.machinery hw.old)) }
    ensures refused { OnErr result (LoadedSome (switched_on images.now) (H.machinery hw.old) (H.machinery hw.new)) }
    ensures machine { monitor.new.accepted.machine.now ≡ monitor.old.accepted.machine.now }
    ensures fixed { H.fixed hw.new ≡ H.fixed hw.old }
{
    for image in images {
        match monitor.load(hw, image) {
            Ok(_) => {}
            Err(GuestFault::Memory) => return Err(AllocError),
            Err(GuestFault::NoRoom) => unreachable!(),
        }
    }
    Ok(())
}

/// Loads a state as a guest into a monitor that has none, behind so many cells that are held.
fn load_behind<H: Hardware>(
    monitor: &mut Monitor<'_>,
    skip: u32,
    state: &Sparse,
    hw: &mut H,
) -> Result<(), AllocError>
    requires served { IsServed (H.serves (H.fixed hw.old)) (desc_of monitor.old) }
    requires begun { IsBegun kept_cells [] (kept_by monitor.old) (H.machinery hw.old) }
    requires no_more { HoldsNoMore (kept_by monitor.old) }
    requires fit { HaveRoom (desc_of monitor.old) (kept_cells + skip) (state_of state.now ∷ []) }
    ensures begun { OnOk result (IsBegun (kept_cells + skip) (state_of state.now ∷ []) (kept_by monitor.new) (H.machinery hw.new)) }
    ensures made { OnOk result (H.machinery hw.new ≡ loaded_from (kept_cells + skip) (state_of state.now ∷ []) (H.machinery hw.old)) }
    ensures refused { OnErr result (H.machinery hw.new ≡ H.machinery hw.old) }
    ensures machine { monitor.new.accepted.machine.now ≡ monitor.old.accepted.machine.now }
    ensures fixed { H.fixed hw.new ≡ H.fixed hw.old }
{
    match hold_before(monitor, skip) {
        Ok(()) => {}
        Err(refused) => return Err(refused),
    }
    match monitor.load_state(hw, state) {
        Ok(_) => Ok(()),
        Err(GuestFault::Memory) => Err(AllocError),
        Err(GuestFault::NoRoom) => unreachable!(),
    }
}

/// Holds so many cells, if any, in a monitor that made no grant: its first grant then lies behind them.
fn hold_before(monitor: &mut Monitor<'_>, skip: u32) -> Result<(), AllocError>
    requires none { monitor.old.granted.grants ≡ [] }
    requires fits { kept_cells + skip ≤ (desc_of monitor.old).size }
    ensures held { OnOk result (monitor.new.granted.grants ≡ holding skip) }
    ensures guests { monitor.new.guests ≡ monitor.old.guests }
    ensures current { monitor.new.current ≡ monitor.old.current }
    ensures machine { monitor.new.accepted.machine.now ≡ monitor.old.accepted.machine.now }
{
    if skip == 0 {
        return Ok(());
    }
    match monitor.hold(skip) {
        Ok(_) => Ok(()),
        Err(GuestFault::Memory) => Err(AllocError),
        Err(GuestFault::NoRoom) => unreachable!(),
    }
}
