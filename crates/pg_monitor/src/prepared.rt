//! A monitor whose memory was taken before there is a hardware for it.

ghost use Rattle.std.specs.Prelude.{◌≡◌, ◌+◌, ◌<◌, ◌≤◌, ◌∷◌, [], replicate, IfOk, IfErr};
ghost use Rattle.pg_word.specs.Psw.{new_psw_cell, packed, power_on_psw};
ghost use Rattle.pg_lang_meaning.specs.Steps.{power_on};
ghost use Rattle.pg_hw.specs.Machinery.{poked_at};
ghost use Rattle.pg_hw.specs.Serving.{IsServed, blank};
ghost use Rattle.pg_alloc.specs.Fit.{kept_cells};
ghost use Rattle.pg_mon_control.specs.Guests.{virtuals};
ghost use Rattle.pg_monitor.specs.Monitors.{desc_of, IsReady, SameMonitor};
ghost use Rattle.pg_mon_control.specs.Standing.{Stands};

use crate::monitor::Monitor;
use pg_hw::Hardware;
use pg_mon_control::{GuestFault, KEPT_CELLS, take_storage};
use pg_type::Accepted;
use pg_word::Psw;
use std::alloc::Global;

/// A monitor that was made ready for one guest, with all memory that it needs.
#[derive(Drop)]
pub struct Prepared<'m> {
    /// The guest's size in cells.
    size: u32,
    monitor: Monitor<'m>,
    ghost ready: { IsReady size monitor },
}

impl<'m> Monitor<'m> {
    /// A monitor made ready for one guest of `size` cells, two at least, before there is a hardware for it.
    ///
    /// `NoRoom` comes exactly where the cells that a monitor keeps and the guest's pass the machine's greatest size, and `Memory`
    /// where they do not but an allocation fails.
    pub fn prepare(
        alloc: Global,
        accepted: Accepted<'m>,
        size: u32,
    ) -> Result<Prepared<'m>, GuestFault>
        requires least { 2 ≤ size }
        ensures machine { IfOk result (λ p. p.monitor.accepted.machine.now ≡ accepted.entry.machine.now) }
        ensures size { IfOk result (λ p. p.size ≡ size) }
        ensures ready { IfOk result (λ p. IsReady size p.monitor) }
        ensures no_room { IfErr result (λ e. e ≡ GuestFault.NoRoom → accepted.entry.machine.now.desc.size < kept_cells + size) }
        ensures memory { IfErr result (λ e. e ≡ GuestFault.Memory → kept_cells + size ≤ accepted.entry.machine.now.desc.size) }
    {
        if size > accepted.machine().shape().q - KEPT_CELLS {
            return Err(GuestFault::NoRoom);
        }
        let mut monitor = match Monitor::without_guests(alloc, accepted) {
            Ok(monitor) => monitor,
            Err(_) => return Err(GuestFault::Memory),
        };
        match monitor.place(size, Psw::power_on(size)) {
            Ok(_) => Ok(Prepared { size, monitor }),
            Err(fault) => Err(fault),
        }
    }
}

impl<'m> Prepared<'m> {
    /// Takes the storage of a hardware that was just installed with all cells of the machine. Guest 0 is switched on in it,
    /// with cells of zero. It is one poke, and takes no memory.
    pub fn start<H: Hardware>(self, hw: &mut H) -> Monitor<'m>
        requires served { IsServed (H.serves (H.fixed hw.old)) (desc_of self.monitor) }
        requires installed { (H.machinery hw.old).state ≡ blank (desc_of self.monitor).size }
        ensures monitor { SameMonitor self.entry.monitor result }
        ensures ready { IsReady self.entry.size result }
        ensures stands { Stands (desc_of self.entry.monitor) (H.machinery hw.new).state result.guests result.current }
        ensures states { virtuals (H.machinery hw.new).state.cells result.guests ≡ power_on (replicate self.entry.size 0) self.entry.size ∷ [] }
        ensures taken { let d = desc_of self.entry.monitor in
            H.machinery hw.new ≡ poked_at new_psw_cell (packed d.address (power_on_psw d.size)) (H.machinery hw.old) }
        ensures fixed { H.fixed hw.new ≡ H.fixed hw.old }
    {
        let Prepared { monitor, .. } = self;
        take_storage(monitor.accepted.machine(), hw);
        monitor
    }
}
