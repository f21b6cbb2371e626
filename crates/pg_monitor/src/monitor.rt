//! The monitor: what it keeps, and how it takes a storage.

ghost use Rattle.std.specs.Prelude.{◌≡◌, ℕ, ◌+◌, ◌<◌, ◌≤◌, [], length, None, Some, OnOk, OnErr, IfOk, slice_get};
ghost use Rattle.pg_word.specs.Psw.{new_psw_cell, packed, power_on_psw};
ghost use Rattle.pg_lang_meaning.specs.States.{State, IsState};
ghost use Rattle.pg_hw.specs.Machinery.{poked_at};
ghost use Rattle.pg_hw.specs.Serving.{IsServed};
ghost use Rattle.pg_alloc.specs.Fit.{kept_cells};
ghost use Rattle.pg_mon_control.specs.Guests.{AreOwned};
ghost use Rattle.pg_mon_control.specs.Direct.{is_direct};
ghost use Rattle.pg_mon_control.specs.Standing.{Stands};

use pg_alloc::Grants;
use pg_hw::Hardware;
use pg_interp::Frame;
use pg_mach_ready::Machine;
use pg_mon_control::{Guest, take_storage};
use pg_type::Accepted;
use sqlite_items::Items;
use std::alloc::{AllocError, Global};

/// A monitor of guests, each of which believes to have a machine of its own.
#[derive(Drop)]
pub struct Monitor<'m> {
    pub(crate) accepted: Accepted<'m>,
    pub(crate) granted: Grants,
    pub(crate) guests: Items<Guest>,
    pub(crate) current: Option<usize>,
    /// Where steps that trapped are interpreted: made once, since it is large beside a step.
    pub(crate) frame: Frame,
    /// Each guest has a grant among those that the monitor made; the others are held for none.
    pub(crate) ghost owned: { AreOwned accepted.machine.now.desc.size granted guests },
}

impl<'m> Monitor<'m> {
    /// A monitor that takes the storage of a hardware: cell 1 becomes the program status word at which a trap enters it.
    ///
    /// Memory is taken, for the first guest, before the hardware is touched; where there is none, it is as it was.
    pub fn new<H: Hardware>(
        alloc: Global,
        accepted: Accepted<'m>,
        hw: &mut H,
    ) -> Result<Monitor<'m>, AllocError>
        requires served { IsServed (H.serves (H.fixed hw.old)) accepted.machine.now.desc }
        requires size { length (H.machinery hw.old).state.cells ≡ accepted.machine.now.desc.size }
        requires state { IsState accepted.machine.now.desc (H.machinery hw.old).state }
        ensures machine { IfOk result (λ m. m.accepted.machine.now ≡ accepted.entry.machine.now) }
        ensures granted { IfOk result (λ m. m.granted.grants ≡ []) }
        ensures guests { IfOk result (λ m. m.guests ≡ []) }
        ensures current { IfOk result (λ m. m.current ≡ None) }
        ensures stands { OnOk result (Stands accepted.entry.machine.now.desc (H.machinery hw.new).state [] None) }
        ensures taken { let d = accepted.entry.machine.now.desc in
            OnOk result (H.machinery hw.new ≡ poked_at new_psw_cell (packed d.address (power_on_psw d.size)) (H.machinery hw.old)) }
        ensures refused { OnErr result (H.machinery hw.new ≡ H.machinery hw.old) }
        ensures fixed { H.fixed hw.new ≡ H.fixed hw.old }

        // Whether a step is direct does not depend on where the grant lies.
        ensures direct_at_every_base { let d = accepted.entry.machine.now.desc in
            (s : State) → IsState d s → (b c : ℕ) → kept_cells ≤ b → b + length s.cells ≤ d.size → kept_cells ≤ c → c + length s.cells ≤ d.size → is_direct d b s ≡ is_direct d c s }
    {
        let monitor = Monitor::without_guests(alloc, accepted)?;
        take_storage(accepted.machine(), hw);
        Ok(monitor)
    }

    /// A monitor that has no guest yet, and no hardware.
    pub(crate) fn without_guests(
        alloc: Global,
        accepted: Accepted<'m>,
    ) -> Result<Monitor<'m>, AllocError>
        ensures machine { IfOk result (λ m. m.accepted.machine.now ≡ accepted.entry.machine.now) }
        ensures granted { IfOk result (λ m. m.granted.grants ≡ []) }
        ensures guests { IfOk result (λ m. m.guests ≡ []) }
        ensures current { IfOk result (λ m. m.current ≡ None) }
    {
        let guests = Vec::with_capacity(alloc, 1)?;
        Ok(Monitor {
            accepted,
            granted: Grants::new(alloc, accepted.machine().shape().q),
            guests: Items::from_vec(guests),
            current: None,
            frame: Frame::new(),
        })
    }

    /// The machine that its hardware is, and each of its guests believes to have.
    pub fn machine(&self) -> &'m Machine
        ensures { result.now ≡ self.now.accepted.machine.now }
    {
        self.accepted.machine()
    }

    /// The guest of a number.
    pub fn guest(&self, k: usize) -> Guest
        requires { k < length self.now.guests }
        ensures { slice_get self.now.guests k ≡ Some result }
    {
        self.guests.as_slice()[k]
    }

    /// The guests, in the order of their numbers.
    pub fn guests(&self) -> &[Guest]
        ensures { result.now ≡ self.now.guests }
    {
        self.guests.as_slice()
    }

    /// How many guests there are.
    pub fn len(&self) -> usize
        ensures { result ≡ length self.now.guests }
    {
        self.guests.len()
    }
}
