//! How a monitor takes guests: images that are switched on, and states.

ghost use Rattle.std.specs.Prelude.{◌≡◌, ◌<◌, ◌≤◌, ◌^◌, length, None, All, IsSome, OnOk, OnErr, IfOk, IfErr};
ghost use Rattle.pg_lang_meaning.specs.States.{IsState};
ghost use Rattle.pg_lang_meaning.specs.Steps.{power_on};
ghost use Rattle.pg_hw.specs.Serving.{IsServed};
ghost use Rattle.pg_type.specs.Listed.{state_of};
ghost use Rattle.pg_monitor.specs.Monitors.{desc_of, base_for, Admits, SameMonitor};
ghost use Rattle.pg_mon_control.specs.Standing.{Stands};

use crate::monitor::Monitor;
use pg_hw::Hardware;
use pg_image::Image;
use pg_mon_control::{GuestFault, admit_image, put_state};
use pg_word::Sparse;

impl<'m> Monitor<'m> {
    /// Loads an image as a new guest, whose grant is as large, and which is switched on with it. The number of the guest:
    /// how many there were.
    ///
    /// The grant is placed at the least base that is free. `NoRoom` comes exactly where none is, and `Memory` where there is
    /// room but an allocation fails; the monitor and the hardware are then as they were. The time grows with the grants and
    /// the image.
    pub fn load<H: Hardware>(&mut self, hw: &mut H, image: &Image) -> Result<usize, GuestFault>
        requires least { 2 ≤ length image.now }
        requires words { All (λ w. w < 2 ^ (desc_of self.old).word) image.now }
        requires served { IsServed (H.serves (H.fixed hw.old)) (desc_of self.old) }
        requires stands { Stands (desc_of self.old) (H.machinery hw.old).state self.old.guests self.old.current }
        ensures number { IfOk result (λ k. k ≡ length self.old.guests) }
        ensures admitted { OnOk result (Admits (power_on image.now (length image.now)) self.old self.new (H.machinery hw.old) (H.machinery hw.new)) }
        ensures stands { Stands (desc_of self.old) (H.machinery hw.new).state self.new.guests self.new.current }
        ensures no_room { IfErr result (λ e. e ≡ GuestFault.NoRoom → base_for self.old (length image.now) ≡ None) }
        ensures memory { IfErr result (λ e. e ≡ GuestFault.Memory → IsSome (base_for self.old (length image.now))) }
        ensures refused { OnErr result (SameMonitor self.old self.new) }
        ensures untouched { OnErr result (H.machinery hw.new ≡ H.machinery hw.old) }
        ensures machine { self.new.accepted.machine.now ≡ self.old.accepted.machine.now }
        ensures fixed { H.fixed hw.new ≡ H.fixed hw.old }
    {
        let machine = self.accepted.machine();
        admit_image(
            machine,
            hw,
            &mut self.granted,
            &mut self.guests,
            image.as_slice(),
        )
    }

    /// Loads a state as a new guest, which goes on from it, as `load` does an image. The number of the guest.
    ///
    /// `NoRoom` and `Memory` come as there. The time grows with the grants and the state's size.
    pub fn load_state<H: Hardware>(
        &mut self,
        hw: &mut H,
        state: &Sparse,
    ) -> Result<usize, GuestFault>
        requires state { IsState (desc_of self.old) (state_of state.now) }
        requires served { IsServed (H.serves (H.fixed hw.old)) (desc_of self.old) }
        requires stands { Stands (desc_of self.old) (H.machinery hw.old).state self.old.guests self.old.current }
        ensures number { IfOk result (λ k. k ≡ length self.old.guests) }
        ensures admitted { OnOk result (Admits (state_of state.now) self.old self.new (H.machinery hw.old) (H.machinery hw.new)) }
        ensures stands { Stands (desc_of self.old) (H.machinery hw.new).state self.new.guests self.new.current }
        ensures no_room { IfErr result (λ e. e ≡ GuestFault.NoRoom → base_for self.old state.now.size ≡ None) }
        ensures memory { IfErr result (λ e. e ≡ GuestFault.Memory → IsSome (base_for self.old state.now.size)) }
        ensures refused { OnErr result (SameMonitor self.old self.new) }
        ensures untouched { OnErr result (H.machinery hw.new ≡ H.machinery hw.old) }
        ensures machine { self.new.accepted.machine.now ≡ self.old.accepted.machine.now }
        ensures fixed { H.fixed hw.new ≡ H.fixed hw.old }
    {
        let number = self.guests.len();
        let base = match self.place(state.size, state.psw) {
            Ok(base) => base,
            Err(fault) => return Err(fault),
        };
        put_state(hw, base, state);
        Ok(number)
    }
}
