//! Machines whose instructions are known to be as a monitor needs them.
//!
//! `Accepted` has the condition of Theorem 1 of the 1974 paper, and `HybridAccepted` that of Theorem 3. Neither is
//! tested when one is made, since both speak of every state: it is made where the condition is known, as where a verified
//! certificate says so. It is a machine on loan, and is copied freely.

ghost use Rattle.std.specs.Prelude.{◌≡◌, ◌≤◌};
ghost use Rattle.pg_type.specs.Accepting.{IsAccepted, IsHybridAccepted};
ghost use Rattle.pg_type.specs.Agreeing.{Agree};
ghost use Rattle.pg_type.specs.PaperWords.{HoldPaperWords};

use pg_mach_ready::Machine;

/// A machine of which each instruction is privileged or not sensitive.
#[derive(Clone, Copy)]
pub struct Accepted<'m> {
    machine: &'m Machine,
    ghost accepted: { ∥ IsAccepted machine.now.desc ∥₁ },
}

impl<'m> Accepted<'m> {
    /// A machine that is known to be so. In the paper's own words too each of its instructions is then privileged, or not
    /// sensitive on states that do not trap.
    pub fn of(machine: &'m Machine) -> Accepted<'m>
        requires { IsAccepted machine.now.desc }
        ensures same { result.machine.now ≡ machine.now }
        ensures paper_words { HoldPaperWords result.machine.now.desc }
    {
        Accepted { machine }
    }

    /// A machine that agrees with this one, and is not wider: it has the same instructions, and storages of at most as many
    /// cells, so that it is accepted too. Takes no memory.
    pub fn narrow<'n>(&self, machine: &'n Machine) -> Accepted<'n>
        requires agrees { Agree self.now.machine.now.desc machine.now.desc }
        requires narrower { machine.now.desc.size ≤ self.now.machine.now.desc.size }
        ensures { result.machine.now ≡ machine.now }
    {
        // its states are states of the wider machine, of which each instruction is privileged or not sensitive
        Accepted { machine }
    }

    /// The machine.
    pub fn machine(self) -> &'m Machine
        ensures same { result.now ≡ self.entry.machine.now }
        ensures accepted { ∥ IsAccepted result.now.desc ∥₁ }
    {
        self.machine
    }
}

/// A machine of which each instruction is privileged or not sensitive in user mode.
#[derive(Clone, Copy)]
pub struct HybridAccepted<'m> {
    machine: &'m Machine,
    ghost accepted: { ∥ IsHybridAccepted machine.now.desc ∥₁ },
}

impl<'m> HybridAccepted<'m> {
    /// A machine that is known to be so.
    pub fn of(machine: &'m Machine) -> HybridAccepted<'m>
        requires { IsHybridAccepted machine.now.desc }
        ensures { result.machine.now ≡ machine.now }
    {
        HybridAccepted { machine }
    }

    /// The machine.
    pub fn machine(self) -> &'m Machine
        ensures same { result.now ≡ self.entry.machine.now }
        ensures accepted { ∥ IsHybridAccepted result.now.desc ∥₁ }
    {
        self.machine
    }
}
