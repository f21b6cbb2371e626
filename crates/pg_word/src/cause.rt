//! Why a step traps.
//!
//! A step that is not done traps for one of three causes, and a machine whose shape has causes on stores their number with
//! the program status word of its entry (`pack_trap`).

ghost use Rattle.std.specs.Prelude.{◌≡◌, ◌≤◌};
ghost use Rattle.pg_word.specs.Psw.{cause_number};

/// Why a step traps.
#[derive(Clone, Copy, Debug, PartialEq, Eq)]
pub enum Cause {
    /// A cell was named that the program status word does not make usable.
    Memory,
    /// The instruction traps by itself.
    Trap,
    /// No instruction has a pattern that matches the word at P.
    NoPattern,
}

impl Cause {
    /// Its number, from 1 to 3: what a trap stores above the mode where causes are on.
    pub fn number(self) -> u8
        ensures number { result ≡ cause_number self }
        ensures least { 1 ≤ result }
        ensures most { result ≤ 3 }
    {
        match self {
            Cause::Memory => 1,
            Cause::Trap => 2,
            Cause::NoPattern => 3,
        }
    }
}
