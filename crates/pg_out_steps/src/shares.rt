//! Counts of steps by how a monitor would handle them.

ghost use Rattle.std.specs.Prelude.{◌≡◌, ◌+◌, ◌++◌, ◌^◌, ◌<◌, OnOk, Option};
ghost use Rattle.pg_ast.specs.declared.tree.Desc.{Desc};
ghost use Rattle.pg_lang_meaning.specs.States.{State};
ghost use Rattle.pg_out_steps.specs.Handling.{AreNoShares, AreShares, SharesCounted};
ghost use Rattle.pg_out_steps.specs.Lines.{shares_text};
ghost use Rattle.pg_out_steps.specs.declared.handling.Monitor.{Monitor};

use crate::counts::push_count;
use crate::handling::Handling;
use std::alloc::AllocError;

/// How many steps the hardware would do for a monitor, and how many the monitor would do itself. Without a monitor there are none.
#[derive(Clone, Copy, Debug, PartialEq, Eq)]
pub struct Shares {
    /// Those of the hardware.
    pub direct: u64,
    /// Those of the monitor.
    pub emulated: u64,
}

impl Shares {
    /// Those of no steps.
    pub fn new() -> Shares
        ensures none { AreNoShares result }
        ensures shares { (monitor : Option Monitor) (d : Desc) (s : State) → AreShares monitor d 0 s result }
    {
        Shares {
            direct: 0,
            emulated: 0,
        }
    }

    /// Counts a step more that is handled so.
    pub fn count(&mut self, handling: Option<Handling>)
        requires few { self.old.direct + self.old.emulated < 2 ^ 33 }
        ensures counted { SharesCounted self.old handling self.new }
    {
        match handling {
            None => {}
            Some(Handling::Direct) => self.direct += 1,
            Some(Handling::Emulated) => self.emulated += 1,
        }
    }
}

/// Pushes the lines of shares, `direct N` and `emulated N`.
pub fn push_shares(text: &mut Vec<u8>, shares: &Shares) -> Result<(), AllocError>
    ensures { OnOk result (text.new.items ≡ text.old.items ++ shares_text shares.now) }
{
    push_count(text, b"direct", shares.direct)?;
    push_count(text, b"emulated", shares.emulated)
}
