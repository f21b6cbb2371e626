//! The smallest hardware: it runs the machines that have no instruction, so that every step traps.
//!
//! It is no hardware to run guests on. It shows that the clauses of the trait can be met, and tests use it where a hardware
//! is only poked, peeked at, or made to trap.

ghost use Rattle.std.specs.Prelude.{◌≡◌};
ghost use Rattle.pg_hw.specs.Idling.{cause_where};

use super::memory::{BurstEnd, Memory, Works};
use super::parts::trap;
use pg_mach_ready::Machine;
use pg_word::{Cause, Psw, window_len};

/// The steps of machines without instructions.
#[derive(Drop)]
pub struct Idling;

/// A hardware in memory that serves the machines without instructions.
pub type Idle = Memory<Idling>;

impl Works for Idling {
    ghost use Rattle.std.specs.Prelude.{◌≡◌, []};

    ghost does = { λ d. d.instrs ≡ [] };

    fn ready() -> Self {
        Idling
    }

    fn run(&mut self, cells: &mut [u64], psw: Psw, m: &Machine, k: u64) -> BurstEnd {
        if k == 0 {
            return BurstEnd {
                psw,
                done: 0,
                untrapped: 0,
                still: None,
            };
        }
        let usable = window_len(psw, cells.len() as u32);
        let cause = cause_of(psw.p, usable);
        BurstEnd {
            psw: trap(cells, m.shape(), psw, cause),
            done: 1,
            untrapped: 0,
            still: None,
        }
    }
}

/// Why the step of a machine without instructions traps: no word at P, or no pattern for it.
fn cause_of(p: u32, usable: u32) -> Cause
    ensures { result ≡ cause_where p usable }
{
    if p < usable {
        Cause::NoPattern
    } else {
        Cause::Memory
    }
}
