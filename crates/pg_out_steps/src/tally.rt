//! Counts of steps: by instruction, and by why they trapped.

ghost use Rattle.std.specs.Prelude.{◌≡◌, ℕ, ◌+◌, ◌^◌, ◌<◌, length, slice_index, IfOk, IfSome, Option};
ghost use Rattle.std.specs.List.{sum_by};
ghost use Rattle.pg_hw.specs.Bursts.{one_if};
ghost use Rattle.pg_lang_meaning.specs.States.{State};
ghost use Rattle.pg_out_steps.specs.Handling.{AreShares};
ghost use Rattle.pg_out_steps.specs.declared.handling.Monitor.{Monitor};
ghost use Rattle.pg_out_steps.specs.Counting.{is_number, is_none, is_cause, IsBalanced, Counted, IsTally};

use crate::shares::Shares;
use crate::stepped::Stepped;
use pg_mach_ready::Machine;
use pg_word::Cause;
use std::alloc::{AllocError, Global};

/// How many steps there were.
#[derive(Drop)]
pub struct Tally {
    /// All of them.
    pub steps: u64,
    /// For each instruction, by its number, how many fetched a word that means it, whether they trapped or not.
    pub instrs: Vec<u64>,
    /// How many fetched no instruction: P lay outside the window, or no pattern matched the word.
    pub others: u64,
    /// How many trapped because a cell was named outside the window, by the fetch too.
    pub memory: u64,
    /// How many trapped by `trap;`.
    pub trap: u64,
    /// How many trapped because no pattern matched.
    pub no_pattern: u64,
    /// How a monitor would handle them, where one was named.
    pub shares: Shares,
}

impl Tally {
    /// The counts of no steps of a machine.
    pub fn new(alloc: Global, m: &Machine) -> Result<Tally, AllocError>
        ensures balanced { IfOk result IsBalanced }
        ensures none { IfOk result (λ t. (s : State) → IsTally m.now.desc 0 s t) }
        ensures shares { IfOk result (λ t. (monitor : Option Monitor) (s : State) → AreShares monitor m.now.desc 0 s t.shares) }
    {
        Ok(Tally {
            steps: 0,
            instrs: vec![in alloc; 0u64; m.count()]?,
            others: 0,
            memory: 0,
            trap: 0,
            no_pattern: 0,
            shares: Shares::new(),
        })
    }

    /// Counts a step more.
    pub fn count(&mut self, stepped: &Stepped)
        requires balanced { IsBalanced self.old }
        requires few { self.old.steps < 2 ^ 32 }
        requires within { IfSome stepped.now.instr (λ k. k < length self.old.instrs.items) }
        ensures balanced { IsBalanced self.new }
        ensures counted { Counted self.old stepped.now self.new }
    {
        self.steps += 1;
        self.others += count_instr(&mut self.instrs, stepped.instr);
        self.memory += one_if_cause(Cause::Memory, stepped.cause);
        self.trap += one_if_cause(Cause::Trap, stepped.cause);
        self.no_pattern += one_if_cause(Cause::NoPattern, stepped.cause);
        self.shares.count(stepped.handling);
    }
}

/// Counts an instruction more in the counts of all, and answers 0; where there is none it answers 1.
fn count_instr(counts: &mut Vec<u64>, instr: Option<usize>) -> u64
    requires few { sum_by (λ count. count) counts.old.items < 2 ^ 33 }
    requires within { IfSome instr (λ k. k < length counts.old.items) }
    ensures none { result ≡ one_if (is_none instr) }
    ensures sum { sum_by (λ count. count) counts.new.items + result ≡ sum_by (λ count. count) counts.old.items + 1 }
    ensures size { length counts.new.items ≡ length counts.old.items }
    ensures each { (k : ℕ) → k < length counts.old.items → slice_index counts.new.items k ≡ slice_index counts.old.items k + one_if (is_number k instr) }
{
    match instr {
        Some(k) => {
            let count = counts[k];
            counts[k] = count + 1;
            0
        }
        None => 1,
    }
}

/// 1 where a step trapped by this cause, else 0.
fn one_if_cause(cause: Cause, why: Option<Cause>) -> u64
    ensures { result ≡ one_if (is_cause cause why) }
{
    match why {
        Some(why) if why.number() == cause.number() => 1,
        _ => 0,
    }
}
