//! The lines of counts.

ghost use Rattle.std.specs.Prelude.{◌≡◌, ◌++◌, ◌<◌, codes, length, OnOk};
ghost use Rattle.pg_out_steps.specs.Lines.{name_at, count_line, met_line, instr_lines, counts_text};

use crate::line::instr_of;
use crate::tally::Tally;
use pg_mach_ready::Machine;
use pg_text::dec;
use std::alloc::AllocError;

/// Pushes the lines of the counts of a machine: `instr NAME N` for each instruction that was met, `no instr N` where steps fetched none,
/// `trap (CAUSE) N` for each cause, and `steps N`.
#[tactic(auto, unfolding(crate::specs::Lines::counts_text))]
pub fn push_counts(text: &mut Vec<u8>, m: &Machine, tally: &Tally) -> Result<(), AllocError>
    requires { length tally.now.instrs.items ≡ length m.now.desc.instrs }
    ensures { OnOk result (text.new.items ≡ text.old.items ++ counts_text m.now.desc tally.now) }
{
    push_instrs(text, m, tally.instrs.as_slice())?;
    push_met(text, b"no instr", tally.others)?;
    push_count(text, b"trap (memory)", tally.memory)?;
    push_count(text, b"trap (trap)", tally.trap)?;
    push_count(text, b"trap (no pattern)", tally.no_pattern)?;
    push_count(text, b"steps", tally.steps)
}

/// Pushes the lines of instructions.
#[tactic(auto, unfolding(crate::specs::Lines::instr_lines))]
fn push_instrs(text: &mut Vec<u8>, m: &Machine, counts: &[u64]) -> Result<(), AllocError>
    requires { length counts.now ≡ length m.now.desc.instrs }
    ensures { OnOk result (text.new.items ≡ text.old.items ++ instr_lines m.now.desc counts.now (length m.now.desc.instrs)) }
{
    for k in 0..counts.len() {
        push_instr_count(text, m, k, counts[k])?;
    }
    Ok(())
}

/// Pushes the line of an instruction, where it was met.
fn push_instr_count(text: &mut Vec<u8>, m: &Machine, k: usize, count: u64) -> Result<(), AllocError>
    requires { k < length m.now.desc.instrs }
    ensures { OnOk result (text.new.items ≡ text.old.items ++ met_line (codes "instr " ++ name_at m.now.desc k) count) }
{
    if count == 0 {
        return Ok(());
    }
    text.extend_from_slice(b"instr ")?;
    push_count(text, instr_of(m, k).name.as_bytes(), count)
}

/// Pushes the line of a count, where it is not 0.
fn push_met(text: &mut Vec<u8>, word: &[u8], count: u64) -> Result<(), AllocError>
    ensures { OnOk result (text.new.items ≡ text.old.items ++ met_line word.now count) }
{
    if count == 0 {
        Ok(())
    } else {
        push_count(text, word, count)
    }
}

/// Pushes the line of a count.
pub(crate) fn push_count(text: &mut Vec<u8>, word: &[u8], count: u64) -> Result<(), AllocError>
    ensures { OnOk result (text.new.items ≡ text.old.items ++ count_line word.now count) }
{
    text.extend_from_slice(word)?;
    text.push(b' ')?;
    text.extend_from_slice(dec(count).as_slice())?;
    text.push(b'\n')?;
    Ok(())
}
