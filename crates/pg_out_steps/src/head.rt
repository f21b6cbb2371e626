//! What stands before the times. Each error is out of memory.

ghost use Rattle.std.specs.Prelude.{◌≡◌, ◌<◌, ◌++◌, length, OnOk};
ghost use Rattle.pg_out_steps.specs.Lines.{name_at};
ghost use Rattle.pg_out_steps.specs.Dump.{declared_text, head_text, instr_line, instrs_text, named_text, signal_line, signals_text};

use crate::Monitor;
use crate::signal::{Signal, signals_of};
use pg_mach_ready::Machine;
use pg_text::dec;
use std::alloc::AllocError;

/// Pushes the head of the dump of a machine: its instructions with their numbers, and the signals.
#[tactic(auto, unfolding(crate::specs::Dump::head_text))]
pub fn push_head(
    text: &mut Vec<u8>,
    m: &Machine,
    monitor: Option<Monitor>,
) -> Result<(), AllocError>
    ensures { OnOk result (text.new.items ≡ text.old.items ++ head_text monitor m.now.desc) }
{
    text.extend_from_slice(b"$version pg_trace $end\n$comment a step is a unit of time $end\n")?;
    push_instrs(text, m)?;
    text.extend_from_slice(b"$timescale 1 ns $end\n$scope module machine $end\n")?;
    push_signals(text, signals_of(monitor))?;
    text.extend_from_slice(b"$upscope $end\n$enddefinitions $end\n")?;
    Ok(())
}

/// Pushes the number and the name of each instruction.
#[tactic(auto, unfolding(crate::specs::Dump::instrs_text))]
fn push_instrs(text: &mut Vec<u8>, m: &Machine) -> Result<(), AllocError>
    ensures { OnOk result (text.new.items ≡ text.old.items ++ instrs_text m.now.desc (length m.now.desc.instrs)) }
{
    for k in 0..m.count() {
        push_instr(text, m, k)?;
    }
    Ok(())
}

/// Pushes the number and the name of an instruction.
fn push_instr(text: &mut Vec<u8>, m: &Machine, k: usize) -> Result<(), AllocError>
    requires { k < length m.now.desc.instrs }
    ensures { OnOk result (text.new.items ≡ text.old.items ++ instr_line k (name_at m.now.desc k)) }
{
    text.extend_from_slice(b"$comment instr ")?;
    text.extend_from_slice(dec(k as u64).as_slice())?;
    push_named(text, instr_name(m, k))
}

/// The name of an instruction.
fn instr_name(m: &Machine, k: usize) -> &[u8]
    requires { k < length m.now.desc.instrs }
    ensures { result.now ≡ name_at m.now.desc k }
{
    m.desc.instrs.as_slice()[k].name.as_bytes()
}

/// Pushes a space, a name, and the end of a declaration.
fn push_named(text: &mut Vec<u8>, name: &[u8]) -> Result<(), AllocError>
    ensures { OnOk result (text.new.items ≡ text.old.items ++ named_text name.now) }
{
    text.push(b' ')?;
    text.extend_from_slice(name)?;
    text.extend_from_slice(b" $end\n")
}

/// Pushes the declarations of signals.
#[tactic(auto, unfolding(crate::specs::Dump::signals_text))]
fn push_signals(text: &mut Vec<u8>, signals: &[Signal]) -> Result<(), AllocError>
    ensures { OnOk result (text.new.items ≡ text.old.items ++ signals_text signals.now) }
{
    for signal in signals {
        push_signal(text, *signal)?;
    }
    Ok(())
}

/// Pushes the declaration of a signal.
fn push_signal(text: &mut Vec<u8>, signal: Signal) -> Result<(), AllocError>
    ensures { OnOk result (text.new.items ≡ text.old.items ++ signal_line signal) }
{
    text.extend_from_slice(b"$var reg ")?;
    text.extend_from_slice(dec(u64::from(signal.bits())).as_slice())?;
    push_declared(text, signal)
}

/// Pushes the letter and the name of a signal.
fn push_declared(text: &mut Vec<u8>, signal: Signal) -> Result<(), AllocError>
    ensures { OnOk result (text.new.items ≡ text.old.items ++ declared_text signal) }
{
    text.push(b' ')?;
    text.push(signal.letter())?;
    push_named(text, signal.name())
}
