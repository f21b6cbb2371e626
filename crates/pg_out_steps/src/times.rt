//! The text of a time. Each error is out of memory.

ghost use Rattle.std.specs.Prelude.{◌≡◌, [], ◌∷◌, ◌++◌, OnOk};
ghost use Rattle.pg_out_steps.specs.Values.{bits_text, change_text, changes_text, digits_text, sample_text, value_text};

use crate::sample::{Sample, has_stayed};
use crate::signal::Signal;
use pg_text::dec;
use std::alloc::AllocError;

/// Pushes a time, and the values of the signals that are other ones than before; all of them where there are none before.
#[tactic(auto, unfolding(crate::specs::Values::sample_text))]
pub fn push_sample(
    text: &mut Vec<u8>,
    time: u64,
    signals: &[Signal],
    before: Option<Sample>,
    sample: &Sample,
) -> Result<(), AllocError>
    ensures { OnOk result (text.new.items ≡ text.old.items ++ sample_text time signals.now before sample.now) }
{
    text.push(b'#')?;
    text.extend_from_slice(dec(time).as_slice())?;
    text.push(b'\n')?;
    push_changes(text, signals, before, sample)
}

/// Pushes the values of signals that are other ones than before.
#[tactic(auto, unfolding(crate::specs::Values::changes_text))]
fn push_changes(
    text: &mut Vec<u8>,
    signals: &[Signal],
    before: Option<Sample>,
    sample: &Sample,
) -> Result<(), AllocError>
    ensures { OnOk result (text.new.items ≡ text.old.items ++ changes_text before sample.now signals.now) }
{
    for signal in signals {
        push_change(text, *signal, before, sample)?;
    }
    Ok(())
}

/// Pushes the value of a signal, where it is another one than before.
fn push_change(
    text: &mut Vec<u8>,
    signal: Signal,
    before: Option<Sample>,
    sample: &Sample,
) -> Result<(), AllocError>
    ensures { OnOk result (text.new.items ≡ text.old.items ++ change_text before sample.now signal) }
{
    if has_stayed(before, sample, signal) {
        Ok(())
    } else {
        push_value(text, signal, sample.value(signal))
    }
}

/// Pushes the value of a signal.
#[tactic(auto, unfolding(crate::specs::Values::value_text))]
fn push_value(text: &mut Vec<u8>, signal: Signal, value: Option<u64>) -> Result<(), AllocError>
    ensures { OnOk result (text.new.items ≡ text.old.items ++ value_text signal value) }
{
    text.push(b'b')?;
    push_digits(text, signal.bits(), value)?;
    text.push(b' ')?;
    text.push(signal.letter())?;
    text.push(b'\n')?;
    Ok(())
}

/// Pushes the bits of a value; `x` where it is unknown.
fn push_digits(text: &mut Vec<u8>, bits: u32, value: Option<u64>) -> Result<(), AllocError>
    ensures { OnOk result (text.new.items ≡ text.old.items ++ digits_text bits value) }
{
    match value {
        None => Ok(text.push(b'x')?),
        Some(value) => push_bits(text, bits, value),
    }
}

/// Pushes the last `n` bits of a number, the highest first.
#[tactic(auto, unfolding(crate::specs::Values::bits_text))]
fn push_bits(text: &mut Vec<u8>, n: u32, number: u64) -> Result<(), AllocError>
    ensures { OnOk result (text.new.items ≡ text.old.items ++ bits_text n number) }
{
    if n == 0 {
        return Ok(());
    }
    push_bits(text, n - 1, number / 2)?;
    text.push(b'0' + (number % 2) as u8)?;
    Ok(())
}
