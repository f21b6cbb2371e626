//! The logs of a certificate's text.

ghost use Rattle.std.specs.Prelude.{◌≡◌, ◌<◌, ◌==◌, length, position, IfOk, IfSome, OnOk};
ghost use Rattle.pg_word.specs.Shape.{IsShape};
ghost use Rattle.pg_cert.specs.Parsing.{said};
ghost use Rattle.pg_cert_migrate.specs.Logs.{with_act, with_line, with_said, AreLogsOf};

use pg_cert::{Line, LineFault, parse_line};
use pg_proof::{Act, ActList};
use pg_word::Shape;
use sqlite_items::Items;
use std::alloc::{AllocError, Global};

/// Logs in order.
pub type LogList = Items<ActList>;

/// The place of the first LF.
fn place_of_lf(bytes: &[u8]) -> Option<usize>
    ensures place { result ≡ position (λ c. c == 10) bytes.now }
    ensures within { IfSome result (λ place. place < length bytes.now) }
{
    bytes.iter().position(|byte| *byte == b'\n')
}

/// An act more of the last log.
fn add(logs: &mut LogList, act: Act) -> Result<(), AllocError>
    ensures { OnOk result (logs.new ≡ with_act logs.old act) }
{
    match logs.pop() {
        None => Ok(()),
        Some(last) => {
            let mut log = last;
            log.push(act)?;
            logs.push(log)
        }
    }
}

/// What a line does to the logs above it.
fn take_form(alloc: Global, line: Line, logs: &mut LogList) -> Result<(), AllocError>
    ensures { OnOk result (logs.new ≡ with_line logs.old line) }
{
    match line {
        Line::First(_) => Ok(()),
        Line::Header(_, _, _) => logs.push(ActList::new(alloc)),
        Line::Step(step) => add(logs, Act::Add(step)),
        Line::Remove(numbers) => add(logs, Act::Remove(numbers)),
        Line::Size(_) => Ok(()),
        Line::Psw(_) => Ok(()),
        Line::Cells(_, _) => Ok(()),
        Line::End => Ok(()),
    }
}

/// What bytes do that may be a line: where they say nothing, nothing.
fn take_line(
    alloc: Global,
    shape: &Shape,
    bytes: &[u8],
    logs: &mut LogList,
) -> Result<(), AllocError>
    requires { IsShape shape.now }
    ensures { OnOk result (logs.new ≡ with_said logs.old (said shape.now bytes.now)) }
{
    match parse_line(alloc, shape, bytes) {
        Ok(line) => take_form(alloc, line, logs),
        Err(LineFault::Token) => Ok(()),
        Err(LineFault::Grammar) => Ok(()),
        Err(LineFault::Version(_)) => Ok(()),
        Err(LineFault::Memory) => Err(AllocError),
    }
}

/// The logs of a text, one below each header. It costs the length of the bytes.
pub fn logs_of(alloc: Global, shape: &Shape, bytes: &[u8]) -> Result<LogList, AllocError>
    requires { IsShape shape.now }
    ensures { IfOk result (AreLogsOf shape.now bytes.now) }
{
    let mut logs = LogList::new(alloc);
    let mut left = bytes;
    while let Some(end) = place_of_lf(left) {
        let (line, rest) = left.split_at(end + 1);
        take_line(alloc, shape, line, &mut logs)?;
        left = rest;
    }
    Ok(logs)
}
