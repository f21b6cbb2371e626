//! Tests of the top call in memory, of what no file shows: calls of the outside that fail one by one, and what was done on the
//! hardware.
//!
//! A command is a row of a table: a line of words, on files that are a table too. Each test goes through rows, and each row through
//! one helper. What a command leaves, text, files, counts and pokes, is compared as text. A command more is a row more.
//!
//! - `setting`: files, output and a hardware that is watched, all in memory. `texts`: descriptions and images.
//! - `commands`: each command, with how many calls of the shelf it makes. `calls`: such a call fails. `puts`: a put fails.
//!   `memory`: an allocation fails, if `fuzz/refused-memory` refuses one. `fronts`: a file is broken off at any byte.
//! - `counts`: steps, pokes and loads of runs, and cells of the hardware behind them. `beside`: eight guests at a time, by many
//!   plans. `spied`: guests that reach for what is not theirs, on a hardware whose pokes are watched.
//! - `watched`: who is told of questions, stops and verdicts.
#![tactic(auto)]

#[cfg(test)]
mod beside;
#[cfg(test)]
mod calls;
#[cfg(test)]
mod commands;
#[cfg(test)]
mod counts;
#[cfg(test)]
mod fronts;
#[cfg(test)]
mod memory;
#[cfg(test)]
mod puts;
#[cfg(test)]
mod setting;
#[cfg(test)]
mod spied;
#[cfg(test)]
mod texts;
#[cfg(test)]
mod watched;
