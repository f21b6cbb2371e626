//! Who watches a command of `pgv` or of a program beside it: how far it has come, and at the end all that is to be said on standard
//! error.
//!
//! Nothing here is seen on standard output or in a status. A program makes a [`Holding`] over its shelf and a [`Beside`] over standard
//! output, lends a [`Watching`] to what it calls, and tells it at the end how it ended. That a line cannot be written changes
//! nothing. The sentences are of `pg_cli_says`.
//!
//! - `watching`: who watches a command.
//! - `ticker`: what says from time to time how far a long command has come; `rhythm`, when it looks at the clock; `reading`, how far a
//!   long file has been read.
//! - `screen`: standard output and the line of progress, which may lie on one terminal.
//! - `held`: what was read of the file that was asked for last. `pointing`: where a refused file is at fault.
#![tactic(auto)]

mod held;
mod pointing;
mod reading;
mod rhythm;
mod screen;
mod ticker;
mod watching;

pub use held::{Holding, LastRead};
pub use reading::Reading;
pub use screen::Beside;
pub use ticker::{Lines, Ticker};
pub use watching::{Ended, Seen, Watching};
