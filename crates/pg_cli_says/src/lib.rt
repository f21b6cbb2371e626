//! What programs of the command line say on standard error: `pgv` and those beside it, by one code.
//!
//! Nothing here is seen on standard output or in a status. That a line cannot be written changes nothing. When each of these is said
//! is of `pg_cli_watch`, which stands above.
//!
//! - `program`: the programs that speak. `named`: what their words name. `args`: the words themselves.
//! - `line`: a line that is put together.
//! - `warning`: what is said before a long search. `why`: why a program ends so. `advice`: what is to be done then.
#![tactic(auto)]

pub mod advice;
mod args;
mod line;
mod named;
mod program;
mod warning;
mod why;

pub use args::{say_no_text, words};
pub use line::Line;
pub use named::{Lacking, Named, Room, WordsWatcher};
pub use program::Program;
pub use warning::warn;
pub use why::say_why;
