//! What a command line may ask for, as plain data, and how each command is called.
//!
//! [`commands`] lists the commands of the program, and [`CommandName::synopsis`] is their table: a row for each, with its name,
//! its arguments in order, and its line of usage. The line is proved to be the one that the name and the arguments make. Who
//! reads words builds the command line of the rows, and who tells how the program is called puts their lines.
//!
//! A [`Request`] is what words ask for, with a variant for each command, and a [`Fault`] is why there is none. The values of
//! arguments are types that keep their ranges. Nothing here reads a word: crates that only carry requests out stand on this
//! one, and not on what the reading costs.
//!
//! A command is a module of its own, as [`print`](PrintWords): its words, and how it is called. A command more is such a
//! module in the code and in the definitions; a variant of [`Request`] and of [`CommandName`]; and a line in each place where
//! commands are listed: `commands` and `synopsis` (`names.rt`, `specs/Commands.antt`).
//!
//! # Modules
//!
//! - `ask`: what is asked for, and why there is nothing that is asked for. `names`: the commands and their table. `synopsis`:
//!   how a command is called, as plain data.
//! - `bare`, `check`, `verify`, `replay`, `run`, `print`, `generating` (the command `gen`), `migrate`, `hcheck`, `hybrid`, `nest`,
//!   `asm`, `disasm`, `save`, `resume`: the commands.
//! - `running`: the arguments of commands that run images. `values`: what arguments give.
#![tactic(auto)]

mod ask;
mod asm;
mod bare;
mod check;
mod disasm;
mod generating;
mod hcheck;
mod hybrid;
mod migrate;
mod names;
mod nest;
mod print;
mod replay;
mod resume;
mod run;
mod running;
mod save;
mod synopsis;
mod values;
mod verify;

pub use ask::{Fault, Request};
pub use asm::AsmWords;
pub use bare::BareWords;
pub use check::CheckWords;
pub use disasm::DisasmWords;
pub use generating::GenWords;
pub use migrate::MigrateWords;
pub use names::{CommandName, commands};
pub use nest::NestWords;
pub use print::PrintWords;
pub use replay::ReplayWords;
pub use resume::ResumeWords;
pub use run::RunWords;
pub use save::SaveWords;
pub use synopsis::{Argument, Range, Synopsis};
pub use values::{Budget, Count, Depth, FileName, Grant, Images, Skip, Slice, Steps};
pub use verify::VerifyWords;
