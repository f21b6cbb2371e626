//! Runs an image on a bare machine, and shows each step.
//!
//!     pg_trace DESC IMAGE --grant G --steps N [--until E] [--cert CERT] [--only-traps] [--counts] [--json | --vcd]
//!
//! A line for each step: its number, the mode and P before it, the word that was fetched, the instruction with its fields, and
//! what it changed. That is each cell that it stored into, with its new word; P where it is not the address behind; mode and R
//! where they are others than before. A step that traps tells its cause, the word that it stored in cell 0, and the mode and P
//! at which the machine goes on. A fetch outside the window has no word, and a dash stands there.
//!
//! Behind the steps stand the counts: of the steps by instruction, of the traps by cause, and of all steps. At the end is the
//! state, as `pgv bare` writes it.
//!
//! - `--grant G`: how many cells the machine is given, 2 to 1,048,575. `--steps N`: how many steps are done, 0 to 1,000,000.
//! - `--until E`: the run ends behind the first number of steps, N at most, at which E holds. `still`: the next step leaves the state as
//!   it is, as a jump to itself does, and so does every later one. `trap`: the last step trapped. `P=A`, A from 0 to 1,048,575: P is A.
//!   All that is written is then what is written for so many steps.
//! - `--cert CERT`: a certificate of the machine, of either family. A line begins with `direct` or `emulated`: whether the hardware
//!   would do the step, or the monitor that may run the machine. Behind the counts stand `direct N` and `emulated N`.
//! - `--only-traps`: only the steps that trap have a line.
//! - `--counts`: no step has a line, and there is no state: the counts are all that is written.
//! - `--json`: the same as one JSON object (`json`). `--vcd`: a value change dump (`vcd`). Neither stands beside `--only-traps`,
//!   `--counts` or the other.
//!
//! Words that are not taken are answered by the usage (3). The other refusals have the lines and statuses of `pgv`, in the order of
//! `pgv bare`: the description (4), the room (7), the image (5). With `--cert` they are those of `pgv run`: the room is beside the
//! cells that a monitor keeps, and behind the image come the certificate (6) and a verdict that does not accept the machine, which is
//! written (1, 2). The status is 8 where a file cannot be read, 9 where the output cannot be written, 10 where memory is refused, and
//! 11 where a file is not there. What was put before a fault stays. No file is saved.
//!
//! As text or as a dump, on 0 the state is the one that `pgv bare` reaches in the steps done. What each status means is a clause (`run`,
//! `carry`, `carry_vcd`, `carry_json`), which says less of the run as a dump or as JSON.
//!
//! - `trace`: the call. `request`: the words. `prepare`: the files, to a `plan`. `work`: what there is to do, with what is kept of a
//!   certificate. `monitor`: the monitor of its family. `until`: how many steps are done of a run that ends before. `carry`: the run and
//!   its text. `json`: the same as JSON; `vcd`: as a value change dump.
#![tactic(auto)]

mod carry;
mod json;
mod monitor;
mod plan;
mod prepare;
mod request;
mod trace;
mod until;
mod vcd;
mod work;

pub use trace::{USAGE, run};
