//! Guards, and what is found of a machine with them.
//!
//! A guard is `if mode { trap; }` before the body of an instruction: with it the instruction traps in user mode, whatever its
//! word. `guarded` puts guards into a description, and `ask_guarded` asks whether the machine is then accepted. `find` asks
//! the questions of a machine as it stands. What is found is kept as the marks of a certificate, and what their verdict means is
//! `VerdictMeans`.
//!
//! Whoever mends a description wants to keep its text: comments, the layout, `_` in patterns. So `mended_text` puts
//! ` if mode { trap; }` behind the brace of each body that is to have the guard, and leaves every other byte as it was, and each in its
//! line. Nothing is believed of that: the new text is read again, and taken only where it reads as the description with guards
//! that was asked about. So it rests on the reader, and not on where the guards were put. Where it does not read so, as where the text
//! became too long to be read, the description is printed.
//!
//! - `guard`: guards are put. `broken`: the instructions that want one. `asking`: what is found.
//! - `places`: behind which braces guards are put in a text. `putting`: they are put. `mended`: the text is judged.
#![tactic(auto)]

mod asking;
mod broken;
mod guard;
mod mended;
mod places;
mod putting;

pub use asking::{GuardedMachine, ask_guarded, find};
pub use broken::{broken_instrs, marks_at};
pub use guard::guarded;
pub use mended::{Layout, MendedText, mended_text};
