//! The commands that go by a description alone: `bare`, `print`, `asm` and `disasm`.
//!
//! - `bare`: a run of a bare machine.
//! - `print`: a description in one layout.
//! - `asm`: a source, assembled, and the image put as text. `disasm`: an image, put as a source that gives it. `machine`: the machine of a
//!   description, where it has the cells that are wanted. `source`: bytes to the image of a source.
#![tactic(auto)]

mod asm;
mod bare;
mod disasm;
mod machine;
mod print;
mod source;

pub use asm::carry_asm;
pub use bare::carry_bare;
pub use disasm::carry_disasm;
pub use print::carry_print;
