//! Shapes, program status words and numbers of n bits: the arithmetic that every layer above shares.
//!
//! A *shape* is the numbers of a machine: word width, address width, greatest size, and whether a trap stores its
//! cause. A *program status word* (mode, P, l, b) is packed into one word of storage and back here, and only here; the one
//! with which a machine is switched on is made here. The window that the relocation-bounds register (l, b) opens is
//! measured here, and the three *causes* of a trap have their numbers here. The n-bit functions are those of the
//! description language's expressions: each is the arithmetic one, for every width from 1 to 64.
//!
//! All of it takes no memory and refuses nothing: what a call needs of its numbers stands in its `requires`.
//!
//! # Modules
//!
//! - `shape`: the numbers of a machine. `psw`: program status words, their words, the cells of a trap, and windows. `cause`: why a
//!   step traps.
//! - `bits`: numbers of n bits. `bytes`: words as bytes.
//! - `sparse`: states of which only the cells that are not zero are listed.
//! - `laws`: what follows from the definitions alone.
#![tactic(auto)]

pub mod bits;
pub mod bytes;
mod cause;
pub mod laws;
mod psw;
mod shape;
mod sparse;

pub use cause::Cause;
pub use psw::{Mode, NEW_PSW_CELL, OLD_PSW_CELL, Psw, pack, pack_trap, unpack, window_len};
pub use shape::Shape;
pub use sparse::{CellList, Sparse};
