//! Bit strings over the gates of a circuit, and the operations on them.
//!
//! A string is 1 to 64 gates, bit 0 first; where the nodes of the circuit have values it is a number, and
//! `specs/Number.antt` says which. For each function of the description language's expressions `ops` has the operation
//! that builds it of ands and exclusive ors, and `specs/Strings.antt` says exactly of which: ripple carry adders, sums of
//! rows, shifts in stages. Whoever builds circuits of these rests on those definitions alone.
//!
//! That an operation is worth what `pg_word` computes is one fact for all widths, `MakesBits` of `specs/Makes.antt`: what
//! was there stays, few nodes are added, the gates are there, and in each circuit that begins so, the number of the
//! result is the function of the numbers of the operands. It speaks of the values of whatever circuit comes of it later,
//! so that facts on one operation after another are on the same values and join without more ado.
//!
//! `gate` and `compare` are for those who build further strings of the same gates, and count their nodes: each call says
//! exactly how many it adds at most.
//!
//! # Modules
//!
//! - `bits`: strings. `ops`: the operations on them. `pairwise`, `sum`, `product`, `shift`: what these are made of.
//! - `gate`: single gates. `compare`: gates that compare two strings.
//! - `laws`: what follows from the definitions alone.
#![tactic(auto)]

mod bits;
pub mod compare;
pub mod gate;
pub mod laws;
pub mod ops;
mod pairwise;
mod product;
mod shift;
mod sum;

pub use bits::Bits;
