//! Bodies of instructions as gates: all ways through a body at once, on registers and cells that are gates.
//!
//! A question about an instruction is asked of a circuit, in which registers and the cells that a run touches are strings of
//! gates. `run_symbolic` makes such a run. There is no control flow in it: each statement is made, under a guard that says
//! whether its place is reached, and a trap of either kind is a gate, after which no place is reached. So one run stands for
//! those of all registers and storages.
//!
//! What is made is part of each contract, since whoever writes the circuit down counts its nodes: `specs/Exprs.antt`,
//! `specs/Stmts.antt` and `specs/Body.antt` say it, one small definition a form, in the order of the definitions of bodies
//! (`pg_lang_meaning`). What the gates mean is said of those definitions alone, in `laws`: for all inputs, and for every storage
//! that agrees with the touched cells, a run tells what the body comes to.
//!
//! # Modules
//!
//! - `symbolic`: the call. `regs`: registers as gates. `entry`: what a body reads.
//! - `stmts`: statements, blocks and ifs. `run`: a body under way, and single statements.
//! - `exprs`: expressions. `guards`: accesses. `operate`, `names`, `literal`: what they are made of. `lets`: lets.
//! - `laws`: what the gates mean.
#![tactic(auto)]

mod entry;
mod exprs;
mod guards;
pub mod laws;
mod lets;
pub mod literal;
mod names;
mod operate;
mod regs;
mod run;
mod stmts;
mod symbolic;

pub use regs::Regs;
pub use symbolic::{SymOutcome, SymWriteList, run_symbolic};
