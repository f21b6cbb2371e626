//! Grants of a storage: runs of its cells that no two owners share, placed by first fit.
//!
//! A monitor gives each guest a grant. Cells 0 and 1 it keeps for traps, so grants lie in the cells from 2 on. A grant is
//! placed at the least base at which so many cells are free, and its cells are free again once it is released. Grants are
//! kept in the order of their bases, so that one walk over them finds the first gap that is large enough: the time of a
//! call grows with the grants, not with the storage.
//!
//! # Modules
//!
//! - `grants`: the grants of a storage: how one is made, and how it is released.
//! - `gap`: the first gap between them. `fault`: why a call was refused.
//! - `laws`: where a grant is placed, and that no cell is in two.
#![tactic(auto)]

mod fault;
mod gap;
mod grants;
pub mod laws;

pub use fault::{GrantFault, NotGranted};
pub use gap::KEPT_CELLS;
pub use grants::Grants;
