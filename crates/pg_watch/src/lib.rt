//! Unit propagation with two watched literals a clause.
//!
//! `Watches` holds clauses and a trail of literals that are set. A clause that is unit sets its last literal, until nothing is
//! left or a clause is falsified: `specs/Trail.antt` says what these words mean. From below: `arena` has the clauses
//! and `assignment` the trail with the values of all literals; `look` goes through one clause; `lists` and `index` say which
//! clauses watch which literals; `visit`, `walk` and `queue` draw what follows from one visit, one list and all that was set;
//! `fresh` looks at clauses that watch none, `attach` finds literals for them, and `settle` joins both. `watches` has the calls,
//! and `fix` says where propagation ends.
#![tactic(auto)]

mod arena;
mod assignment;
mod attach;
mod fix;
mod fresh;
mod index;
mod lists;
mod look;
mod queue;
mod settle;
mod visit;
mod walk;
mod watches;

pub use fix::Fix;
pub use watches::Watches;
