//! A search that forgets learned clauses it does not need.
//!
//! `pg_sat` keeps all that it learns, since the log of a question that stays open has to be new step by step. A refutation needs
//! less: its steps are valid. So `find` looks for an answer with few clauses at hand: from time to time it lets go of learned
//! clauses, and all that it learned stays in the log alone. `solve` answers as `pg_sat` does: it searches so first, and asks
//! `pg_sat` only where that spent the budget. `specs/Findings.antt` says what is found.
//!
//! What is forgotten follows Glucose (Audemard and Simon, 2009): a clause is worth the more, the fewer levels of decisions its
//! literals were on when it was learned, its glue. Clauses are not taken out one by one: the clauses that are held are made anew,
//! where nothing is assigned. So a clause has a number there, and another in the log: `specs/Held.antt`.
//!
//! # Modules
//!
//! - `solver`: the calls that answer. `search`: those that find, and may find nothing. `found`: what they find.
//! - `turn`: one turn of a search. `learn`: what is done at a conflict. `renumber`: a step under the numbers of the log.
//! - `held`: the clauses that are held. `rebuild`: those that are kept, made anew.
//! - `course`: what the search goes by, of which nothing is said in contracts: `glue`, the levels of a clause; `keep`, which clauses
//!   are kept; `pace`, when the search begins anew and when it forgets; `walk`, a local search beside it.
#![tactic(auto)]

mod course;
mod found;
mod glue;
mod held;
mod keep;
mod learn;
mod pace;
mod rebuild;
mod renumber;
mod search;
mod solver;
mod turn;
mod walk;

pub use found::Found;
pub use search::{find, find_counted, find_watched};
pub use solver::{solve, solve_counted, solve_watched};
