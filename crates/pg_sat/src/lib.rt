//! A solver of clauses that logs what it learns.
//!
//! `solve` looks for an assignment that makes all clauses true: it assigns a variable, sets what follows by unit propagation,
//! and learns a clause at each conflict. Each answer comes with its evidence: an assignment, or a log of steps that `pg_proof`
//! takes (clause learning: GRASP, Marques-Silva and Sakallah, 1996; Chaff, Moskewicz and others, 2001).
//! `specs/Answers.antt` says what the answers mean.
//!
//! Where a clause is false under a trail of literals, the literals that are to blame are traced back along the trail. The
//! clause that is learned says that they are not all as they are; its hints are the clauses that it was resolved from.
//! `specs/Cut.antt` says what is traced.
//!
//! # Modules
//!
//! - `solver`: the calls. `answer`: what they answer. `watching`: who is told how far a search has come.
//! - `turn`: one turn of the search. `search`: a literal that is assigned, and what follows. `conflict`: what is done at a
//!   conflict. `jump`: how far the trail is cut then.
//! - `learn`: the step that a conflict teaches. `trace`: the conflict, traced back along the trail. `flags`: the literals that a
//!   trace has come to. `shrink`: fewer of them. `draw`: the step that they make.
//! - `decide`: what is assigned next. What that goes by is `pg_sat_guide`'s.
#![tactic(auto)]

mod answer;
mod conflict;
mod decide;
mod draw;
mod flags;
mod jump;
mod learn;
mod search;
mod shrink;
mod solver;
mod trace;
mod turn;
mod watching;

pub use answer::{Answer, Assignment, StepList};
pub use conflict::clause_of;
pub use decide::{assignment_of, choose};
pub use jump::{cut_place, last_assigned};
pub use learn::{Learned, learn_at, refute};
pub use pg_sat_guide::Guide;
pub use solver::{Counts, solve, solve_counted, solve_watched};
pub use watching::{SearchWatcher, Silent};
