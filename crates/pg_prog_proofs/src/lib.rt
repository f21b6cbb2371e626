//! Questions and logs as other solvers and checkers have them, for programs beside `pgv`, each a module.
//!
//! `dimacs`: the clauses of a question. `export`: the log of a finding that is refuted. `import`: what another solver found is taken into a
//! certificate. `solve`: a formula of a file, solved.
#![tactic(auto)]

pub mod dimacs;
pub mod export;
pub mod import;
pub mod solve;
