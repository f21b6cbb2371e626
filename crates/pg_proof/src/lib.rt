//! A checker of refutations: logs that show, step by step, that clauses cannot all be true.
//!
//! A log is checked by reverse unit propagation with hints, as LRAT logs are (Cruz-Filipe and others, 2017): each step adds
//! a clause, and names the clauses that show it. `Checker` holds the clauses, and takes a step only where they do: so where
//! it has taken the empty clause, no assignment makes all clauses of the question true, whoever wrote the log.
//!
//! It shares nothing with a solver but the literals. `specs/Refutation.antt` says what a valid step is.
//!
//! # Modules
//!
//! - `step`: what a log is made of, and why a step is refused. `question`: what is taken of a question. `store`: clauses by their numbers.
//! - `checker`: the checker and its calls. `propagation`: whether a step is valid. `removal`: clauses that are taken away.
//! - `tight`: whether a step is the resolvent of its hints' clauses. `cover`: whether a clause held is part of some literals.
//! - `marks`: flags that are all taken down at once.
//! - `replay`: whole logs. `trimming`: the steps of a log that show something. `tidying`: removals behind the last use of clauses.
//! - `laws`: what the definitions of a refutation say.
#![tactic(auto)]

mod checker;
mod cover;
pub mod laws;
mod marks;
mod propagation;
mod question;
mod removal;
mod replay;
mod step;
mod store;
mod tidying;
mod tight;
mod trimming;

pub use checker::Checker;
pub use replay::is_refutation;
pub use step::{Act, HintList, LitList, ProofFault, Step};
pub use trimming::{ActList, trim};
