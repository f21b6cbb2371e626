//! What a search for an assignment goes by: which variable is assigned next and how, and when the search begins anew.
//!
//! The contracts ask of it no more than that a literal which it gives is unset (*IsFree*, `specs/Free.antt`). Answers are right
//! whatever it says, and only the time that they take depends on it; so anybody may try things here.
//!
//! # Modules
//!
//! - `guide`: what is asked. `heap`: variables by how much they took part in conflicts. `pace`: when the search begins anew.
//! - `plan`: variables that may be equal, which are `pairs` of `gates` with the same `marks`.
//! - `free`: literals, and whether they may be assigned.
#![tactic(auto)]

mod free;
mod gates;
mod guide;
mod heap;
mod marks;
mod pace;
mod pairs;
mod plan;

pub use free::{literal_of, negation};
pub use guide::Guide;
