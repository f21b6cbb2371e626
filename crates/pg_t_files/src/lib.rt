//! Tests of the edges: shelves, sinks and streams, in memory and over the system's, and what is said on standard error.
//!
//! A shelf in memory and one over files of the system are asked the same and answer the same. Readers and writers here are slow, are
//! interrupted, and fail on the way, which no file and no pipe does where it is wanted. What comes of a call is a text, and is
//! compared with the text of its row.
//!
//! - `shelves`, `sinks`: the same calls in memory and on the system's. `streams`: reads of a stream that fails on the way.
//! - `telling`: what is said on standard error.
#![tactic(auto)]

#[cfg(test)]
mod shelves;
#[cfg(test)]
mod sinks;
#[cfg(test)]
mod streams;
#[cfg(test)]
mod telling;
