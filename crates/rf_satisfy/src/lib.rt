//! Whether a graph satisfies a problem, and else its first violation.
//!
//! `judge` goes through the kinds of violation in their order, each in a module of its own, and each
//! in about as many steps as there are nodes and edges.
#![tactic(auto)]

mod found;
mod index;
mod judging;
mod kinds;
mod known;
mod least;
mod tables;

pub use judging::judge;
