//! States that are edited, whose values are computed from scratch.
#![tactic(auto)]

mod scratch;

pub use scratch::Scratch;
