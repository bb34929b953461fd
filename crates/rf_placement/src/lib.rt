//! Graphs that a state stands for, and what holds of them.
#![tactic(auto)]

mod laws;

pub use laws::{added_law, root_law, value_law};
