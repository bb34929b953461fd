//! Final states and their graphs: where no rule fires and no decision is allowed, the graph of the state
//! satisfies the problem.
#![tactic(auto)]

mod graph;
mod laws;

pub use graph::graph_of;
pub use laws::{concretised_law, final_law, size_law};
