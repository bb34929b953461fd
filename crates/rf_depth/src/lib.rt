//! How many decisions a search can take one after another where a scope bounds all nodes, and so how many it can take at all.
#![tactic(auto)]

mod computing;
mod laws;

pub use computing::depth;
pub use laws::{depth_law, longest_law, settled_law};
