//! Which vertices can be reached over the edges between numbered vertices, where only some vertices may
//! be passed through.
#![tactic(auto)]

mod along;
mod laws;
mod search;

pub use along::{reach_along, reach_through};
pub use laws::{join_law, monotone_law, no_repeats_law, reverse_law, split_law};
pub use search::{Edges, reach};
