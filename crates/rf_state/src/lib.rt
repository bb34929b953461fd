//! States of partial knowledge: objects that stand for nodes, and what is known of the facts between
//! them.
#![tactic(auto)]

mod class_sets;
mod copies;
mod evaluator;
mod facts;
mod laws;
mod lists;
mod named_ends;
mod object;
mod root;
mod state;
mod stated;
mod view;

pub use evaluator::{Evaluator, evaluate};
pub use facts::Facts;
pub use laws::{fact_law, fresh_law, keep_law, narrow_law, root_law, value_law};
pub use object::Object;
pub use state::State;
pub use view::{Edit, View};
