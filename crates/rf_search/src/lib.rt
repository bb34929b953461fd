//! The search for a graph: rules that narrow a state are applied until none fires, and then a decision splits it in two.
#![tactic(auto)]

mod changed;
mod generating;
mod knowledge;
mod laws;
mod pending;
mod searching;
mod settling;
mod sides;
mod untried;

pub use changed::change_of;
pub use generating::{Search, generate};
pub use laws::{bound_law, course_law, families_law, narrowing_law, outcome_law, right_law};
pub use pending::{Pending, least, touch};
pub use rf_depth::depth;
pub use searching::search;
pub use settling::settle;
