//! Which values of predicates, and which walks, an edit of a state leaves as they were.
#![tactic(auto)]

mod laws;

pub use laws::{compare_law, edit_law, fresh_law, kept_law, parameter_law, rest_law, table_law};
