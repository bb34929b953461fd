//! Which decision a search takes: by a word of its seed, one of the first group of which some is allowed.
#![tactic(auto)]

mod choosing;
mod counted;
mod counted_lists;
mod edge_rows;
mod first_group;
mod groups;
mod laws;
mod limit;
mod lists;
mod rows;
mod sizes;
mod words;

pub use choosing::{choices, choose, member};
pub use counted::{Counted, choose_counted};
pub use first_group::Choices;
pub use laws::choice_law;
pub use limit::MOST_OBJECTS;
pub use words::Words;
