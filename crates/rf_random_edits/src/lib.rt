//! Edits of states in no order that one can see, for tests.
#![tactic(auto)]

mod edits;
mod random;

pub use edits::edit;
pub use random::Random;
