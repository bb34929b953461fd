//! States in maps with versions: the state that a search edits, goes back to and keeps.
#![tactic(auto)]

mod copies;
mod keys;
mod laws;
mod rows;
mod values;
mod versioned;
mod versions;

pub use laws::look_up_law;
pub use versioned::Versioned;
pub use versions::Versions;
