//! Lists that are changed in place, kept, and gone back to.
#![tactic(auto)]

mod trail;

pub use trail::Trail;
