//! How much a problem text may declare.
//!
//! `specs/Limits` has the limits and says which byte offsets are past them; `limits` answers the earliest.
#![tactic(auto)]

mod excess;
mod kind;
mod named;
mod variables;

pub use excess::{PastLimit, limits};
pub use kind::LimitKind;
