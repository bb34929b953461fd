//! The rules of structure: what names stand for fits together.
//!
//! For each rule `specs/StructureOffsets` says at which byte offsets of a text it is broken, and one
//! function here answers the least of them.
#![tactic(auto)]

mod arities;
mod containers;
mod cycles;
mod equals;
mod opposites;
mod ranges;

pub use arities::arity;
pub use containers::bad_container;
pub use cycles::class_cycle;
pub use equals::equals_two;
pub use opposites::bad_opposite;
pub use ranges::bad_range;
