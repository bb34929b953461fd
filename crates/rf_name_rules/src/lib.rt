//! The rules that each name keeps: it is declared once, and stands for one thing.
//!
//! For each rule `specs/NameOffsets` says at which byte offsets of a text it is broken, and one function
//! here answers the least of them.
#![tactic(auto)]

mod ambiguity;
mod repeats;
mod unknowns;

pub use ambiguity::ambiguous;
pub use repeats::twice;
pub use unknowns::unknown;
