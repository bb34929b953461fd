//! The rules that clauses keep: each of their variables can be quantified, and no predicate calls
//! itself.
//!
//! For each of the two `specs/ClauseOffsets` says at which byte offsets of a text it is broken, and one
//! function here answers the least of them. How variables occur and what clauses call is gathered in
//! one pass each (`specs/Occurrences`, `specs/Calls`).
#![tactic(auto)]

mod calls;
mod loose;
mod occurrence;
mod recursion;

pub use loose::loose_variable;
pub use recursion::recursive;
