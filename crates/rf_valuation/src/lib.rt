//! The values of a problem's predicates, as a document.
#![tactic(auto)]

mod lines;
mod valuation;

pub use valuation::valuation_of;
