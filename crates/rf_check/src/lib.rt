//! The checker of refinement trees: it goes over their lines one by one and keeps the states that are left to close.
#![tactic(auto)]

mod checker;
mod judge;
mod laws;
mod pending;
mod sides;
mod verdict;
mod verifier;

pub use checker::Checker;
pub use judge::CheckerJudge;
pub use laws::{rejected_law, verdict_law};
pub use verdict::TreeVerdict;
pub use verifier::TreeVerifier;
