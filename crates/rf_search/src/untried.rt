//! Decisions whose other side is untried.

use rf_decide::Counted;
use rf_rules::Decision;

/// A decision that was taken, of which only one side was tried.
#[derive(Debug, Drop)]
pub struct Untried {
    /// The place of the state in which it was taken among those that are kept.
    pub version: u64,
    pub decision: Decision,
    /// Whether its first side was tried.
    pub first: bool,
    /// What was counted where it was taken.
    pub counted: Counted,
}
