//! Lines.

use rf_rules::{Decision, Rule};

/// What is done to the first of the states that are left to close.
#[derive(Clone, Copy, Debug, PartialEq, Eq)]
pub enum Line {
    /// A rule that is no closing narrows it.
    Step(Rule),
    /// A decision splits it in two; the flag says whether its first side comes first.
    Decide(Decision, bool),
    /// A closing closes it.
    Close(Rule),
}
