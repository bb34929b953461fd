//! The rules that narrow a state of partial knowledge, and the decisions that split one in two.
#![tactic(auto)]

mod applying;
mod changes;
pub mod containment;
mod deciding;
mod decision;
pub mod degrees;
mod editing;
mod effect;
mod effects;
mod firing;
mod laws;
pub mod predicates;
mod ranges;
mod rule;
pub mod scopes;
pub mod types;
mod words;

pub use applying::apply;
pub use deciding::{allowed, decide};
pub use decision::Decision;
pub use editing::apply_effect;
pub use effect::Effect;
pub use firing::fires;
pub use laws::{decision_law, effect_law, rule_law};
pub use rule::{End, Rule};
