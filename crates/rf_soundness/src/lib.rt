//! A problem whose states are all closed by a tree of rules and decisions has no graph that satisfies it.
#![tactic(auto)]

mod laws;
mod words;

pub use laws::{
    condition_law, decision_sound_law, effect_sound_law, rule_sound_law, tree_sound_law,
    valid_sound_law,
};
pub use words::forced_law;
