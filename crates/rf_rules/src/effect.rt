//! What rules do to a state.

use rf_values::{ClassSet, Truth};

/// What a rule does.
#[derive(Clone, Copy, Debug)]
pub enum Effect {
    /// The state has no graph.
    Close,
    /// An object has at most so many nodes.
    AtMost(u64, u64),
    /// An object has at least so many nodes.
    AtLeast(u64, u64),
    /// An object keeps the candidates that are among these classes.
    Keep(u64, ClassSet),
    /// An object loses them.
    Lose(u64, ClassSet),
    /// A truth is merged into what was added of an edge of a reference from one object to another.
    Merge(u32, u64, u64, Truth),
}
