use rf_values::Count;

/// A bound on the number of nodes. Its number is its place in the problem's list of scopes, from 0.
#[derive(Clone, Copy, Debug, PartialEq, Eq)]
pub struct Scope {
    /// The class of the nodes that it counts, or None for all nodes.
    pub class: Option<u32>,
    /// Whether only nodes count that come from a `C::new`.
    pub only_new: bool,
    pub range: Count,
}
