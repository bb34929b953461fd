//! Decisions.

/// What may be decided where no rule fires.
#[derive(Clone, Copy, Debug, PartialEq, Eq)]
pub enum Decision {
    /// Whether an object has one node more than its others, or none.
    Fresh(u64),
    /// Whether the node of an object has a class below this one.
    Kind(u64, u32),
    /// Whether there is an edge of a reference from one object to another.
    Ref(u32, u64, u64),
}
