//! Which decisions are allowed.

/// The first group of decisions of which some is allowed.
#[derive(Clone, Copy, Debug, PartialEq, Eq)]
pub enum Choices {
    /// No decision is allowed.
    Nothing,
    /// Of the group of this number, 0 of fresh objects, 1 of classes, 2 of edges, so many are allowed, at least
    /// one.
    Group { number: u8, size: u64 },
}
