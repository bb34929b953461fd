/// What a document is as a tree of a problem.
#[derive(Clone, Copy, Debug, PartialEq, Eq)]
pub enum TreeVerdict {
    /// A tree that closes all that the problem leaves, with so many decisions.
    Refuted(u64),
    /// A tree with something left to close, with so many decisions.
    Unfinished(u64),
    /// The line of this number, counted from 1, is the first that can't stand. A line that is missing counts.
    Rejected(u64),
}
