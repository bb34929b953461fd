use rf_source::SourceError;

/// The most bytes that a problem file may have.
pub const PROBLEM_LIMIT: u64 = 4_194_304;

/// The most bytes that a graph file may have.
pub const GRAPH_LIMIT: u64 = 67_108_864;

/// The most bytes that a script file may have.
pub const SCRIPT_LIMIT: u64 = 4_194_304;

/// The most bytes that a tree file may have.
pub const TREE_LIMIT: u64 = 4_611_686_018_427_387_904;

/// What a file is read as.
#[derive(Clone, Copy, Debug, PartialEq, Eq)]
pub enum File {
    Problem,
    Graph,
    Script,
    Tree,
}

/// What of the input is refused, by name.
#[derive(Clone, Copy, Debug, PartialEq, Eq)]
pub enum Refusal {
    /// The file has more bytes than its limit.
    TooLong(File),
    /// The bytes of the problem file aren't a problem, for this cause.
    Problem(SourceError),
    /// The second file isn't a document of its kind for the problem; the number, from 1, of the first
    /// line that none has there.
    BadLine(File, u64),
}
