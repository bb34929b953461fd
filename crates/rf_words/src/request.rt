use rf_text::Text;

/// The seed where no option names one.
pub const DEFAULT_SEED: u64 = 0;

/// How many decisions a search may take where no option says so.
pub const DEFAULT_BUDGET: u64 = 10_000;

/// The greatest size of a grown problem.
pub const MOST_GROWTH: u64 = 200;

/// A command, with what its words name.
#[derive(Debug, Drop)]
pub enum Command {
    /// A graph of the problem in a file.
    Generate {
        file: Text,
        seed: u64,
        budget: u32,
        json: bool,
    },
    /// Whether a graph satisfies a problem.
    Check {
        file: Text,
        graph: Text,
    },
    /// Whether a tree refutes a problem.
    Verify {
        file: Text,
        tree: Text,
    },
    Evaluate {
        file: Text,
    },
    /// A session over a problem, by a script.
    Session {
        file: Text,
        script: Text,
    },
    /// A problem of this size.
    Grow(u32),
}
