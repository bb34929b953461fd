//! How much a problem text may have of each thing, each number once. Code takes them from here, and
//! definitions cite them by `specs.declared.TheConstants`.
#![tactic(auto)]

/// Classes of a problem.
pub const MOST_CLASSES: usize = 256;

/// References of a problem.
pub const MOST_REFERENCES: usize = 512;

/// Predicates of a problem.
pub const MOST_PREDICATES: usize = 256;

/// Bounds of a problem's scopes.
pub const MOST_SCOPES: usize = 256;

/// Named objects of a problem.
pub const MOST_OBJECTS: usize = 4_096;

/// Assertions of a problem, as they are written.
pub const MOST_ASSERTIONS: usize = 262_144;

/// Parameters of a predicate.
pub const MOST_PARAMETERS: usize = 4;

/// Clauses of a predicate.
pub const MOST_CLAUSES: usize = 64;

/// Literals of a clause, beside those of the classes of parameters.
pub const MOST_LITERALS: usize = 32;

/// Variables of a clause, parameters among them.
pub const MOST_VARIABLES: usize = 8;

/// Bytes of a name.
pub const MOST_NAME_BYTES: usize = 255;

/// The greatest number that a text may have.
pub const GREATEST_NUMBER: u32 = 1_000_000;

/// The most decisions that a search may be allowed as its budget.
pub const MOST_DECISIONS: u64 = 1_000_000;
