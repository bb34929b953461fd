use rf_problem::Symbol;
use rf_values::Tuple;

/// What of a problem a graph doesn't keep, and where. The kinds stand in their order.
#[derive(Clone, Copy, Debug, PartialEq, Eq)]
pub enum Violation {
    /// The class of this node is abstract.
    Class(u64),
    /// An end of the edge of this reference between these nodes has a class that isn't below the
    /// reference's source or target.
    Edge(u32, u64, u64),
    /// The mirrored edge of the opposite of this edge is missing.
    Opposite(u32, u64, u64),
    /// The number of edges of this reference from this node is outside the reference's range.
    Degree(u32, u64),
    /// This node is contained more than once, or not at all though a node of its class has to be.
    Containers(u64),
    /// This node lies on a cycle of edges that contain.
    Cycle(u64),
    /// The object of this number has a number of nodes that it doesn't admit, or a node of a class
    /// that it may not have.
    Object(u64),
    /// At these nodes what is asserted of the symbol isn't satisfied.
    Asserted(Symbol, Tuple),
    /// The number of nodes that the scope of this number counts is outside its range.
    Scope(u32),
}

/// Whether a graph satisfies a problem, and else the first of its violations.
#[derive(Clone, Copy, Debug, PartialEq, Eq)]
pub enum Verdict {
    Satisfied,
    Violated(Violation),
}
