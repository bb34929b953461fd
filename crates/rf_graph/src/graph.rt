use rf_text::Items;

/// A node of a graph. Its number is its place in the graph's list of nodes, from 0.
#[derive(Clone, Copy, Debug, PartialEq, Eq)]
pub struct Node {
    /// The number of its class.
    pub class: u32,
    /// The number of the object that it comes from.
    pub origin: u64,
}

/// An edge of a graph.
#[derive(Clone, Copy, Debug, PartialEq, Eq)]
pub struct Edge {
    /// The number of its reference.
    pub reference: u32,
    /// The number of the node that it leads from.
    pub from: u64,
    /// The number of the node that it leads to.
    pub to: u64,
}

/// A graph: nodes, and edges between them.
#[derive(Debug, Drop)]
pub struct Graph {
    pub nodes: Items<Node>,
    pub edges: Items<Edge>,
}
