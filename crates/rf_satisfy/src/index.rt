//! The index of a graph: its edges by their ends, and the nodes of each object and class.

pub mod edge_ends;
pub mod edges;
pub mod graph_index;
pub mod node_lists;
