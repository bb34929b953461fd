//! Graphs: what they are, when a symbol holds in one, when one satisfies a problem and what its first
//! violation is, and the documents that are written of them.
#![tactic(auto)]

mod graph;
mod laws;
mod line;
mod names;
mod print;
mod read;
mod verdict;

pub use graph::{Edge, Graph, Node};
pub use laws::{first_violation_law, holds_law, satisfied_law};
pub use print::{print_graph, push_class, push_object, push_reference, push_symbol};
pub use read::{GraphError, read_graph};
pub use verdict::{Verdict, Violation};
