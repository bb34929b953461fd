ghost use Rattle.std.specs.Prelude.{◌≡◌, ◌≢◌, ◌++◌, ◌∷◌, ◌+◌, ◌≤◌, ◌↔◌, List, ℕ, map, length, All, AllPairs, Contains, IfOk, IfSome, IfNone, ◌⊎◌, codes};
ghost use Rattle.rf_text.specs.Line.{joined_lines};
ghost use Rattle.rf_graph.specs.declared.graph.Edge.{Edge as EdgeValue};
ghost use Rattle.rf_graph.specs.declared.graph.Node.{Node as NodeValue};
ghost use Rattle.rf_graph.specs.BadLine.{IsBadLine};
ghost use Rattle.rf_graph.specs.Document.{IsDocument, edge_line, node_line};
ghost use Rattle.rf_graph.specs.Graph.{FitsEdge, FitsNode};
ghost use Rattle.rf_graph.specs.declared.read.GraphError.TheVariants.{Memory};

use crate::line::{read_edge, read_node};
use crate::names::{Names, Numbers};
use crate::{Edge, Graph, Node};
use rf_problem::Problem;
use rf_text::{Items, first_line};
use std::alloc::{AllocError, AllocFailed, Global};
use std::collections::BTreeSet;
use thiserror::Error;

/// Why bytes are not read as a graph.
#[derive(Clone, Copy, Debug, PartialEq, Eq, Error)]
pub enum GraphError {
    /// The number, from 1, of the first line that no graph document of the problem has there. A line
    /// that is missing counts.
    #[error("bad line")]
    BadLine(u64),
    /// Memory ran out.
    #[error("out of memory")]
    Memory,
}

impl From<AllocError> for GraphError {
    ghost from_gives = { λ _ e. e ≡ Memory };

    fn from(_: AllocError) -> GraphError {
        GraphError::Memory
    }
}

impl<T: Drop> From<AllocFailed<T>> for GraphError {
    ghost from_gives = { λ _ e. e ≡ Memory };

    fn from(_: AllocFailed<T>) -> GraphError {
        GraphError::Memory
    }
}

// What stands after the first line, where that is the head of a graph document.
fn after_head(bytes: &[u8]) -> Option<&[u8]>
    ensures found { IfSome result (λ rest. bytes.now ≡ codes "graph 1\n" ++ rest.now) }
    ensures none { IfNone result ((rest : List ℕ) → bytes.now ≡ codes "graph 1\n" ++ rest → ⊥) }
{
    bytes.strip_prefix(b"graph 1\n".as_slice())
}

// What stands after the first line, where that is the end of a graph document.
fn after_end(bytes: &[u8]) -> Option<&[u8]>
    ensures found { IfSome result (λ rest. bytes.now ≡ codes "end\n" ++ rest.now) }
    ensures none { IfNone result ((rest : List ℕ) → bytes.now ≡ codes "end\n" ++ rest → ⊥) }
{
    bytes.strip_prefix(b"end\n".as_slice())
}

// The node whose line the bytes begin with, and what stands after that line.
fn first_node<'b>(numbers: &Numbers<'_>, bytes: &'b [u8]) -> Option<(Node, &'b [u8])>
    ensures fits { IfSome result (λ found. FitsNode numbers.now.problem.now found.0) }
    ensures joined { IfSome result (λ found. bytes.now ≡ node_line numbers.now.problem.now found.0 ++ 10 ∷ found.1.now) }
    ensures none { IfNone result ((node : NodeValue) (after : List ℕ) → FitsNode numbers.now.problem.now node → bytes.now ≡ node_line numbers.now.problem.now node ++ 10 ∷ after → ⊥) }
{
    let (line, after) = first_line(bytes)?;
    let node = read_node(numbers, line)?;
    Some((node, after))
}

// The edge whose line the bytes begin with, and what stands after that line.
fn first_edge<'b>(numbers: &Numbers<'_>, nodes: u64, bytes: &'b [u8]) -> Option<(Edge, &'b [u8])>
    ensures fits { IfSome result (λ found. FitsEdge numbers.now.problem.now nodes found.0) }
    ensures joined { IfSome result (λ found. bytes.now ≡ edge_line numbers.now.problem.now found.0 ++ 10 ∷ found.1.now) }
    ensures none { IfNone result ((edge : EdgeValue) (after : List ℕ) → FitsEdge numbers.now.problem.now nodes edge → bytes.now ≡ edge_line numbers.now.problem.now edge ++ 10 ∷ after → ⊥) }
{
    let (line, after) = first_line(bytes)?;
    let edge = read_edge(numbers, nodes, line)?;
    Some((edge, after))
}

// The nodes whose lines the bytes begin with, as many as there are, and what stands after them.
fn read_nodes<'b>(
    alloc: Global,
    numbers: &Numbers<'_>,
    bytes: &'b [u8],
) -> Result<(Vec<Node>, &'b [u8]), AllocError>
    ensures fits { IfOk result (λ found. All (FitsNode numbers.now.problem.now) found.0.items) }
    ensures joined { IfOk result (λ found. bytes.now ≡ joined_lines (map (node_line numbers.now.problem.now) found.0.items) ++ found.1.now) }
    ensures few { IfOk result (λ found. length found.0.items + length found.1.now ≤ length bytes.now) }
    ensures over { IfOk result (λ found. (node : NodeValue) (after : List ℕ) → FitsNode numbers.now.problem.now node → found.1.now ≡ node_line numbers.now.problem.now node ++ 10 ∷ after → ⊥) }
{
    let mut nodes = Vec::new(alloc);
    let mut rest = bytes;
    while let Some((node, after)) = first_node(numbers, rest) {
        nodes.push(node)?;
        rest = after;
    }
    Ok((nodes, rest))
}

// The edges, no two the same, whose lines the bytes begin with, as many as there are, and what
// stands after them.
fn read_edges<'b>(
    alloc: Global,
    numbers: &Numbers<'_>,
    nodes: u64,
    bytes: &'b [u8],
) -> Result<(Vec<Edge>, &'b [u8]), AllocError>
    ensures fits { IfOk result (λ found. All (FitsEdge numbers.now.problem.now nodes) found.0.items) }
    ensures distinct { IfOk result (λ found. AllPairs (λ e f. e ≢ f) found.0.items) }
    ensures joined { IfOk result (λ found. bytes.now ≡ joined_lines (map (edge_line numbers.now.problem.now) found.0.items) ++ found.1.now) }
    ensures few { IfOk result (λ found. length found.0.items + length found.1.now ≤ length bytes.now) }
    ensures over { IfOk result (λ found. (edge : EdgeValue) (after : List ℕ) → FitsEdge numbers.now.problem.now nodes edge → (Contains found.0.items edge → ⊥) → found.1.now ≡ edge_line numbers.now.problem.now edge ++ 10 ∷ after → ⊥) }
{
    let mut edges = Vec::new(alloc);
    let mut seen = BTreeSet::new(alloc);
    let mut rest = bytes;
    while let Some((edge, after)) = first_edge(numbers, nodes, rest) {
        if !seen.insert((edge.reference, edge.from, edge.to))? {
            break;
        }
        edges.push(edge)?;
        rest = after;
    }
    Ok((edges, rest))
}

// The graph whose document the bytes are, of which there is one at the most.
fn read_document(alloc: Global, problem: &Problem, bytes: &[u8]) -> Result<Graph, GraphError>
    ensures ok { IfOk result (λ g. IsDocument problem.now g bytes.now) }
    ensures same { IfOk result (λ g. (other : _) → IsDocument problem.now other bytes.now → other ≡ g) }
    ensures bad_line { (line : _) → result ≡ Err (GraphError.BadLine line) → IsBadLine problem.now bytes.now line }
{
    let names = Names::new(alloc, problem)?;
    let numbers = Numbers::new(alloc, &names)?;
    let Some(tail) = after_head(bytes) else {
        return Err(GraphError::BadLine(1));
    };
    let (nodes, after_nodes) = read_nodes(alloc, &numbers, tail)?;
    let (edges, rest) = read_edges(alloc, &numbers, nodes.len() as u64, after_nodes)?;
    let here = (nodes.len() + edges.len()) as u64 + 2;
    let Some(after) = after_end(rest) else {
        return Err(GraphError::BadLine(here));
    };
    if !after.is_empty() {
        return Err(GraphError::BadLine(here + 1));
    }
    Ok(Graph {
        nodes: Items::from_vec(nodes),
        edges: Items::from_vec(edges),
    })
}

/// The graph whose document the bytes are.
pub fn read_graph(alloc: Global, problem: &Problem, bytes: &[u8]) -> Result<Graph, GraphError>
    ensures ok { IfOk result (λ graph. IsDocument problem.now graph bytes.now) }
    ensures found { (graph : _) → IsDocument problem.now graph bytes.now → (result ≡ Ok graph) ⊎ (result ≡ Err GraphError.Memory) }
    ensures bad_line { (line : _) → result ≡ Err (GraphError.BadLine line) → IsBadLine problem.now bytes.now line }
    ensures stuck { (line : _) → IsBadLine problem.now bytes.now line → (result ≡ Err (GraphError.BadLine line)) ⊎ (result ≡ Err GraphError.Memory) }
{
    read_document(alloc, problem, bytes)
}
