ghost use Rattle.std.specs.Prelude.{◌≡◌, ◌<◌, ◌++◌, codes, decimal, List, ℕ, IfSome, IfNone};
ghost use Rattle.rf_graph.specs.declared.graph.Edge.{Edge as EdgeValue};
ghost use Rattle.rf_graph.specs.declared.graph.Node.{Node as NodeValue};
ghost use Rattle.rf_graph.specs.Document.{edge_line, node_line};
ghost use Rattle.rf_graph.specs.Graph.{FitsEdge, FitsNode};
ghost use Rattle.rf_graph.specs.Names.{IsLastWord, NoSpace};

use crate::names::Numbers;
use crate::{Edge, Node};
use rf_text::{read_number, split_written};

// What stands after the word that begins the line of a node.
fn after_node(line: &[u8]) -> Option<&[u8]>
    ensures found { IfSome result (λ rest. line.now ≡ codes "node " ++ rest.now) }
    ensures none { IfNone result ((rest : List ℕ) → line.now ≡ codes "node " ++ rest → ⊥) }
{
    line.strip_prefix(b"node ".as_slice())
}

// What stands after the word that begins the line of an edge.
fn after_edge(line: &[u8]) -> Option<&[u8]>
    ensures found { IfSome result (λ rest. line.now ≡ codes "edge " ++ rest.now) }
    ensures none { IfNone result ((rest : List ℕ) → line.now ≡ codes "edge " ++ rest → ⊥) }
{
    line.strip_prefix(b"edge ".as_slice())
}

// What stands after a space.
fn after_space(bytes: &[u8]) -> Option<&[u8]>
    ensures found { IfSome result (λ rest. bytes.now ≡ codes " " ++ rest.now) }
    ensures none { IfNone result ((rest : List ℕ) → bytes.now ≡ codes " " ++ rest → ⊥) }
{
    bytes.strip_prefix(b" ".as_slice())
}

// What stands before the last space, and what after it.
fn last_word(bytes: &[u8]) -> Option<(&[u8], &[u8])>
    ensures found { IfSome result (λ parts. IsLastWord bytes.now parts.0.now parts.1.now) }
    ensures none { IfNone result (NoSpace bytes.now) }
{
    let end = bytes.iter().rposition(|byte| *byte == b' ')?;
    Some((&bytes[..end], &bytes[end + 1..]))
}

// The number of a node, of which there are so many, that is written so.
fn read_node_number(nodes: u64, word: &[u8]) -> Option<u64>
    ensures found { IfSome result (λ n. (n < nodes) × (word.now ≡ decimal n)) }
    ensures none { IfNone result ((n : ℕ) → n < nodes → word.now ≡ decimal n → ⊥) }
{
    match read_number(word) {
        Some(n) if n < nodes => Some(n),
        _ => None,
    }
}

/// The node whose line this is; None where it is the line of no node.
pub fn read_node(numbers: &Numbers<'_>, line: &[u8]) -> Option<Node>
    ensures fits { IfSome result (λ node. FitsNode numbers.now.problem.now node) }
    ensures spelled { IfSome result (λ node. line.now ≡ node_line numbers.now.problem.now node) }
    ensures none { IfNone result ((node : NodeValue) → FitsNode numbers.now.problem.now node → line.now ≡ node_line numbers.now.problem.now node → ⊥) }
{
    let names = after_node(line)?;
    let (class_name, tail) = split_written(names)?;
    let object_name = after_space(tail)?;
    let class = numbers.find_class(class_name)?;
    let origin = numbers.find_object(object_name)?;
    Some(Node { class, origin })
}

/// The edge between two of so many nodes whose line this is; None where it is the line of no such
/// edge.
pub fn read_edge(numbers: &Numbers<'_>, nodes: u64, line: &[u8]) -> Option<Edge>
    ensures fits { IfSome result (λ edge. FitsEdge numbers.now.problem.now nodes edge) }
    ensures spelled { IfSome result (λ edge. line.now ≡ edge_line numbers.now.problem.now edge) }
    ensures none { IfNone result ((edge : EdgeValue) → FitsEdge numbers.now.problem.now nodes edge → line.now ≡ edge_line numbers.now.problem.now edge → ⊥) }
{
    let tail = after_edge(line)?;
    let (prefix, to_word) = last_word(tail)?;
    let (reference_name, from_word) = last_word(prefix)?;
    let reference = numbers.find_reference(reference_name)?;
    let from = read_node_number(nodes, from_word)?;
    let to = read_node_number(nodes, to_word)?;
    Some(Edge {
        reference,
        from,
        to,
    })
}
